use crate::domain::good_set::GoodSet;
use crate::domain::page_set::PageSet;
use crate::domain::protect_set::ProtectSet;
use crate::domain::source::Source;
use crate::domain::span::Span;

/// What is known at a place of a program, whenever it is reached, and how many ticks are left
/// there.
#[derive(Debug, Drop)]
pub struct Row {
    /// Of each target of the board, what it may store in PAGE.
    pub pages: Vec<PageSet>,
    /// Of each target of the board, what it may store in WRITE_PROTECT.
    pub protects: Vec<ProtectSet>,
    /// The rails whose last report is good.
    pub good: GoodSet,
    /// The values of r0 to r7.
    pub regs: [Span; 8],
    /// What the values of r0 to r7 equal.
    pub sources: [Source; 8],
    /// The values of c0 to c3.
    pub counters: [Span; 4],
    /// How many arbitrations were lost so far to other controllers.
    pub lost: Span,
    /// The ticks that are left are at most this, a coefficient for each counter times the counter,
    /// and one for the arbitrations that may still be lost times their number.
    pub base: u64,
    pub coeffs: [u64; 4],
    pub lost_coeff: u64,
}

/// The span of 0 alone.
const ZERO: Span = Span { lo: 0, hi: 0 };

impl Row {
    ghost use Rattle.std.specs.Prelude.{◌≡◌};
    ghost use Rattle.facts.specs.domain.Rows.{row_view};
    ghost use Rattle.facts.specs.well_formed.Starts.{SaysJustStart};

    /// What is known where each target starts with a value of its set of PAGE and one of its set of
    /// WRITE_PROTECT: no good rail, 0 in each register and counter, no sources, and no lost
    /// arbitration. No ticks are left.
    pub fn at_start(pages: Vec<PageSet>, protects: Vec<ProtectSet>) -> Row
        ensures pages { result.pages.items ≡ pages.items }
        ensures protects { result.protects.items ≡ protects.items }
        ensures rest { SaysJustStart (row_view result) }
    {
        Row {
            pages,
            protects,
            good: GoodSet::empty(),
            regs: [ZERO; 8],
            sources: [Source::None; 8],
            counters: [ZERO; 4],
            lost: ZERO,
            base: 0,
            coeffs: [0; 4],
            lost_coeff: 0,
        }
    }
}
