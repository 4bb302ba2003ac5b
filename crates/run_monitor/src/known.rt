//! The row of a machine within a run.

ghost use Rattle.std.specs.Prelude.{◌≡◌, map, All, IfOk, IsTrue};
ghost use Rattle.facts.specs.duties.Duties.{one};
ghost use Rattle.facts.specs.domain.Rows.{row_view};
ghost use Rattle.facts.specs.domain.Sets.{is_page, is_protect, only, pages_in, protects_in};
ghost use Rattle.facts.specs.domain.Sets.{rails_in};
ghost use Rattle.targets.specs.States.{Belongs};
ghost use Rattle.run_monitor.specs.Known.{known_row};

use board::{Board, board_is_valid};
use facts::{GoodSet, PageSet, ProtectSet, Row, Source, Span};
use simulator::Machine;
use std::alloc::{AllocError, Global};

/// Of each target, the page that it stores.
fn stored_pages(alloc: Global, pages: &[u8]) -> Result<Vec<PageSet>, AllocError>
    requires { All (λ page. IsTrue (is_page page)) pages.now }
    ensures { IfOk result (λ sets. map pages_in sets.items ≡ map only pages.now) }
{
    let mut sets = Vec::new(alloc);
    for page in pages {
        sets.push(PageSet::empty().with(*page))?;
    }
    Ok(sets)
}

/// Of each target, the protection that it stores.
fn stored_protects(alloc: Global, protects: &[u8]) -> Result<Vec<ProtectSet>, AllocError>
    requires { All (λ protect. IsTrue (is_protect protect)) protects.now }
    ensures { IfOk result (λ sets. map protects_in sets.items ≡ map only protects.now) }
{
    let mut sets = Vec::new(alloc);
    for protect in protects {
        sets.push(ProtectSet::empty().with(*protect))?;
    }
    Ok(sets)
}

/// One value.
fn one(value: u16) -> Span
    ensures { result ≡ one value }
{
    Span {
        lo: value,
        hi: value,
    }
}

/// The value of each register.
fn register_spans(registers: &[u16; 8]) -> [Span; 8]
    ensures { result ≡ map one registers.now }
{
    let [r0, r1, r2, r3, r4, r5, r6, r7] = *registers;
    [
        one(r0),
        one(r1),
        one(r2),
        one(r3),
        one(r4),
        one(r5),
        one(r6),
        one(r7),
    ]
}

/// The value of each counter.
fn counter_spans(counters: &[u16; 4]) -> [Span; 4]
    ensures { result ≡ map one counters.now }
{
    let [c0, c1, c2, c3] = *counters;
    [one(c0), one(c1), one(c2), one(c3)]
}

/// What is known of a machine, where these rails are good.
#[tactic(auto, using(crate::proofs::Stored::pages_fit, crate::proofs::Stored::protects_fit))]
pub(crate) fn known_row(
    alloc: Global,
    board: &Board,
    machine: &Machine,
    good: GoodSet,
) -> Result<Row, AllocError>
    requires { Belongs board.now machine.now.bus }
    ensures { IfOk result (λ row. row_view row ≡ known_row machine.now (rails_in good)) }
{
    board_is_valid(board);
    Ok(Row {
        pages: stored_pages(alloc, &machine.bus.page)?,
        protects: stored_protects(alloc, &machine.bus.protect)?,
        good,
        regs: register_spans(&machine.regs),
        sources: [Source::None; 8],
        counters: counter_spans(&machine.counters),
        lost: one(machine.bus.lost),
        base: 0,
        coeffs: [0; 4],
        lost_coeff: 0,
    })
}
