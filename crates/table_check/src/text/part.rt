//! Rows that are being read.

ghost use Rattle.std.specs.Prelude.{◌≡◌, map, length, IfOk, IsTrue};
ghost use Rattle.texts.specs.Reading.{some_or};
ghost use Rattle.facts.specs.domain.Rows.{row_view};
ghost use Rattle.facts.specs.domain.Sets.{values_in};
ghost use Rattle.table_check.specs.declared.text.fault.TableFault.TheVariants.{BadLine};
ghost use Rattle.table_check.specs.text.Faults.{Gives};
ghost use Rattle.table_check.specs.text.Passes.{part_view, no_part, is_full, with_set};
ghost use Rattle.table_check.specs.text.Passes.{with_good, with_register, with_counter, with_line};
ghost use Rattle.table_check.specs.text.Passes.{finished, with_lost, unsaid_lost};

use crate::text::fault::TableFault;
use crate::text::row_line::ticks_said;
use crate::text::set_line::{good_said, set_said};
use crate::text::span_line::{counter_said, lost_said, register_said};
use crate::text::version::Version;
use board::Board;
use facts::{ByteSet, GoodSet, Kind, PageSet, ProtectSet, Row, Source, Span};
use std::alloc::{AllocError, Global};

/// What is read of a row, in the order of its lines.
#[derive(Drop)]
pub(crate) struct Part {
    pub pages: Vec<PageSet>,
    pub protects: Vec<ProtectSet>,
    pub good: Option<GoodSet>,
    pub regs: Vec<(Span, Source)>,
    pub counters: Vec<Span>,
    pub lost: Option<Span>,
}

fn spans(known: &[(Span, Source)]) -> [Span; 8]
    requires { length known.now ≡ 8 }
    ensures { result ≡ map (λ r. r.0) known.now }
{
    let [r0, r1, r2, r3, r4, r5, r6, r7] = known else {
        unreachable!()
    };
    [r0.0, r1.0, r2.0, r3.0, r4.0, r5.0, r6.0, r7.0]
}

fn sources(known: &[(Span, Source)]) -> [Source; 8]
    requires { length known.now ≡ 8 }
    ensures { result ≡ map (λ r. r.1) known.now }
{
    let [r0, r1, r2, r3, r4, r5, r6, r7] = known else {
        unreachable!()
    };
    [r0.1, r1.1, r2.1, r3.1, r4.1, r5.1, r6.1, r7.1]
}

fn counters(known: &[Span]) -> [Span; 4]
    requires { length known.now ≡ 4 }
    ensures { result ≡ known.now }
{
    let [c0, c1, c2, c3] = known else {
        unreachable!()
    };
    [*c0, *c1, *c2, *c3]
}

/// A set more, which the line of its target says behind a key.
#[tactic(auto, unfolding(crate::specs::text::Passes::with_set))]
fn add_set<K: Kind>(
    sets: &mut Vec<ByteSet<K>>,
    alloc: Global,
    board: &Board,
    key: &str,
    line: usize,
    words: &[&str],
) -> Result<(), TableFault>
    ensures { Gives (λ _. map (values_in K.is_value K.place) sets.new.items) result
        (some_or (BadLine line) (with_set K.is_value key.now board.now
        (map (values_in K.is_value K.place) sets.old.items) (map (λ w. w.now) words.now))) }
{
    let Some(set) = set_said(alloc, board, key, sets.len(), words)? else {
        return Err(TableFault::BadLine(line));
    };
    sets.push(set)?;
    Ok(())
}

/// How many arbitrations may be lost where no line says it.
fn unsaid_lost(version: Version, board: &Board) -> Option<Span>
    ensures { result ≡ unsaid_lost version board.now }
{
    match version {
        Version::First => Some(Span {
            lo: 0,
            hi: board.contentions(),
        }),
        Version::Second => None,
    }
}

impl Part {
    /// Nothing of a row.
    pub(crate) fn new(alloc: Global, version: Version, board: &Board) -> Result<Part, AllocError>
        ensures { IfOk result (λ part. part_view part ≡ no_part version board.now) }
    {
        let targets = board.targets().len();
        Ok(Part {
            pages: Vec::with_capacity(alloc, targets)?,
            protects: Vec::with_capacity(alloc, targets)?,
            good: None,
            regs: Vec::with_capacity(alloc, 8)?,
            counters: Vec::with_capacity(alloc, 4)?,
            lost: unsaid_lost(version, board),
        })
    }

    #[tactic(auto, unfolding(crate::specs::text::Passes::with_good))]
    fn add_good(
        &mut self,
        alloc: Global,
        board: &Board,
        line: usize,
        words: &[&str],
    ) -> Result<(), TableFault>
        ensures { Gives (λ _. part_view self.new) result (some_or (BadLine line)
            (with_good board.now (part_view self.old) (map (λ w. w.now) words.now))) }
    {
        let Some(set) = good_said(alloc, board, words)? else {
            return Err(TableFault::BadLine(line));
        };
        self.good = Some(set);
        Ok(())
    }

    #[tactic(auto, unfolding(crate::specs::text::Passes::with_register))]
    fn add_register(&mut self, board: &Board, line: usize, words: &[&str]) -> Result<(), TableFault>
        ensures { Gives (λ _. part_view self.new) result (some_or (BadLine line)
            (with_register board.now (part_view self.old) (map (λ w. w.now) words.now))) }
    {
        let Some(known) = register_said(board, self.regs.len(), words) else {
            return Err(TableFault::BadLine(line));
        };
        self.regs.push(known)?;
        Ok(())
    }

    #[tactic(auto, unfolding(crate::specs::text::Passes::with_counter))]
    fn add_counter(&mut self, line: usize, words: &[&str]) -> Result<(), TableFault>
        ensures { Gives (λ _. part_view self.new) result (some_or (BadLine line)
            (with_counter (part_view self.old) (map (λ w. w.now) words.now))) }
    {
        let Some(span) = counter_said(self.counters.len(), words) else {
            return Err(TableFault::BadLine(line));
        };
        self.counters.push(span)?;
        Ok(())
    }

    #[tactic(auto, unfolding(crate::specs::text::Passes::with_lost))]
    fn add_lost(&mut self, line: usize, words: &[&str]) -> Result<(), TableFault>
        ensures { Gives (λ _. part_view self.new) result (some_or (BadLine line)
            (with_lost (part_view self.old) (map (λ w. w.now) words.now))) }
    {
        let Some(span) = lost_said(words) else {
            return Err(TableFault::BadLine(line));
        };
        self.lost = Some(span);
        Ok(())
    }

    /// The line that comes next, which isn't the last one.
    #[tactic(auto, unfolding(crate::specs::text::Passes::with_line))]
    pub(crate) fn add_line(
        &mut self,
        alloc: Global,
        board: &Board,
        line: usize,
        words: &[&str],
    ) -> Result<(), TableFault>
        ensures { Gives (λ _. part_view self.new) result (some_or (BadLine line)
            (with_line board.now (part_view self.old) (map (λ w. w.now) words.now))) }
    {
        let targets = board.targets().len();
        if self.pages.len() < targets {
            add_set(&mut self.pages, alloc, board, "page", line, words)
        } else if self.protects.len() < targets {
            add_set(&mut self.protects, alloc, board, "protect", line, words)
        } else if self.good.is_none() {
            self.add_good(alloc, board, line, words)
        } else if self.regs.len() < 8 {
            self.add_register(board, line, words)
        } else if self.counters.len() < 4 {
            self.add_counter(line, words)
        } else {
            self.add_lost(line, words)
        }
    }

    /// Whether the last line comes next.
    pub(crate) fn is_full(&self) -> bool
        ensures { result ≡ is_full (part_view self.now) }
    {
        self.regs.len() == 8 && self.counters.len() == 4 && self.lost.is_some()
    }

    /// The row, by its last line.
    #[tactic(auto, unfolding(crate::specs::text::Passes::finished))]
    pub(crate) fn finish(
        self,
        version: Version,
        line: usize,
        words: &[&str],
    ) -> Result<Row, TableFault>
        requires { IsTrue (is_full (part_view self)) }
        ensures { Gives row_view result (some_or (BadLine line)
            (finished version (part_view self) (map (λ w. w.now) words.now))) }
    {
        let (Some(good), Some(lost)) = (self.good, self.lost) else {
            return Err(TableFault::BadLine(line));
        };
        let Some(ticks) = ticks_said(version, words) else {
            return Err(TableFault::BadLine(line));
        };
        let (base, coeffs, lost_coeff) = ticks;
        let regs = spans(&self.regs);
        let sources = sources(&self.regs);
        let counters = counters(&self.counters);
        Ok(Row {
            pages: self.pages,
            protects: self.protects,
            good,
            regs,
            sources,
            counters,
            lost,
            base,
            coeffs,
            lost_coeff,
        })
    }
}
