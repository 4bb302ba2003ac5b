//! Whether a row holds every start, and its first part that doesn't.

ghost use Rattle.std.specs.Prelude.{◌≡◌, ◌<◌, ◌↔◌, IsTrue, All, None, length};
ghost use Rattle.board.specs.Boards.{Target as AnyTarget};
ghost use Rattle.targets.specs.States.{IsTargetAt};
ghost use Rattle.facts.specs.domain.Firsts.{FindsFirst};
ghost use Rattle.facts.specs.domain.Rows.{row_view, set_at, source_at, span_at, InSpan};
ghost use Rattle.facts.specs.domain.Sets.{rails_in};
ghost use Rattle.facts.specs.well_formed.Starts.{HoldsStarts, StartsAt};
ghost use Rattle.facts.specs.well_formed.Unheld.{FindsUnheld};
ghost use Rattle.facts.specs.declared.domain.source.Source.TheVariants as source;

use crate::domain::good_set::GoodSet;
use crate::domain::row::Row;
use crate::domain::source::Source;
use crate::domain::span::Span;
use crate::well_formed::shaping::{has_page, has_protect};
use crate::well_formed::unheld::Unheld;
use board::{Board, Target};

/// Whether a row has each page that a target may start with.
fn has_start_pages(row: &Row, index: usize, target: &Target) -> bool
    ensures { IsTrue result
        ↔ All (λ v. IsTrue (set_at (row_view row.now).pages index v)) target.now.start_pages }
{
    target
        .start_pages()
        .iter()
        .all(|value| has_page(row, index, *value))
}

/// Whether a row has each protection that a target may start with.
fn has_start_protects(row: &Row, index: usize, target: &Target) -> bool
    ensures { IsTrue result
        ↔ All (λ v. IsTrue (set_at (row_view row.now).protects index v)) target.now.start_protects }
{
    target
        .start_protects()
        .iter()
        .all(|value| has_protect(row, index, *value))
}

/// Whether a row holds every start of a target.
fn starts_at(row: &Row, index: usize, target: &Target) -> bool
    ensures { IsTrue result ↔ StartsAt (row_view row.now) index target.now }
{
    has_start_pages(row, index, target) && has_start_protects(row, index, target)
}

/// The first target of which a row doesn't hold every start.
fn unheld_target(board: &Board, row: &Row) -> Option<usize>
    ensures { FindsFirst (λ i. (t : AnyTarget) → IsTargetAt board.now i t
        → StartsAt (row_view row.now) i t) result }
{
    for (index, target) in board.targets().iter().enumerate() {
        if !starts_at(row, index, target) {
            return Some(index);
        }
    }
    None
}

/// The first rail that is known to be good.
fn good_rail(good: GoodSet) -> Option<usize>
    ensures { FindsFirst (λ d. IsTrue (rails_in good d) → ⊥) result }
{
    for rail in 0..64 {
        if good.contains(rail) {
            return Some(usize::from(rail));
        }
    }
    None
}

/// The first span that hasn't 0.
fn span_without_zero(spans: &[Span]) -> Option<usize>
    ensures { FindsFirst (λ n. n < length spans.now → InSpan (span_at spans.now n) 0) result }
{
    for place in 0..spans.len() {
        if spans[place].lo > 0 {
            return Some(place);
        }
    }
    None
}

/// The first source that names something.
fn naming_source(sources: &[Source]) -> Option<usize>
    ensures { FindsFirst (λ n. source_at sources.now n ≡ source.None) result }
{
    for place in 0..sources.len() {
        if sources[place] != Source::None {
            return Some(place);
        }
    }
    None
}

/// The first part of a row that doesn't hold every start.
fn first_unheld(board: &Board, row: &Row) -> Option<Unheld>
    ensures { FindsUnheld board.now (row_view row.now) result }
{
    if let Some(target) = unheld_target(board, row) {
        return Some(Unheld::Target(target));
    }
    if let Some(rail) = good_rail(row.good) {
        return Some(Unheld::Good(rail));
    }
    if let Some(register) = span_without_zero(&row.regs) {
        return Some(Unheld::Register(register));
    }
    if let Some(register) = naming_source(&row.sources) {
        return Some(Unheld::Source(register));
    }
    if let Some(counter) = span_without_zero(&row.counters) {
        return Some(Unheld::Counter(counter));
    }
    if row.lost.lo > 0 {
        return Some(Unheld::Lost);
    }
    if row.lost_coeff > 0 {
        return Some(Unheld::LostTicks);
    }
    None
}

impl Row {
    /// Its first part that doesn't hold every start of the board: a value that a target's PAGE or
    /// WRITE_PROTECT may have at the start, no good rail, 0 in each register, no sources, 0 in each
    /// counter, and no lost arbitration, of which none is paid for.
    pub fn unheld(&self, board: &Board) -> Option<Unheld>
        ensures first { FindsUnheld board.now (row_view self.now) result }
        ensures row { (result ≡ None) ↔ HoldsStarts board.now (row_view self.now) }
    {
        self.is_sized();
        first_unheld(board, self)
    }

    /// Whether it holds every start of the board.
    pub fn holds_starts(&self, board: &Board) -> bool
        ensures { IsTrue result ↔ HoldsStarts board.now (row_view self.now) }
    {
        self.unheld(board).is_none()
    }
}
