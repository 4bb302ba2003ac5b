//! The first part of a row that doesn't cover another row's.

ghost use Rattle.std.specs.Prelude.{◌≡◌, ◌↔◌, IsTrue, None, length};
ghost use Rattle.board.specs.Boards.{Board};
ghost use Rattle.facts.specs.domain.Covering.{IsSized};
ghost use Rattle.facts.specs.domain.Firsts.{FindsFirst};
ghost use Rattle.facts.specs.domain.Rows.{row_view, set_at, span_at, source_at};
ghost use Rattle.facts.specs.domain.Rows.{RowCovers, SetCovers, SpanCovers, SourceCovers};
ghost use Rattle.facts.specs.domain.Sets.{rails_in};
ghost use Rattle.facts.specs.domain.Uncovered.{FindsUncovered};

use crate::domain::good_set::GoodSet;
use crate::domain::part::Part;
use crate::domain::parts::{pages_at, protects_at};
use crate::domain::row::Row;
use crate::domain::row_part::RowPart;
use crate::domain::source::Source;
use crate::domain::span::Span;

/// Whether what a target may store in PAGE is covered.
fn pages_cover(row: &Row, other: &Row, target: usize) -> bool
    ensures { IsTrue result ↔ SetCovers (set_at (row_view row.now).pages target)
        (set_at (row_view other.now).pages target) }
{
    pages_at(row, target).covers(&pages_at(other, target))
}

/// The first target of which that isn't.
fn uncovered_pages(row: &Row, other: &Row) -> Option<usize>
    ensures { FindsFirst (λ i. SetCovers (set_at (row_view row.now).pages i)
        (set_at (row_view other.now).pages i)) result }
{
    for target in 0..other.pages.len() {
        if !pages_cover(row, other, target) {
            return Some(target);
        }
    }
    None
}

/// Whether what a target may store in WRITE_PROTECT is covered.
fn protects_cover(row: &Row, other: &Row, target: usize) -> bool
    ensures { IsTrue result ↔ SetCovers (set_at (row_view row.now).protects target)
        (set_at (row_view other.now).protects target) }
{
    protects_at(row, target).covers(&protects_at(other, target))
}

/// The first target of which that isn't.
fn uncovered_protects(row: &Row, other: &Row) -> Option<usize>
    ensures { FindsFirst (λ i. SetCovers (set_at (row_view row.now).protects i)
        (set_at (row_view other.now).protects i)) result }
{
    for target in 0..other.protects.len() {
        if !protects_cover(row, other, target) {
            return Some(target);
        }
    }
    None
}

/// Whether a rail is in the second set, if it is in the first.
fn keeps_rail(good: GoodSet, other: GoodSet, rail: u8) -> bool
    ensures { IsTrue result ↔ (IsTrue (rails_in good rail) → IsTrue (rails_in other rail)) }
{
    !good.contains(rail) || other.contains(rail)
}

/// The first rail that is in the first set alone, looked for one by one.
fn rail_of_one(good: GoodSet, other: GoodSet) -> Option<usize>
    ensures { FindsFirst (λ d. IsTrue (rails_in good d) → IsTrue (rails_in other d)) result }
{
    for rail in 0..64 {
        if !keeps_rail(good, other, rail) {
            return Some(usize::from(rail));
        }
    }
    None
}

/// The first rail that is in the first set alone.
fn uncovered_rail(good: GoodSet, other: GoodSet) -> Option<usize>
    ensures { FindsFirst (λ d. IsTrue (rails_in good d) → IsTrue (rails_in other d)) result }
{
    if good.covers(&other) {
        None
    } else {
        rail_of_one(good, other)
    }
}

/// The first span that doesn't cover the one at its place.
fn uncovered_span(spans: &[Span], others: &[Span]) -> Option<usize>
    requires { length spans.now ≡ length others.now }
    ensures { FindsFirst (λ n. SpanCovers (span_at spans.now n) (span_at others.now n)) result }
{
    for place in 0..spans.len() {
        if !spans[place].covers(&others[place]) {
            return Some(place);
        }
    }
    None
}

/// The first source that doesn't cover the one at its place.
fn uncovered_source(sources: &[Source], others: &[Source]) -> Option<usize>
    requires { length sources.now ≡ length others.now }
    ensures { FindsFirst (λ n. SourceCovers (source_at sources.now n) (source_at others.now n))
        result }
{
    for place in 0..sources.len() {
        if !sources[place].covers(&others[place]) {
            return Some(place);
        }
    }
    None
}

/// The first part of a row that doesn't cover the other's.
fn first_uncovered(row: &Row, other: &Row) -> Option<RowPart>
    ensures { FindsUncovered (row_view row.now) (row_view other.now) result }
{
    if let Some(target) = uncovered_pages(row, other) {
        return Some(RowPart::Pages(target));
    }
    if let Some(target) = uncovered_protects(row, other) {
        return Some(RowPart::Protects(target));
    }
    if let Some(rail) = uncovered_rail(row.good, other.good) {
        return Some(RowPart::Good(rail));
    }
    if let Some(register) = uncovered_span(&row.regs, &other.regs) {
        return Some(RowPart::Register(register));
    }
    if let Some(register) = uncovered_source(&row.sources, &other.sources) {
        return Some(RowPart::Source(register));
    }
    if let Some(counter) = uncovered_span(&row.counters, &other.counters) {
        return Some(RowPart::Counter(counter));
    }
    if row.lost.covers(&other.lost) {
        None
    } else {
        Some(RowPart::Lost)
    }
}

impl Row {
    /// Its first part that doesn't cover the other row's: of what targets may store in PAGE, then
    /// in WRITE_PROTECT, of good rails, registers, their sources, counters and lost arbitrations,
    /// each by its number. A target of which a row says nothing may store nothing.
    pub fn uncovered(&self, other: &Row) -> Option<RowPart>
        ensures first { FindsUncovered (row_view self.now) (row_view other.now) result }
        ensures rows { (b : Board) → IsSized b self.now → IsSized b other.now
            → (result ≡ None) ↔ RowCovers b (row_view self.now) (row_view other.now) }
    {
        self.is_sized();
        other.is_sized();
        first_uncovered(self, other)
    }
}
