//! The first part of a row that isn't a board's.

ghost use Rattle.std.specs.Prelude.{◌≡◌, ◌<◌, ◌≤◌, ◌↔◌, ℕ, IsTrue, None, length};
ghost use Rattle.std.specs.Prelude.{slice_index};
ghost use Rattle.board.specs.Boards.{Target as AnyTarget};
ghost use Rattle.board.specs.Valid.{is_page_value};
ghost use Rattle.pmbus_table.specs.Protect.{is_protection};
ghost use Rattle.targets.specs.States.{IsTargetAt};
ghost use Rattle.facts.specs.domain.Firsts.{FindsFirst};
ghost use Rattle.facts.specs.domain.Rows.{row_view, set_at, span_at, source_at, most_ticks};
ghost use Rattle.facts.specs.domain.Rows.{IsRow, IsSetOf, IsSource, IsSpan};
ghost use Rattle.facts.specs.domain.Sets.{rails_in};
ghost use Rattle.facts.specs.well_formed.Misfits.{FindsMisfit};
ghost use Rattle.facts.specs.declared.domain.span.Span.{Span as AnySpan};

use crate::domain::good_set::GoodSet;
use crate::domain::row::Row;
use crate::domain::source::Source;
use crate::domain::span::Span;
use crate::well_formed::misfit::Misfit;
use crate::well_formed::shaping::{are_coeffs, has_page_set, has_protect_set};
use board::Board;
use seq_program::MOST_TURNS;
use simulator::MOST_TICKS;

/// Whether there is a set of each kind for each target.
fn has_each_set(board: &Board, row: &Row) -> bool
    ensures { IsTrue result ↔ ((length (row_view row.now).pages ≡ length board.now.targets)
        × (length (row_view row.now).protects ≡ length board.now.targets)) }
{
    row.pages.len() == board.targets().len() && row.protects.len() == board.targets().len()
}

/// The first target whose set of pages isn't one of its values.
fn foreign_pages(board: &Board, row: &Row) -> Option<usize>
    ensures { FindsFirst (λ i. (t : AnyTarget) → IsTargetAt board.now i t
        → IsSetOf (λ v. IsTrue (is_page_value t.pages v)) (set_at (row_view row.now).pages i))
        result }
{
    for (index, target) in board.targets().iter().enumerate() {
        if !has_page_set(row, index, target) {
            return Some(index);
        }
    }
    None
}

/// The first target without a protection.
fn foreign_protects(board: &Board, row: &Row) -> Option<usize>
    ensures { FindsFirst (λ i. i < length board.now.targets
        → IsSetOf (λ v. IsTrue (is_protection v)) (set_at (row_view row.now).protects i))
        result }
{
    for index in 0..board.targets().len() {
        if !has_protect_set(row, index) {
            return Some(index);
        }
    }
    None
}

/// The first rail that the board hasn't, looked for one by one.
fn rail_from(board: &Board, good: GoodSet, first: u8) -> Option<usize>
    requires { first ≡ length board.now.rails }
    ensures { FindsFirst (λ d. IsTrue (rails_in good d) → d < length board.now.rails) result }
{
    for rail in first..64 {
        if good.contains(rail) {
            return Some(usize::from(rail));
        }
    }
    None
}

/// The first rail that the board hasn't.
fn foreign_rail(board: &Board, good: GoodSet) -> Option<usize>
    ensures { FindsFirst (λ d. IsTrue (rails_in good d) → d < length board.now.rails) result }
{
    rail_from(board, good, board.rails().len() as u8)
}

/// The first span that ends before it begins.
fn empty_span(spans: &[Span]) -> Option<usize>
    ensures first { FindsFirst (λ n. n < length spans.now → IsSpan (span_at spans.now n)) result }
    ensures words { result ≡ None
        → (n : ℕ) → n < length spans.now → AnySpan.hi (span_at spans.now n) < 65536 }
{
    for place in 0..spans.len() {
        if spans[place].lo > spans[place].hi {
            return Some(place);
        }
    }
    None
}

/// The first source that isn't of the board.
fn foreign_source(board: &Board, sources: &[Source]) -> Option<usize>
    ensures { FindsFirst (λ n. IsSource board.now (source_at sources.now n)) result }
{
    for place in 0..sources.len() {
        if !sources[place].is_of(board) {
            return Some(place);
        }
    }
    None
}

/// The first counter that may be over what it may be.
fn many_turns(spans: &[Span]) -> Option<usize>
    ensures { FindsFirst (λ n. AnySpan.hi (span_at spans.now n) ≤ MOST_TURNS) result }
{
    for place in 0..spans.len() {
        if spans[place].hi > MOST_TURNS {
            return Some(place);
        }
    }
    None
}

/// Whether no number of ticks is over what it may be.
fn has_few_ticks(row: &Row) -> bool
    ensures { IsTrue result ↔ ((row.now.base ≤ most_ticks)
        × ((c : ℕ) → c < length row.now.coeffs → slice_index row.now.coeffs c ≤ most_ticks)
        × (row.now.lost_coeff ≤ most_ticks)) }
{
    row.base <= MOST_TICKS && are_coeffs(&row.coeffs) && row.lost_coeff <= MOST_TICKS
}

/// The first part of a row that isn't of the board.
fn first_misfit(board: &Board, row: &Row) -> Option<Misfit>
    ensures first { FindsMisfit board.now (row_view row.now) result }
    ensures words { result ≡ None
        → (n : ℕ) → n < length row.now.regs → AnySpan.hi (span_at row.now.regs n) < 65536 }
{
    if !has_each_set(board, row) {
        return Some(Misfit::Sets);
    }
    if let Some(target) = foreign_pages(board, row) {
        return Some(Misfit::Pages(target));
    }
    if let Some(target) = foreign_protects(board, row) {
        return Some(Misfit::Protects(target));
    }
    if let Some(rail) = foreign_rail(board, row.good) {
        return Some(Misfit::Good(rail));
    }
    if let Some(register) = empty_span(&row.regs) {
        return Some(Misfit::Register(register));
    }
    if let Some(register) = foreign_source(board, &row.sources) {
        return Some(Misfit::Source(register));
    }
    if let Some(counter) = empty_span(&row.counters) {
        return Some(Misfit::Counter(counter));
    }
    if row.lost.lo > row.lost.hi {
        return Some(Misfit::Lost);
    }
    if row.lost.hi > board.contentions() {
        return Some(Misfit::Contentions);
    }
    if let Some(counter) = many_turns(&row.counters) {
        return Some(Misfit::Turns(counter));
    }
    if has_few_ticks(row) {
        None
    } else {
        Some(Misfit::Ticks)
    }
}

impl Row {
    /// Its first part that isn't the board's: its sets, what each target may store in PAGE, then in
    /// WRITE_PROTECT, good rails, registers, what they equal, counters, lost arbitrations, whether
    /// these are more than the board's, counters over 1000, and ticks over 2^40.
    pub fn misfit(&self, board: &Board) -> Option<Misfit>
        ensures first { FindsMisfit board.now (row_view self.now) result }
        ensures row { (result ≡ None) ↔ IsRow board.now (row_view self.now) }
    {
        self.is_sized();
        first_misfit(board, self)
    }
}
