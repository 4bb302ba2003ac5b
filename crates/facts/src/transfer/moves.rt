//! Rows with one part changed.

ghost use Rattle.std.specs.Prelude.{◌≡◌, ◌<◌, ◌≤◌, ◌+◌, IfOk, slice_index};
ghost use Rattle.facts.specs.domain.Rows.{row_view, most_ticks, span_at};
ghost use Rattle.facts.specs.transfer.Edges.{with_reg, reg_in, counter_in, plus, above, up_to};
ghost use Rattle.facts.specs.transfer.Edges.{one_off};
ghost use Rattle.facts.specs.transfer.Edges.{with_counter, taken_off, lost_row};

use crate::domain::row::Row;
use crate::domain::source::Source;
use crate::domain::span::Span;
use crate::duties::allowing::one;
use board::Board;
use std::alloc::AllocError;

/// The same row once more.
pub(crate) fn copied(row: &Row) -> Result<Row, AllocError>
    ensures view { IfOk result (λ copy. row_view copy ≡ row_view row.now) }
    ensures pages { IfOk result (λ copy. copy.pages.items ≡ row.now.pages.items) }
    ensures protects { IfOk result (λ copy. copy.protects.items ≡ row.now.protects.items) }
{
    Ok(Row {
        pages: Vec::from_slice(*row.pages.allocator(), &row.pages)?,
        protects: Vec::from_slice(*row.protects.allocator(), &row.protects)?,
        good: row.good,
        regs: row.regs,
        sources: row.sources,
        counters: row.counters,
        lost: row.lost,
        base: row.base,
        coeffs: row.coeffs,
        lost_coeff: row.lost_coeff,
    })
}

/// The values of a register.
pub(crate) fn reg_at(row: &Row, register: usize) -> Span
    requires { register < 8 }
    ensures { result ≡ span_at row.now.regs register }
{
    row.regs[register]
}

/// A register is known anew.
pub(crate) fn with_reg(mut row: Row, register: usize, span: Span, source: Source) -> Row
    requires { register < 8 }
    ensures { row_view result ≡ with_reg (row_view row) register span source }
{
    row.regs[register] = span;
    row.sources[register] = source;
    row
}

/// A register lies in a span, and its source stays.
pub(crate) fn reg_in(mut row: Row, register: usize, span: Span) -> Row
    requires { register < 8 }
    ensures { row_view result ≡ reg_in (row_view row) register span }
{
    row.regs[register] = span;
    row
}

/// A counter lies in a span.
pub(crate) fn counter_in(mut row: Row, counter: usize, span: Span) -> Row
    requires { counter < 4 }
    ensures { row_view result ≡ counter_in (row_view row) counter span }
{
    row.counters[counter] = span;
    row
}

/// Both ends and a number, at most 65535.
pub(crate) fn plus(span: Span, value: u16) -> Span
    ensures { result ≡ plus span value }
{
    Span {
        lo: span.lo.saturating_add(value),
        hi: span.hi.saturating_add(value),
    }
}

/// What is above a number.
pub(crate) fn above(span: Span, value: u16) -> Span
    requires { value < 65535 }
    ensures { result ≡ above span value }
{
    Span {
        lo: span.lo.max(value + 1),
        hi: span.hi,
    }
}

/// What isn't above a number.
pub(crate) fn up_to(span: Span, value: u16) -> Span
    ensures { result ≡ up_to span value }
{
    Span {
        lo: span.lo,
        hi: span.hi.min(value),
    }
}

/// One less, where it is over 0.
pub(crate) fn one_off(span: Span) -> Span
    ensures { result ≡ one_off span }
{
    Span {
        lo: span.lo.max(1) - 1,
        hi: span.hi.saturating_sub(1),
    }
}

/// A counter is set, which pays what its least value was worth.
pub(crate) fn with_counter(mut row: Row, counter: usize, value: u16) -> Row
    requires here { counter < 4 }
    requires base { row.base ≤ most_ticks }
    requires coeff { slice_index row.coeffs counter ≤ most_ticks }
    ensures { row_view result ≡ with_counter (row_view row) counter value }
{
    row.base += row.coeffs[counter] * u64::from(row.counters[counter].lo);
    row.counters[counter] = one(value);
    row.coeffs[counter] = 0;
    row
}

/// A counter falls, which pays its coefficient.
pub(crate) fn taken_off(mut row: Row, counter: usize) -> Row
    requires here { counter < 4 }
    requires base { row.base ≤ most_ticks }
    requires coeff { slice_index row.coeffs counter ≤ most_ticks }
    ensures { row_view result ≡ taken_off (row_view row) counter }
{
    row.base += row.coeffs[counter];
    row.counters[counter] = one_off(row.counters[counter]);
    row
}

/// An arbitration is lost, which pays its coefficient.
pub(crate) fn lost_row(board: &Board, mut row: Row) -> Row
    requires base { row.base ≤ most_ticks }
    requires coeff { row.lost_coeff ≤ most_ticks }
    requires few { row.lost.lo < board.now.contentions }
    ensures { row_view result ≡ lost_row board.now (row_view row) }
{
    let most = board.contentions();
    row.base += row.lost_coeff;
    row.lost = Span {
        lo: row.lost.lo + 1,
        hi: row.lost.hi.saturating_add(1).min(most),
    };
    row
}
