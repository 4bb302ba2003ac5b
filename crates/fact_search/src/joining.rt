//! Joining rows: the least upper bound of two, and a wider one at the target of a jump back.

ghost use Rattle.std.specs.Prelude.{◌≡◌, ◌<◌, ◌≤◌, IfOk, All, length};
ghost use Rattle.facts.specs.FactLaws.{IsShaped, without_ticks};
ghost use Rattle.facts.specs.domain.Rows.{IsRow, RowCovers, SpanCovers, SpansCover, row_view};
ghost use Rattle.fact_search.specs.Searching.{IsJoined};

use crate::widening::Stops;
use board::{Board, board_is_valid};
use facts::{Part, Row, Span};
use seq_program::MOST_TURNS;
use std::alloc::{AllocError, Global};

/// A row without ticks.
pub(crate) fn without_ticks(board: &Board, mut row: Row) -> Row
    requires { IsShaped board.now (row_view row) }
    ensures row { IsRow board.now (row_view result) }
    ensures same { row_view result ≡ without_ticks (row_view row) }
{
    board_is_valid(board);
    row.base = 0;
    row.coeffs = [0; 4];
    row.lost_coeff = 0;
    row
}

/// The least row that covers two rows, without ticks.
pub(crate) fn joined(
    alloc: Global,
    board: &Board,
    row: &Row,
    other: &Row,
) -> Result<Row, AllocError>
    requires row { IsRow board.now (row_view row.now) }
    requires other { IsShaped board.now (row_view other.now) }
    ensures { IfOk result
        (λ r. IsJoined board.now (row_view r) (row_view row.now) (row_view other.now)) }
{
    board_is_valid(board);
    let mut joined = row.join(alloc, other)?;
    joined.base = 0;
    joined.coeffs = [0; 4];
    joined.lost_coeff = 0;
    Ok(joined)
}

/// Spans that grew go on to the next stops.
fn widen(stops: &Stops, old: &[Span], spans: &mut [Span], most: u16)
    requires lengths { length old.now ≡ length spans.old }
    requires most { All (λ s. s.hi ≤ most) spans.old }
    ensures covers { SpansCover spans.new spans.old }
    ensures most { All (λ s. s.hi ≤ most) spans.new }
{
    for i in 0..spans.len() {
        spans[i] = stops.widen(old[i], spans[i], most);
    }
}

/// How many arbitrations were lost goes on to all that the board lets be lost, where it grew.
fn widen_lost(board: &Board, old: Span, span: Span) -> Span
    requires { span.hi ≤ board.now.contentions }
    ensures covers { SpanCovers result span }
    ensures most { result.hi ≤ board.now.contentions }
{
    if old.hi < span.hi {
        Span {
            lo: span.lo,
            hi: board.contentions(),
        }
    } else {
        span
    }
}

/// A row whose spans grew from those of an old one, at the target of a jump back.
pub(crate) fn widened(board: &Board, stops: &Stops, old: &Row, mut row: Row) -> Row
    requires row { IsRow board.now (row_view row) }
    ensures row { IsRow board.now (row_view result) }
    ensures covers { RowCovers board.now (row_view result) (row_view row) }
{
    board_is_valid(board);
    let mut regs = row.regs;
    widen(stops, &old.regs, &mut regs, u16::MAX);
    let mut counters = row.counters;
    widen(stops, &old.counters, &mut counters, MOST_TURNS);
    row.lost = widen_lost(board, old.lost, row.lost);
    row.regs = regs;
    row.counters = counters;
    row
}
