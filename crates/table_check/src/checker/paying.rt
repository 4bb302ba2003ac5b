//! Whether the ticks that are left pay for what follows, and where they don't.

ghost use Rattle.std.specs.Prelude.{◌≡◌, ◌+◌, ◌*◌, ◌^◌, ◌≤◌, All};
ghost use Rattle.facts.specs.domain.Rows.{row_view, weight};
ghost use Rattle.facts.specs.FactLaws.{without_ticks};
ghost use Rattle.table_check.specs.checker.Lacking.{dearest, dearest_counters, dearest_lost};
ghost use Rattle.table_check.specs.checker.Looking.{FindsLack, with_ticks};

use crate::checker::breach::Spot;
use board::Board;
use facts::{Row, Span};

/// What a row says of the ticks that are left.
#[derive(Clone, Copy)]
struct Ticks {
    base: u64,
    coeffs: [u64; 4],
    lost_coeff: u64,
}

fn ticks_of(row: &Row) -> Ticks
    ensures { result ≡ record {
      base = row.now.base;
      coeffs = row.now.coeffs;
      lost_coeff = row.now.lost_coeff;
    } }
{
    Ticks {
        base: row.base,
        coeffs: row.coeffs,
        lost_coeff: row.lost_coeff,
    }
}

/// Where ticks are lacking, how many are needed there, and how many are left.
#[derive(Clone, Copy)]
pub(crate) struct Lack {
    pub at: Spot,
    pub needed: u128,
    pub left: u128,
}

/// A coefficient, so many times.
fn times(coeff: u64, number: u16) -> u128
    ensures exact { result ≡ coeff * number }
    ensures small { result ≤ 2 ^ 80 }
{
    u128::from(coeff) * u128::from(number)
}

/// The ticks at some counters, where so many arbitrations may still be lost.
fn ticks_at(ticks: Ticks, counters: [u16; 4], left: u16) -> u128
    ensures exact { result ≡ ticks.base + weight ticks.coeffs counters + ticks.lost_coeff * left }
    ensures small { result ≤ 2 ^ 84 }
{
    u128::from(ticks.base)
        + times(ticks.coeffs[0], counters[0])
        + times(ticks.coeffs[1], counters[1])
        + times(ticks.coeffs[2], counters[2])
        + times(ticks.coeffs[3], counters[3])
        + times(ticks.lost_coeff, left)
}

/// The counter at which a row has least beside the next one, by its coefficient in both.
fn dearest(before: u64, after: u64, span: Span) -> u16
    ensures { result ≡ dearest before after span }
{
    if before < after { span.hi } else { span.lo }
}

/// All four of them.
fn dearest_counters(spans: [Span; 4], before: [u64; 4], after: [u64; 4]) -> [u16; 4]
    ensures { result ≡ dearest_counters spans before after }
{
    [
        dearest(before[0], after[0], spans[0]),
        dearest(before[1], after[1], spans[1]),
        dearest(before[2], after[2], spans[2]),
        dearest(before[3], after[3], spans[3]),
    ]
}

/// How many arbitrations were lost where a row has least beside the next one.
fn dearest_lost(before: u64, after: u64, lost: Span) -> u16
    ensures { result ≡ dearest_lost before after lost }
{
    if before < after { lost.lo } else { lost.hi }
}

/// Where a row lacks most ticks beside the next one.
fn dearest_spot(row: &Row, next: Ticks) -> Spot
    ensures { result ≡ record {
      counters = dearest_counters row.now.counters row.now.coeffs next.coeffs;
      lost = dearest_lost row.now.lost_coeff next.lost_coeff row.now.lost;
    } }
{
    Spot {
        counters: dearest_counters(row.counters, row.coeffs, next.coeffs),
        lost: dearest_lost(row.lost_coeff, next.lost_coeff, row.lost),
    }
}

/// Where the ticks that are left at a row don't pay for `worst` and for those of the next row.
fn lack_beside(board: &Board, worst: u64, next: Ticks, row: &Row) -> Option<Lack>
    requires spans { All (λ s. s.lo ≤ s.hi) row.now.counters }
    requires order { row.now.lost.lo ≤ row.now.lost.hi }
    requires lost { row.now.lost.hi ≤ board.now.contentions }
    ensures { FindsLack board.now worst (with_ticks (row_view row.now) next) (row_view row.now)
        result }
{
    row.is_sized();
    let at = dearest_spot(row, next);
    let most = board.contentions() - at.lost;
    let needed = u128::from(worst) + ticks_at(next, at.counters, most);
    let left = ticks_at(ticks_of(row), at.counters, most);
    if needed <= left {
        None
    } else {
        Some(Lack { at, needed, left })
    }
}

/// Where the ticks that are left at an edge don't pay for `worst` and for those of the next row.
pub(crate) fn lack_of(board: &Board, worst: u64, next: &Row, edge: &Row) -> Option<Lack>
    requires spans { All (λ s. s.lo ≤ s.hi) edge.now.counters }
    requires order { edge.now.lost.lo ≤ edge.now.lost.hi }
    requires lost { edge.now.lost.hi ≤ board.now.contentions }
    ensures { FindsLack board.now worst (row_view next.now) (row_view edge.now) result }
{
    lack_beside(board, worst, ticks_of(next), edge)
}

/// Where no tick is left at a row.
pub(crate) fn lack_at_end(board: &Board, row: &Row) -> Option<Lack>
    requires spans { All (λ s. s.lo ≤ s.hi) row.now.counters }
    requires order { row.now.lost.lo ≤ row.now.lost.hi }
    requires lost { row.now.lost.hi ≤ board.now.contentions }
    ensures { FindsLack board.now 1 (without_ticks (row_view row.now)) (row_view row.now) result }
{
    let none = Ticks {
        base: 0,
        coeffs: [0; 4],
        lost_coeff: 0,
    };
    lack_beside(board, 1, none, row)
}
