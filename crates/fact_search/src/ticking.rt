//! Ticks for programs that only lead on, and rows with ticks.

ghost use Rattle.std.specs.Prelude.{◌≡◌, ◌≤◌, ◌<◌, ◌+◌, ℕ, All, IfOk, IfSome, length, map};
ghost use Rattle.std.specs.Prelude.{min, option_map};
ghost use Rattle.std.specs.Prelude.{slice_get, slice_index};
ghost use Rattle.facts.specs.domain.Rows.{most_ticks, row_view};
ghost use Rattle.table_check.specs.Tables.{rows_view};
ghost use Rattle.fact_search.specs.Forward.{IsForward};
ghost use Rattle.fact_search.specs.Leading.{IsLedTable, leads_view};
ghost use Rattle.fact_search.specs.Ticking.{ArePaid, DoFit, most_worst, plain, ticked};
ghost use Rattle.fact_search.specs.Ticking.{ticked_row, with_left};

use crate::known::Known;
use crate::laws::premises;
use crate::loops::Ticks;
use crate::lost::{dearest_loss, lesser, most_cost, paid};
use board::{Board, board_is_valid};
use facts::Row;
use seq_program::Program;
use std::alloc::{AllocError, Global};

/// The ticks that pay for each of some leads, none of which costs more than so many, and at least
/// one.
fn longest(leads: &[(usize, u64)], ticks: &[u64], cost: u64) -> u64
    requires inside { All (λ l. l.0 < length ticks.now) leads.now }
    requires worst { All (λ l. l.1 ≤ most_worst) leads.now }
    requires most { All (λ n. n ≤ most_ticks) ticks.now }
    ensures some { 1 ≤ result }
    ensures pays { All (λ l. min l.1 cost + slice_index ticks.now l.0 ≤ result) leads.now }
    ensures most { (bound : ℕ) → 1 ≤ bound → All (λ n. n ≤ bound) ticks.now
        → result ≤ bound + most_worst }
{
    let mut most = 1;
    for lead in leads {
        let (to, worst) = *lead;
        most = most.max(worst.min(cost) + ticks[to]);
    }
    most
}

/// The ticks at each place of a program that only leads on, from its last place down, where a lost
/// arbitration pays so many.
fn forward_ticks(
    alloc: Global,
    board: &Board,
    program: &Program,
    known: &Known,
    lost: u64,
) -> Result<Vec<u64>, AllocError>
    requires led { IsLedTable board.now program.now (rows_view known.now.rows.items)
        (leads_view known.now.leads.items) }
    requires forward { IsForward program.now }
    ensures { IfOk result (λ ticks. DoFit board.now program.now (rows_view known.now.rows.items)
        lost ticks.items) }
{
    premises(board, program);
    let places = program.places();
    let mut ticks = vec![in alloc; 1u64; places]?;
    for done in 0..places {
        let place = places - 1 - done;
        let cost = most_cost(board, program, place, lost);
        ticks[place] = longest(&known.leads[place], &ticks, cost);
    }
    Ok(ticks)
}

/// Ticks without coefficients.
fn without_coeffs(alloc: Global, ticks: &[u64]) -> Result<Vec<Ticks>, AllocError>
    ensures { IfOk result (λ lefts. lefts.items ≡ map plain ticks.now) }
{
    let mut lefts = Vec::with_capacity(alloc, ticks.len())?;
    for base in ticks {
        lefts.push(Ticks {
            base: *base,
            coeffs: [0; 4],
            lost: 0,
        })?;
    }
    Ok(lefts)
}

/// The ticks of a program that only leads on, where a lost arbitration pays so many.
fn counted_ticks(
    alloc: Global,
    board: &Board,
    program: &Program,
    known: &Known,
    lost: u64,
) -> Result<Vec<Ticks>, AllocError>
    requires led { IsLedTable board.now program.now (rows_view known.now.rows.items)
        (leads_view known.now.leads.items) }
    requires forward { IsForward program.now }
    requires lost { lost ≤ most_worst }
    ensures { IfOk result (λ lefts. ArePaid board.now program.now
        (rows_view known.now.rows.items) lefts.items) }
{
    let ticks = forward_ticks(alloc, board, program, known, lost)?;
    let lefts = without_coeffs(alloc, &ticks)?;
    paid(alloc, &lefts, lost, board.contentions())
}

/// The ticks at the places of a program that only leads on. Lost arbitrations are paid for at each
/// message, or as often as they may come, whichever gives the lesser bound.
pub(crate) fn ticks_onward(
    alloc: Global,
    board: &Board,
    program: &Program,
    known: &Known,
) -> Result<Vec<Ticks>, AllocError>
    requires led { IsLedTable board.now program.now (rows_view known.now.rows.items)
        (leads_view known.now.leads.items) }
    requires forward { IsForward program.now }
    ensures { IfOk result (λ lefts. ArePaid board.now program.now
        (rows_view known.now.rows.items) lefts.items) }
{
    board_is_valid(board);
    let each = counted_ticks(alloc, board, program, known, 0)?;
    let lost = dearest_loss(board, program);
    if lost == 0 || board.contentions() == 0 {
        return Ok(each);
    }
    let counted = counted_ticks(alloc, board, program, known, lost)?;
    Ok(lesser(each, counted))
}

/// A row with ticks.
fn set_ticks(mut row: Row, left: &Ticks) -> Row
    ensures row { row_view result ≡ with_left left.now (row_view row) }
    ensures count { length result.coeffs ≡ 4 }
{
    let coeffs = left.coeffs;
    row.base = left.base;
    row.coeffs = coeffs;
    row.lost_coeff = left.lost;
    row
}

/// A row with the ticks of its place, if there are both.
fn with_left(row: Option<Row>, lefts: &[Ticks], place: usize) -> Option<Row>
    ensures row { option_map row_view result
        ≡ ticked_row (slice_get lefts.now place) (option_map row_view row) }
    ensures count { IfSome result (λ r. length r.coeffs ≡ 4) }
{
    match row {
        None => None,
        Some(row) => match lefts.get(place) {
            None => None,
            Some(left) => Some(set_ticks(row, left)),
        },
    }
}

/// The rows with their ticks.
pub(crate) fn with_ticks(
    alloc: Global,
    rows: Vec<Option<Row>>,
    lefts: &[Ticks],
) -> Result<Vec<Option<Row>>, AllocError>
    ensures rows { IfOk result
        (λ out. rows_view out.items ≡ ticked lefts.now (rows_view rows.items)) }
    ensures counts { IfOk result
        (λ out. All (λ row. IfSome row (λ r. length r.coeffs ≡ 4)) out.items) }
{
    let mut out = Vec::with_capacity(alloc, rows.len())?;
    for row in rows {
        let place = out.len();
        out.push(with_left(row, lefts, place))?;
    }
    Ok(out)
}
