//! What a search knows.

ghost use Rattle.std.specs.Prelude.{◌≡◌, ◌+◌, ◌<◌, ◌≤◌, ℕ, IfOk, MatchOption, false, length, Some};
ghost use Rattle.std.specs.Prelude.{[], map, replicate};
ghost use Rattle.facts.specs.transfer.Edges.{edge};
ghost use Rattle.facts.specs.FactLaws.{IsShaped};
ghost use Rattle.facts.specs.domain.Rows.{IsRow, row_view};
ghost use Rattle.facts.specs.transfer.Ways.{timed_view};
ghost use Rattle.table_check.specs.checker.Looking.{HasRowsOf};
ghost use Rattle.table_check.specs.Tables.{rows_view};
ghost use Rattle.fact_search.specs.Forward.{IsForward};
ghost use Rattle.fact_search.specs.Leading.{IsLed, leads_of, leads_view};
ghost use Rattle.fact_search.specs.Searching.{IsGrown, IsLearnt, IsSearched, is_changed};

use crate::joining::{joined, widened, without_ticks};
use crate::laws::premises;
use crate::leading::edges_at;
use crate::starting::start_row;
use crate::widening::Stops;
use board::Board;
use facts::{Part, Row};
use seq_program::Program;
use std::alloc::{AllocError, Global};
use table_check::row_at;

/// The row of each place so far, and whether it changed since the place was visited.
#[derive(Drop)]
pub(crate) struct Known {
    pub rows: Vec<Option<Row>>,
    pub changed: Vec<bool>,
    /// Where each place led when it was visited last, and the most ticks on the way.
    pub leads: Vec<Vec<(usize, u64)>>,
}

/// Where edges lead, and the most ticks on the way.
fn leads_of(alloc: Global, edges: &[(usize, Row, u64)]) -> Result<Vec<(usize, u64)>, AllocError>
    ensures { IfOk result (λ leads. leads.items ≡ leads_of (map timed_view edges.now)) }
{
    let mut leads = Vec::with_capacity(alloc, edges.len())?;
    for edge in edges {
        let (to, _row, ticks) = edge;
        leads.push((*to, *ticks))?;
    }
    Ok(leads)
}

/// No place leads anywhere.
fn no_leads(alloc: Global, places: usize) -> Result<Vec<Vec<(usize, u64)>>, AllocError>
    ensures { IfOk result (λ leads. leads_view leads.items ≡ replicate places []) }
{
    let mut leads = Vec::with_capacity(alloc, places)?;
    for _place in 0..places {
        leads.push(Vec::new(alloc))?;
    }
    Ok(leads)
}

/// What is known before any place is visited.
pub(crate) fn first_known(
    alloc: Global,
    board: &Board,
    program: &Program,
) -> Result<Known, AllocError>
    ensures searched { IfOk result (λ known. IsSearched board.now program.now
        (rows_view known.rows.items) known.changed.items) }
    ensures led { IfOk result (λ known. IsLed board.now program.now
        (rows_view known.rows.items) known.changed.items (leads_view known.leads.items)) }
{
    premises(board, program);
    let places = program.places();
    let mut rows = Vec::with_capacity(alloc, places)?;
    let mut changed = Vec::with_capacity(alloc, places)?;
    rows.push(Some(start_row(alloc, board)?))?;
    changed.push(true)?;
    for _place in 1..places {
        rows.push(None)?;
        changed.push(false)?;
    }
    let leads = no_leads(alloc, places)?;
    Ok(Known {
        rows,
        changed,
        leads,
    })
}

/// The first place from one on whose row changed since it was visited.
pub(crate) fn next_changed(changed: &[bool], from: usize) -> Option<usize>
    ensures { MatchOption result
        ((n : ℕ) → from ≤ n → is_changed changed.now n ≡ false)
        (λ place. (from ≤ place) × (place < length changed.now)
        × ((n : ℕ) → from ≤ n → n < place → is_changed changed.now n ≡ false)) }
{
    for place in from..changed.len() {
        if changed[place] {
            return Some(place);
        }
    }
    None
}

/// A row with what another one brings, widened where a jump leads back.
fn grown(
    alloc: Global,
    board: &Board,
    stops: &Stops,
    old: &Row,
    row: &Row,
    back: bool,
) -> Result<Row, AllocError>
    requires old { IsRow board.now (row_view old.now) }
    requires row { IsShaped board.now (row_view row.now) }
    ensures { IfOk result (λ r. IsGrown board.now (row_view r) (row_view old.now)
        (row_view row.now) back) }
{
    let joined = joined(alloc, board, old, row)?;
    if back {
        Ok(widened(board, stops, old, joined))
    } else {
        Ok(joined)
    }
}

/// Joins the row of an edge of a place into the row where it leads; whether that row changed.
fn learn(
    alloc: Global,
    board: &Board,
    stops: &Stops,
    rows: &mut Vec<Option<Row>>,
    place: usize,
    to: usize,
    row: Row,
) -> Result<bool, AllocError>
    requires rows { HasRowsOf board.now (rows_view rows.old.items) }
    requires inside { to < length rows.old.items }
    requires shaped { IsShaped board.now (row_view row) }
    ensures { IfOk result (λ changed. IsLearnt board.now place (rows_view rows.old.items)
        (rows_view rows.new.items) (edge to (row_view row)) changed) }
{
    let row = match row_at(rows, to) {
        None => without_ticks(board, row),
        Some(old) => {
            if old.covers(&row) {
                return Ok(false);
            }
            grown(alloc, board, stops, old, &row, to <= place)?
        }
    };
    rows[to] = Some(row);
    Ok(true)
}

/// Visits a place: what its edges bring is joined into the rows where they lead. The place to go on
/// with is the least whose row changed, or the next.
pub(crate) fn visit(
    alloc: Global,
    board: &Board,
    program: &Program,
    stops: &Stops,
    known: &mut Known,
    place: usize,
) -> Result<usize, AllocError>
    requires inside { place < length program.now }
    requires before { (n : ℕ) → n < place → is_changed known.old.changed.items n ≡ false }
    requires searched { IsSearched board.now program.now (rows_view known.old.rows.items)
        known.old.changed.items }
    requires led { IsLed board.now program.now (rows_view known.old.rows.items)
        known.old.changed.items (leads_view known.old.leads.items) }
    ensures searched { IfOk result (λ next. IsSearched board.now program.now
        (rows_view known.new.rows.items) known.new.changed.items) }
    ensures led { IfOk result (λ next. IsLed board.now program.now
        (rows_view known.new.rows.items) known.new.changed.items
        (leads_view known.new.leads.items)) }
    ensures before { IfOk result (λ next. (n : ℕ) → n < next
        → is_changed known.new.changed.items n ≡ false) }
    ensures near { IfOk result (λ next. next ≤ place + 1) }
    ensures onward { IsForward program.now → IfOk result (λ next. place < next) }
{
    premises(board, program);
    known.changed[place] = false;
    let edges = edges_at(alloc, board, program, &known.rows, place)?;
    known.leads[place] = leads_of(alloc, &edges)?;
    let mut next = place + 1;
    for (to, row, _ticks) in edges {
        if learn(alloc, board, stops, &mut known.rows, place, to, row)? {
            known.changed[to] = true;
            next = next.min(to);
        }
    }
    Ok(next)
}
