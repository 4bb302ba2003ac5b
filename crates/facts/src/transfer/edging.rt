//! The edges of an instruction.

ghost use Rattle.std.specs.Prelude.{◌≡◌, ◌<◌, ◌++◌, [], map, IfOk, IfSome, None, slice_get};
ghost use Rattle.board.specs.Valid.{IsBoard};
ghost use Rattle.seq_program.specs.Requests.{else_in};
ghost use Rattle.facts.specs.domain.Rows.{row_view, IsRow};
ghost use Rattle.facts.specs.duties.Duties.{Meets};
ghost use Rattle.facts.specs.transfer.Edges.{edges, lost_edges};
ghost use Rattle.facts.specs.transfer.TimedEdges.{timed, timed_edges};
ghost use Rattle.facts.specs.transfer.Ways.{way_list, ways_list, timed_view};
ghost use Rattle.facts.specs.declared.duties.rule.Rule.TheVariants.{K1};
ghost use Rattle.seq_program.specs.declared.program.TheConstants.{MOST_PLACES};

use crate::domain::row::Row;
use crate::transfer::going_on::other_ways;
use crate::transfer::moves::{copied, lost_row};
use crate::transfer::sending::sent_ways;
use crate::transfer::ticks::{foreign_ticks, own_ticks};
use crate::transfer::ways::{Way, Ways};
use board::{Board, board_is_valid};
use seq_program::{Instr, Program, program_is_valid};
use std::alloc::{AllocError, Global};

/// The ways of an instruction that meets its first duty.
fn ways(board: &Board, place: usize, instr: &Instr, row: &Row) -> Result<Ways, AllocError>
    requires board { IsBoard board.now }
    requires place { place < MOST_PLACES }
    requires row { IsRow board.now (row_view row.now) }
    requires met { Meets board.now (row_view row.now) instr.now K1 }
    ensures { IfOk result (λ w. ways_list w ≡ edges board.now place instr.now (row_view row.now)) }
{
    match instr.request() {
        Some(request) => sent_ways(board, row, &request, place),
        None => other_ways(place, instr, row),
    }
}

/// The edges, and one more where there is a way.
fn with_way(
    mut edges: Vec<(usize, Row, u64)>,
    way: Option<Way>,
    ticks: u64,
) -> Result<Vec<(usize, Row, u64)>, AllocError>
    ensures { IfOk result (λ es. map timed_view es.items
        ≡ map timed_view edges.items ++ timed ticks (way_list way)) }
{
    if let Some(way) = way {
        edges.push((way.to, way.row, ticks))?;
    }
    Ok(edges)
}

/// The ways in order, each with the same ticks.
fn listed(alloc: Global, ways: Ways, ticks: u64) -> Result<Vec<(usize, Row, u64)>, AllocError>
    ensures { IfOk result (λ es. map timed_view es.items ≡ timed ticks (ways_list ways)) }
{
    let first = with_way(Vec::with_capacity(alloc, 3)?, ways.first, ticks)?;
    with_way(first, ways.second, ticks)
}

/// Where an instruction leads whose arbitration is lost, if one more may be lost.
fn lost_way(board: &Board, instr: &Instr, row: &Row) -> Result<Option<Way>, AllocError>
    requires { IsRow board.now (row_view row.now) }
    ensures { IfOk result
        (λ w. way_list w ≡ lost_edges board.now (else_in instr.now) (row_view row.now)) }
{
    let Some(to) = instr.otherwise() else {
        return Ok(None);
    };
    if row.lost.lo >= board.contentions() {
        return Ok(None);
    }
    let row = lost_row(board, copied(row)?);
    Ok(Some(Way { to, row }))
}

/// The edges of an instruction that meets its first duty.
fn instr_edges(
    alloc: Global,
    board: &Board,
    place: usize,
    instr: &Instr,
    row: &Row,
) -> Result<Vec<(usize, Row, u64)>, AllocError>
    requires board { IsBoard board.now }
    requires place { place < MOST_PLACES }
    requires row { IsRow board.now (row_view row.now) }
    requires met { Meets board.now (row_view row.now) instr.now K1 }
    ensures { IfOk result (λ es. map timed_view es.items
        ≡ timed_edges board.now place instr.now (row_view row.now)) }
{
    let ways = ways(board, place, instr, row)?;
    let own = listed(alloc, ways, own_ticks(board, instr))?;
    with_way(own, lost_way(board, instr, row)?, foreign_ticks(board))
}

/// Where a place's instruction may lead, the row there, and the most ticks on that way: first its
/// own ways, and last that on which another controller wins over its message, if one may. The
/// instruction meets its first duty at the row. A place that the program hasn't leads nowhere.
/// Fails only for want of memory.
pub fn edges(
    alloc: Global,
    board: &Board,
    program: &Program,
    place: usize,
    row: &Row,
) -> Result<Vec<(usize, Row, u64)>, AllocError>
    requires row { IsRow board.now (row_view row.now) }
    requires met { IfSome (slice_get program.now place)
        (λ i. Meets board.now (row_view row.now) i K1) }
    ensures leads { IfOk result (λ es. IfSome (slice_get program.now place)
        (λ i. map timed_view es.items
        ≡ timed_edges board.now place i (row_view row.now))) }
    ensures nowhere { slice_get program.now place ≡ None → IfOk result (λ es. es.items ≡ []) }
{
    board_is_valid(board);
    // By its type a program has at most 1024 places.
    program_is_valid(program);
    match program.at(place) {
        Some(instr) => instr_edges(alloc, board, place, instr, row),
        None => Ok(Vec::new(alloc)),
    }
}
