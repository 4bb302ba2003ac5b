//! Whether the edges of a place keep the rules, and what is to blame where one doesn't.

ghost use Rattle.std.specs.Prelude.{◌≡◌, ◌∷◌, [], ℕ, List, IfOk, IfSome, map, option_map};
ghost use Rattle.std.specs.Prelude.{slice_get, Some};
ghost use Rattle.seq_program.specs.declared.instr.Instr.{Instr};
ghost use Rattle.facts.specs.declared.duties.rule.Rule.TheVariants.{K1};
ghost use Rattle.facts.specs.duties.Duties.{Meets};
ghost use Rattle.facts.specs.FactLaws.{IsShaped};
ghost use Rattle.facts.specs.domain.Rows.{row_view, IsRow};
ghost use Rattle.facts.specs.transfer.TimedEdges.{timed_edges};
ghost use Rattle.facts.specs.transfer.Ways.{timed_view};
ghost use Rattle.table_check.specs.Tables.{Table, rows_view};
ghost use Rattle.table_check.specs.checker.Breaches.{BreaksEdge, BreaksFirst, BreaksAt};
ghost use Rattle.table_check.specs.checker.Looking.{AreShapedEdges, HasRowsOf, of_code, fault_at};
ghost use Rattle.table_check.specs.checker.Looking.{FindsUnpaid, EndsUnpaid};
ghost use Rattle.table_check.specs.checker.Obligations.{FallsEnd, IsFirstFault, of_end};

use crate::checker::breach::Breach;
use crate::checker::paying::{lack_at_end, lack_of};
use crate::table::row_at;
use board::{Board, board_is_valid};
use facts::{Row, covered_rows_follow, edges};
use seq_program::{Instr, Program, program_is_valid};
use std::alloc::{AllocError, Global};

/// The edges of a place whose instruction meets its first duty; their rows are rows of the board
/// but for their ticks.
pub(crate) fn shaped_edges(
    alloc: Global,
    board: &Board,
    program: &Program,
    place: usize,
    instr: &Instr,
    row: &Row,
) -> Result<Vec<(usize, Row, u64)>, AllocError>
    requires here { slice_get program.now place ≡ Some instr.now }
    requires row { IsRow board.now (row_view row.now) }
    requires met { Meets board.now (row_view row.now) instr.now K1 }
    ensures edges { IfOk result (λ es. map timed_view es.items
        ≡ timed_edges board.now place instr.now (row_view row.now)) }
    ensures shaped { IfOk result (λ es. AreShapedEdges board.now es.items) }
{
    covered_rows_follow();
    board_is_valid(board);
    program_is_valid(program);
    edges(alloc, board, program, place, row)
}

/// K7: where the ticks don't fall along an edge to a row that covers it.
fn unpaid(board: &Board, index: usize, edge: &(usize, Row, u64), next: &Row) -> Option<Breach>
    requires shaped { IsShaped board.now (row_view edge.now.1) }
    ensures { FindsUnpaid board.now (row_view next.now) index (timed_view edge.now) result }
{
    let (to, row, worst) = edge;
    let lack = lack_of(board, *worst, next, row)?;
    Some(Breach::Unpaid {
        edge: index,
        to: *to,
        at: lack.at,
        needed: lack.needed,
        left: lack.left,
    })
}

/// What an edge breaks: K6 where the next place has no row that covers the edge's, K7 where the
/// ticks don't fall.
fn edge_breach(
    board: &Board,
    rows: &[Option<Row>],
    index: usize,
    edge: &(usize, Row, u64),
) -> Option<Breach>
    requires rows { HasRowsOf board.now (rows_view rows.now) }
    requires shaped { IsShaped board.now (row_view edge.now.1) }
    ensures first { (p : List Instr) (place : ℕ) → IsFirstFault board.now p (rows_view rows.now)
        (of_code place (edge.now ∷ [])) (option_map (fault_at place) result) }
    ensures blame { IfSome result
        (BreaksEdge board.now (rows_view rows.now) index (timed_view edge.now)) }
{
    let (to, row, _worst) = edge;
    let Some(next) = row_at(rows, *to) else {
        return Some(Breach::NoRow {
            edge: index,
            to: *to,
        });
    };
    if let Some(part) = next.uncovered(row) {
        return Some(Breach::Uncovered {
            edge: index,
            to: *to,
            part,
        });
    }
    unpaid(board, index, edge, next)
}

/// What the first edge breaks that breaks a rule.
pub(crate) fn edges_breach(
    board: &Board,
    rows: &[Option<Row>],
    edges: &[(usize, Row, u64)],
) -> Option<Breach>
    requires rows { HasRowsOf board.now (rows_view rows.now) }
    requires shaped { AreShapedEdges board.now edges.now }
    ensures first { (p : List Instr) (place : ℕ) → IsFirstFault board.now p (rows_view rows.now)
        (of_code place edges.now) (option_map (fault_at place) result) }
    ensures blame { IfSome result
        (BreaksFirst board.now (rows_view rows.now) (map timed_view edges.now)) }
{
    for (index, edge) in edges.iter().enumerate() {
        if let Some(breach) = edge_breach(board, rows, index, edge) {
            return Some(breach);
        }
    }
    None
}

/// K7 at an end: whether a tick is left there.
fn last_breach(board: &Board, row: &Row) -> Option<Breach>
    requires { IsRow board.now (row_view row.now) }
    ensures first { (p : List Instr) (t : Table) (place : ℕ)
        → IsFirstFault board.now p t (FallsEnd place (row_view row.now) ∷ [])
        (option_map (fault_at place) result) }
    ensures blame { IfSome result (EndsUnpaid board.now (row_view row.now)) }
{
    let lack = lack_at_end(board, row)?;
    Some(Breach::UnpaidEnd { at: lack.at })
}

/// What an instruction breaks which ends the program.
pub(crate) fn end_breach(board: &Board, instr: &Instr, row: &Row) -> Option<Breach>
    requires { IsRow board.now (row_view row.now) }
    ensures first { (p : List Instr) (t : Table) (place : ℕ)
        → IsFirstFault board.now p t (of_end place (row_view row.now) instr.now)
        (option_map (fault_at place) result) }
    ensures blame { (t : Table) (place : ℕ) → IfSome result
        (BreaksAt board.now t place instr.now (row_view row.now)) }
{
    match instr {
        Instr::End => last_breach(board, row),
        Instr::Fail => last_breach(board, row),
        _ => None,
    }
}
