//! Where a place leads.

ghost use Rattle.std.specs.Prelude.{IfOk, map};
ghost use Rattle.facts.specs.transfer.Ways.{timed_view};
ghost use Rattle.table_check.specs.checker.Looking.{HasRowsOf};
ghost use Rattle.table_check.specs.Tables.{rows_view};
ghost use Rattle.fact_search.specs.Searching.{AreEdgesAt};

use board::Board;
use facts::{Row, duty, edges};
use seq_program::Program;
use std::alloc::{AllocError, Global};
use table_check::row_at;

/// The edges of a place that has a row at which its duties are met; none of any other.
pub(crate) fn edges_at(
    alloc: Global,
    board: &Board,
    program: &Program,
    rows: &[Option<Row>],
    place: usize,
) -> Result<Vec<(usize, Row, u64)>, AllocError>
    requires rows { HasRowsOf board.now (rows_view rows.now) }
    ensures { IfOk result (λ es. AreEdgesAt board.now program.now (rows_view rows.now) place
        (map timed_view es.items)) }
{
    let Some(row) = row_at(rows, place) else {
        return Ok(Vec::new(alloc));
    };
    let Some(instr) = program.at(place) else {
        return Ok(Vec::new(alloc));
    };
    match duty(board, instr, row) {
        Some(_rule) => Ok(Vec::new(alloc)),
        None => edges(alloc, board, program, place, row),
    }
}
