//! The arrows of a program: from each place to those to which its edges lead.

ghost use Rattle.std.specs.Prelude.{◌≡◌, ◌++◌, IfOk, OnOk, IsTrue, map};
ghost use Rattle.facts.specs.declared.duties.rule.Rule.TheVariants.{K1};
ghost use Rattle.facts.specs.domain.Rows.{row_view, IsRow};
ghost use Rattle.facts.specs.duties.Duties.{Meets};
ghost use Rattle.table_check.specs.Tables.{table_view};
ghost use Rattle.table_check.specs.checker.ByPlace.{MeetsAll};
ghost use Rattle.program_lints.specs.Flows.{arrow_from, AreEdges, HasAllEdges};

use board::Board;
use facts::{Row, duty, edges};
use seq_program::{Instr, Program};
use std::alloc::{AllocError, Global};
use table_check::{Table, row_at};

/// Whether a row is one of the board, and an instruction meets its duties there.
fn is_met(board: &Board, instr: &Instr, row: &Row) -> bool
    ensures row { IsTrue result → IsRow board.now (row_view row.now) }
    ensures met { IsTrue result → Meets board.now (row_view row.now) instr.now K1 }
    ensures all { IsRow board.now (row_view row.now)
        → MeetsAll board.now instr.now (row_view row.now) → IsTrue result }
{
    row.misfit(board).is_none() && duty(board, instr, row).is_none()
}

/// The edges of a place. There are none where its row isn't one of the board, or its instruction
/// doesn't meet its duties.
fn place_edges(
    alloc: Global,
    board: &Board,
    program: &Program,
    table: &Table,
    place: usize,
) -> Result<Vec<(usize, Row, u64)>, AllocError>
    ensures { IfOk result (λ es. AreEdges board.now program.now (table_view table.now) place
        es.items) }
{
    let Some(instr) = program.at(place) else {
        return Ok(Vec::new(alloc));
    };
    let Some(row) = row_at(&table.rows, place) else {
        return Ok(Vec::new(alloc));
    };
    if !is_met(board, instr, row) {
        return Ok(Vec::new(alloc));
    }
    edges(alloc, board, program, place, row)
}

/// An arrow for each edge of a place.
fn push_arrows(
    arrows: &mut Vec<(usize, usize)>,
    place: usize,
    edges: &[(usize, Row, u64)],
) -> Result<(), AllocError>
    ensures { OnOk result
        (arrows.new.items ≡ arrows.old.items ++ map (arrow_from place) edges.now) }
{
    for (to, _row, _ticks) in edges {
        arrows.push((place, *to))?;
    }
    Ok(())
}

/// The arrows of a program with a table. Fails only for want of memory.
pub(crate) fn arrows(
    alloc: Global,
    board: &Board,
    program: &Program,
    table: &Table,
) -> Result<Vec<(usize, usize)>, AllocError>
    ensures { IfOk result
        (λ arrows. HasAllEdges board.now program.now (table_view table.now) arrows.items) }
{
    let mut arrows = Vec::new(alloc);
    for place in 0..program.places() {
        let edges = place_edges(alloc, board, program, table, place)?;
        push_arrows(&mut arrows, place, &edges)?;
    }
    Ok(arrows)
}
