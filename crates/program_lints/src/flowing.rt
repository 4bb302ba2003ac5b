//! The flows of what is sure along the edges of a program.

ghost use Rattle.std.specs.Prelude.{◌≡◌, ℕ, IsTrue, IfOk};
ghost use Rattle.facts.specs.domain.Rows.{row_view};
ghost use Rattle.facts.specs.domain.Sets.{Set};
ghost use Rattle.table_check.specs.Tables.{table_view};
ghost use Rattle.program_lints.specs.Changes.{IsOffAfter, HasVoltageAfter};
ghost use Rattle.program_lints.specs.Flows.{AreFlows, IsFlow, arrow_of, flow_after};

use crate::changes::{turned_off, turned_on, voltages_set};
use crate::flow::{Flow, unchanged};
use board::Board;
use facts::{GoodSet, Row};
use seq_program::{Instr, Program};
use std::alloc::{AllocError, Global};
use table_check::{Table, row_at};

/// What becomes of the rails that are surely off, on the way from an instruction at a row.
fn off_along(board: &Board, instr: &Instr, row: &Row, from: usize, to: usize) -> Flow
    ensures flow { (before : Set) (d : ℕ) → IsTrue (flow_after result before d)
        → IsOffAfter board.now (row_view row.now) instr.now to before d }
    ensures along { arrow_of result ≡ (from, to) }
{
    Flow {
        from,
        to,
        gains: turned_off(board, row, instr, to),
        loses: turned_on(board, row, instr),
    }
}

/// What becomes of the rails that surely had a voltage written to them.
fn voltage_along(board: &Board, instr: &Instr, row: &Row, from: usize, to: usize) -> Flow
    ensures flow { (before : Set) (d : ℕ) → IsTrue (flow_after result before d)
        → HasVoltageAfter board.now (row_view row.now) instr.now to before d }
    ensures along { arrow_of result ≡ (from, to) }
{
    Flow {
        from,
        to,
        gains: voltages_set(board, row, instr, to),
        loses: GoodSet::empty(),
    }
}

/// What becomes of the rails that are surely off, on the way from a place.
fn off_flow(board: &Board, program: &Program, table: &Table, from: usize, to: usize) -> Flow
    ensures flow { IsFlow IsOffAfter board.now program.now (table_view table.now) result }
    ensures along { arrow_of result ≡ (from, to) }
{
    let Some(row) = row_at(&table.rows, from) else {
        return unchanged(from, to);
    };
    let Some(instr) = program.at(from) else {
        return unchanged(from, to);
    };
    off_along(board, instr, row, from, to)
}

/// The same of the rails that surely had a voltage written to them.
fn voltage_flow(board: &Board, program: &Program, table: &Table, from: usize, to: usize) -> Flow
    ensures flow { IsFlow HasVoltageAfter board.now program.now (table_view table.now) result }
    ensures along { arrow_of result ≡ (from, to) }
{
    let Some(row) = row_at(&table.rows, from) else {
        return unchanged(from, to);
    };
    let Some(instr) = program.at(from) else {
        return unchanged(from, to);
    };
    voltage_along(board, instr, row, from, to)
}

/// What becomes of the rails that are surely off, along each arrow.
pub(crate) fn off_flows(
    alloc: Global,
    board: &Board,
    program: &Program,
    table: &Table,
    arrows: &[(usize, usize)],
) -> Result<Vec<Flow>, AllocError>
    ensures { IfOk result (λ flows. AreFlows IsOffAfter board.now program.now
        (table_view table.now) arrows.now flows.items) }
{
    let mut flows = Vec::new(alloc);
    for (from, to) in arrows {
        flows.push(off_flow(board, program, table, *from, *to))?;
    }
    Ok(flows)
}

/// What becomes of the rails that surely had a voltage written to them, along each arrow.
pub(crate) fn voltage_flows(
    alloc: Global,
    board: &Board,
    program: &Program,
    table: &Table,
    arrows: &[(usize, usize)],
) -> Result<Vec<Flow>, AllocError>
    ensures { IfOk result (λ flows. AreFlows HasVoltageAfter board.now program.now
        (table_view table.now) arrows.now flows.items) }
{
    let mut flows = Vec::new(alloc);
    for (from, to) in arrows {
        flows.push(voltage_flow(board, program, table, *from, *to))?;
    }
    Ok(flows)
}
