//! Whether a table is one of the board and of the program's length, and holds every start.

ghost use Rattle.std.specs.Prelude.{◌≡◌, [], ◌∷◌, ◌++◌, length, ◌↔◌, IsTrue, IfSome, List};
ghost use Rattle.std.specs.Prelude.{option_map};
ghost use Rattle.seq_program.specs.declared.instr.Instr.{Instr};
ghost use Rattle.table_check.specs.Tables.{row_of, rows_view};
ghost use Rattle.table_check.specs.checker.Looking.{of_form, shape_at, fault_in, Blames};
ghost use Rattle.table_check.specs.checker.Obligations.{IsFirstFault, shapes, Start};

use crate::checker::breach::{Breach, Refusal};
use crate::table::row_at;
use board::Board;
use facts::Row;
use seq_program::Program;

/// K9 at a place: whether its row, if there is one, is one of the board.
fn shape_breach_at(board: &Board, rows: &[Option<Row>], place: usize) -> Option<Refusal>
    ensures first { (p : List Instr) → IsFirstFault board.now p (rows_view rows.now)
        (shape_at place (row_of (rows_view rows.now) place)) (option_map fault_in result) }
    ensures blame { (p : List Instr) → IfSome result (Blames board.now p (rows_view rows.now)) }
{
    let row = row_at(rows, place)?;
    match row.misfit(board) {
        Some(misfit) => Some(Refusal {
            place,
            breach: Breach::Shape(misfit),
        }),
        None => None,
    }
}

/// K9: the first place whose row isn't one of the board.
fn shape_breach(board: &Board, rows: &[Option<Row>]) -> Option<Refusal>
    ensures first { (p : List Instr) → IsFirstFault board.now p (rows_view rows.now)
        (shapes 0 (rows_view rows.now)) (option_map fault_in result) }
    ensures blame { (p : List Instr) → IfSome result (Blames board.now p (rows_view rows.now)) }
{
    for place in 0..rows.len() {
        if let Some(refusal) = shape_breach_at(board, rows, place) {
            return Some(refusal);
        }
    }
    None
}

/// K8: place 0, where its row doesn't hold every start.
fn start_breach(board: &Board, rows: &[Option<Row>]) -> Option<Refusal>
    ensures first { (p : List Instr) → IsFirstFault board.now p (rows_view rows.now)
        (Start ∷ []) (option_map fault_in result) }
    ensures blame { (p : List Instr) → IfSome result (Blames board.now p (rows_view rows.now)) }
{
    let breach = match row_at(rows, 0) {
        Some(row) => Breach::Start(row.unheld(board)?),
        None => Breach::NoStart,
    };
    Some(Refusal { place: 0, breach })
}

/// What the first of a table's rows breaks, or its start.
fn rows_breach(board: &Board, rows: &[Option<Row>]) -> Option<Refusal>
    ensures first { (p : List Instr) → IsFirstFault board.now p (rows_view rows.now)
        (shapes 0 (rows_view rows.now) ++ (Start ∷ [])) (option_map fault_in result) }
    ensures blame { (p : List Instr) → IfSome result (Blames board.now p (rows_view rows.now)) }
{
    match shape_breach(board, rows) {
        Some(refusal) => Some(refusal),
        None => start_breach(board, rows),
    }
}

/// Whether there are as many rows, or none, as places.
fn is_long(program: &Program, rows: &[Option<Row>]) -> bool
    ensures { IsTrue result ↔ (length (rows_view rows.now) ≡ length program.now) }
{
    rows.len() == program.places()
}

/// What a table breaks, before any instruction is looked at.
pub(crate) fn form_breach(board: &Board, program: &Program, rows: &[Option<Row>]) -> Option<Refusal>
    ensures first { IsFirstFault board.now program.now (rows_view rows.now)
        (of_form (rows_view rows.now)) (option_map fault_in result) }
    ensures blame { IfSome result (Blames board.now program.now (rows_view rows.now)) }
{
    if is_long(program, rows) {
        rows_breach(board, rows)
    } else {
        Some(Refusal {
            place: 0,
            breach: Breach::Length,
        })
    }
}
