//! All lints of a program.

ghost use Rattle.std.specs.Prelude.{◌≡◌, ◌++◌, ℕ, IfOk, OnOk, slice_get};
ghost use Rattle.facts.specs.domain.Rows.{row_view};
ghost use Rattle.facts.specs.domain.Sets.{rails_in};
ghost use Rattle.table_check.specs.Tables.{row_of, table_view};
ghost use Rattle.program_lints.specs.Lints.{AreLints, on_board, table_lints};
ghost use Rattle.program_lints.specs.Telling.{TellsFails, TellsPlace};

use crate::before_voltage::push_before_voltages;
use crate::flow::with_rail;
use crate::lint::ProgramLint;
use crate::need_loss::push_need_losses;
use crate::no_rail::push_no_rail;
use crate::power::{PowerStates, power_states};
use crate::protect_left::push_protects_left;
use crate::unreached::push_unreached;
use crate::unserved_alert::push_unserved_alert;
use board::Board;
use facts::{GoodSet, Row};
use seq_program::{Instr, Program};
use std::alloc::{AllocError, Global};
use table_check::{Table, row_at};

/// Whether a rail is one of the board, and in a set.
fn is_of_board(board: &Board, rails: GoodSet, rail: u8) -> bool
    ensures { result ≡ on_board board.now (rails_in rails) rail }
{
    usize::from(rail) < board.rails().len() && rails.contains(rail)
}

/// The rails of a set that the board has.
fn of_board(board: &Board, rails: GoodSet) -> GoodSet
    ensures { (d : ℕ) → rails_in result d ≡ on_board board.now (rails_in rails) d }
{
    let mut own = GoodSet::empty();
    for rail in 0..64 {
        let is_in = is_of_board(board, rails, rail);
        own = with_rail(own, rail, is_in);
    }
    own
}

/// A lint where the program fails and rails may be on.
fn push_on_at_fail(
    lints: &mut Vec<ProgramLint>,
    board: &Board,
    instr: &Instr,
    on: GoodSet,
    place: usize,
) -> Result<(), AllocError>
    ensures { OnOk result (TellsFails board.now instr.now (rails_in on) place lints.old.items
        lints.new.items) }
{
    let Instr::Fail = instr else {
        return Ok(());
    };
    let rails = of_board(board, on);
    if rails.has_some() {
        lints.push(ProgramLint::OnAtFail { place, rails })?;
    }
    Ok(())
}

/// The lints that the table tells of an instruction at its row.
fn push_table_lints(
    lints: &mut Vec<ProgramLint>,
    board: &Board,
    program: &Program,
    table: &Table,
    row: &Row,
    instr: &Instr,
    place: usize,
) -> Result<(), AllocError>
    ensures { OnOk result (lints.new.items ≡ lints.old.items ++ table_lints board.now program.now
        (table_view table.now) (row_view row.now) instr.now place) }
{
    push_protects_left(lints, board, program, table, row, instr, place)?;
    push_no_rail(lints, board, row, instr, place)?;
    push_unserved_alert(lints, program, table, instr, place)
}

/// The lints of a place.
fn push_place_lints(
    lints: &mut Vec<ProgramLint>,
    board: &Board,
    program: &Program,
    table: &Table,
    states: &PowerStates,
    place: usize,
) -> Result<(), AllocError>
    ensures { OnOk result (TellsPlace board.now program.now (table_view table.now) states.now
        place (slice_get program.now place) (row_of (table_view table.now) place)
        lints.old.items lints.new.items) }
{
    let Some(instr) = program.at(place) else {
        return Ok(());
    };
    let Some(row) = row_at(&table.rows, place) else {
        return push_unreached(lints, table, place);
    };
    let on = states.may_be_on(place);
    push_on_at_fail(lints, board, instr, on, place)?;
    push_before_voltages(lints, board, row, instr, states.has_voltage(place), place)?;
    push_need_losses(lints, board, row, instr, on, place)?;
    push_table_lints(lints, board, program, table, row, instr, place)
}

/// The lints of a program with an accepted table of facts, place by place: `fail` while rails may
/// be on, rails that may be turned on before a voltage was surely written to them, and rails that
/// may be turned off, or aren't known to be good at the end, while others may be on that need them;
/// then endings that may leave WRITE_PROTECT otherwise than it began, power for pages without a
/// rail, and looks at SMBALERT# where nothing asks who pulls it low; and stretches to which nothing
/// leads. A table that isn't accepted says nothing of runs. Fails only for want of memory.
pub fn program_lints(
    alloc: Global,
    board: &Board,
    program: &Program,
    table: &Table,
) -> Result<Vec<ProgramLint>, AllocError>
    ensures { IfOk result (λ lints. AreLints board.now program.now (table_view table.now)
        lints.items) }
{
    let states = power_states(alloc, board, program, table)?;
    let mut lints = Vec::new(alloc);
    for place in 0..program.places() {
        push_place_lints(&mut lints, board, program, table, &states, place)?;
    }
    Ok(lints)
}
