//! Pages that may be given power, and have no rail on the board.

ghost use Rattle.std.specs.Prelude.{◌≡◌, ◌++◌, OnOk};
ghost use Rattle.std.specs.List.{list_any};
ghost use Rattle.facts.specs.domain.Rows.{row_view};
ghost use Rattle.program_lints.specs.Lints.{no_rail};
ghost use Rattle.program_lints.specs.NoRail.{is_power, powered_target, is_rail_at, selects_bare};
ghost use Rattle.program_lints.specs.NoRail.{may_reach_bare};
ghost use Rattle.program_lints.specs.Reached.{some_below};

use crate::lint::{ProgramLint, push_if};
use crate::selecting::{may_select, pages_at};
use board::{Board, Rail};
use facts::Row;
use pmbus_table::code::OPERATION;
use pmbus_table::{carries_voltage, enables};
use seq_program::{Instr, Written};
use std::alloc::AllocError;

/// Whether a value turns a rail on, or sets its voltage.
fn is_power(code: u8, value: Written) -> bool
    ensures { result ≡ is_power code value }
{
    match value {
        Written::Byte(value) => code == OPERATION && enables(value),
        Written::Word(_) | Written::Register(_) => carries_voltage(code),
    }
}

/// The target to which an instruction writes such a value.
fn powered_target(instr: &Instr) -> Option<usize>
    ensures { result ≡ powered_target instr.now }
{
    match instr {
        Instr::Write {
            target,
            command,
            value,
            ..
        } if is_power(command.code(), *value) => Some(*target),
        _ => None,
    }
}

fn is_rail_at(rail: &Rail, target: usize, page: u8) -> bool
    ensures { result ≡ is_rail_at target page rail.now }
{
    rail.target() == target && rail.page() == page
}

/// Whether the board has a rail at a page of a target.
fn has_rail(board: &Board, target: usize, page: u8) -> bool
    ensures { result ≡ list_any (is_rail_at target page) board.now.rails }
{
    board
        .rails()
        .iter()
        .any(|rail| is_rail_at(rail, target, page))
}

/// Whether PAGE of a target may select a page without a rail.
fn selects_bare(board: &Board, row: &Row, target: usize, page: u8) -> bool
    ensures { result ≡ selects_bare board.now (row_view row.now) target page }
{
    may_select(pages_at(row, target), page) && !has_rail(board, target, page)
}

/// Whether it may select such a page of the first so many.
fn selects_some_bare(board: &Board, row: &Row, target: usize, pages: u8) -> bool
    ensures { result ≡ some_below (selects_bare board.now (row_view row.now) target) pages }
{
    let mut is_bare = false;
    for page in 0..pages {
        let is_here = selects_bare(board, row, target, page);
        is_bare = is_bare || is_here;
    }
    is_bare
}

/// Whether it may select such a page of the target's.
fn may_reach_bare(board: &Board, row: &Row, target: usize) -> bool
    ensures { result ≡ may_reach_bare board.now (row_view row.now) target }
{
    match board.target(target) {
        Some(device) => selects_some_bare(board, row, target, device.pages()),
        None => false,
    }
}

/// A lint where an instruction may give power to a page without a rail.
pub(crate) fn push_no_rail(
    lints: &mut Vec<ProgramLint>,
    board: &Board,
    row: &Row,
    instr: &Instr,
    place: usize,
) -> Result<(), AllocError>
    ensures { OnOk result (lints.new.items ≡ lints.old.items
        ++ no_rail board.now (row_view row.now) instr.now place) }
{
    let Some(target) = powered_target(instr) else {
        return Ok(());
    };
    let is_there = may_reach_bare(board, row, target);
    push_if(lints, is_there, ProgramLint::NoRail { place, target })
}
