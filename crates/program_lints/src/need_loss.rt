//! Rails that may be turned off, or aren't known to be good at the end, while others may be on that
//! need them.

ghost use Rattle.std.specs.Prelude.{◌≡◌, ◌<◌, ◌==◌, ◌++◌, ◌&&◌, not, OnOk, length};
ghost use Rattle.board.specs.Boards.{Rail as BoardRail};
ghost use Rattle.std.specs.List.{list_any};
ghost use Rattle.facts.specs.domain.Rows.{row_view};
ghost use Rattle.facts.specs.domain.Sets.{only, rails_in};
ghost use Rattle.program_lints.specs.Lints.{operation_target, disables, may_turn_off};
ghost use Rattle.program_lints.specs.Lints.{ends_unsure, may_be_lost};
ghost use Rattle.program_lints.specs.Lints.{next_leaning, leaning, leans_on, need_lints_in};
ghost use Rattle.program_lints.specs.Lints.{need_loss, need_losses};

use crate::flow::with_rail;
use crate::lint::{ProgramLint, push_if};
use crate::selecting::{contains, is_touched};
use board::{Board, board_is_valid};
use facts::{GoodSet, Row};
use pmbus_table::code::OPERATION;
use pmbus_table::enables;
use seq_program::{Instr, Written};
use std::alloc::AllocError;

/// A board has no more rails, so no way from need to need is longer.
const MOST_RAILS: usize = 64;

/// The target whose rails an instruction turns off.
fn disabled_target(instr: &Instr) -> Option<usize>
    ensures { result ≡ operation_target disables instr.now }
{
    match instr {
        Instr::Write {
            target,
            command,
            value: Written::Byte(value),
            ..
        } if command.code() == OPERATION && !enables(*value) => Some(*target),
        _ => None,
    }
}

fn may_turn_off(board: &Board, row: &Row, instr: &Instr, rail: usize) -> bool
    ensures { result ≡ may_turn_off board.now (row_view row.now) instr.now rail }
{
    match disabled_target(instr) {
        Some(target) => is_touched(board, row, target, rail),
        None => false,
    }
}

/// Whether the program ends here, and a rail may be on that isn't known to be good.
fn ends_unsure(row: &Row, on: GoodSet, instr: &Instr, rail: usize) -> bool
    ensures { result ≡ ends_unsure (row_view row.now) (rails_in on) instr.now rail }
{
    match instr {
        Instr::End => contains(on, rail) && !contains(row.good, rail),
        _ => false,
    }
}

fn may_be_lost(board: &Board, row: &Row, on: GoodSet, instr: &Instr, rail: usize) -> bool
    ensures { result ≡ may_be_lost board.now (row_view row.now) (rails_in on) instr.now rail }
{
    may_turn_off(board, row, instr, rail) || ends_unsure(row, on, instr, rail)
}

fn has_some_of(rails: GoodSet, needs: &[usize]) -> bool
    ensures { result ≡ list_any (rails_in rails) needs.now }
{
    needs.iter().any(|need| contains(rails, *need))
}

/// Whether the rail of an index is in a set, or needs one that is.
fn leans(board: &Board, rails: GoodSet, rail: usize) -> bool
    ensures { result ≡ next_leaning board.now (rails_in rails) rail }
{
    let needs_some = match board.rail(rail) {
        Some(rail) => has_some_of(rails, rail.needs()),
        None => false,
    };
    contains(rails, rail) || needs_some
}

/// With these rails those that need one of them.
fn next_leaning(board: &Board, rails: GoodSet) -> GoodSet
    ensures { rails_in result ≡ next_leaning board.now (rails_in rails) }
{
    board_is_valid(board);
    let mut next = GoodSet::empty();
    for rail in 0..64 {
        let is_in = leans(board, rails, usize::from(rail));
        next = with_rail(next, rail, is_in);
    }
    next
}

fn single_rail(rail: usize) -> GoodSet
    requires { rail < 64 }
    ensures { rails_in result ≡ only rail }
{
    GoodSet::empty().with(rail as u8)
}

/// A rail, and those that need it, itself or through needs of needs.
fn leaning(board: &Board, need: usize) -> GoodSet
    requires { need < 64 }
    ensures { rails_in result ≡ leaning board.now 64 need }
{
    let mut rails = single_rail(need);
    for _round in 0..MOST_RAILS {
        rails = next_leaning(board, rails);
    }
    rails
}

/// Whether a rail of a set is another than the one of an index.
fn is_other(rails: GoodSet, rail: u8, index: usize) -> bool
    ensures { result ≡ (rails_in rails rail && not (rail == index)) }
{
    rails.contains(rail) && usize::from(rail) != index
}

/// The rails that need a rail.
fn leans_on(board: &Board, need: usize) -> GoodSet
    requires { need < length board.now.rails }
    ensures { rails_in result ≡ leans_on board.now need }
{
    board_is_valid(board);
    let leaning = leaning(board, need);
    let mut others = GoodSet::empty();
    for rail in 0..64 {
        let is_in = is_other(leaning, rail, need);
        others = with_rail(others, rail, is_in);
    }
    others
}

fn is_in_both(rails: GoodSet, others: GoodSet, rail: usize) -> bool
    ensures { result ≡ (rails_in rails rail && rails_in others rail) }
{
    contains(rails, rail) && contains(others, rail)
}

/// A lint for each rail that may be on, of those that need another.
fn push_need_lints(
    lints: &mut Vec<ProgramLint>,
    board: &Board,
    leaning: GoodSet,
    on: GoodSet,
    place: usize,
    need: usize,
) -> Result<(), AllocError>
    ensures { OnOk result (lints.new.items ≡ lints.old.items
        ++ need_lints_in board.now (rails_in leaning) (rails_in on) place need) }
{
    for (rail, _) in board.rails().iter().enumerate() {
        let is_there = is_in_both(leaning, on, rail);
        push_if(lints, is_there, ProgramLint::NeedLost { place, need, rail })?;
    }
    Ok(())
}

/// The same where the other rail may be lost.
fn push_need_loss(
    lints: &mut Vec<ProgramLint>,
    board: &Board,
    row: &Row,
    instr: &Instr,
    on: GoodSet,
    place: usize,
    need: usize,
) -> Result<(), AllocError>
    requires { need < length board.now.rails }
    ensures { (rail : BoardRail) → OnOk result (lints.new.items ≡ lints.old.items
        ++ need_loss board.now (row_view row.now) instr.now (rails_in on) place (need, rail)) }
{
    if may_be_lost(board, row, on, instr, need) {
        let leaning = leans_on(board, need);
        push_need_lints(lints, board, leaning, on, place, need)
    } else {
        Ok(())
    }
}

/// A lint for each rail that may be lost at an instruction, and each that may be on and needs it.
pub(crate) fn push_need_losses(
    lints: &mut Vec<ProgramLint>,
    board: &Board,
    row: &Row,
    instr: &Instr,
    on: GoodSet,
    place: usize,
) -> Result<(), AllocError>
    ensures { OnOk result (lints.new.items ≡ lints.old.items
        ++ need_losses board.now (row_view row.now) instr.now (rails_in on) place) }
{
    for (need, _rail) in board.rails().iter().enumerate() {
        push_need_loss(lints, board, row, instr, on, place, need)?;
    }
    Ok(())
}
