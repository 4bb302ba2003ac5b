//! Limits that nothing can break.

ghost use Rattle.std.specs.Prelude.{◌≡◌, ◌++◌, OnOk};
ghost use Rattle.std.specs.List.{list_any};
ghost use Rattle.board_lints.specs.Reasons.{takes_voltage, stays_within, stay_within, is_loose};
ghost use Rattle.board_lints.specs.Reasons.{is_loose_rail};
ghost use Rattle.board_lints.specs.Lints.{entry_voltage, greatest_voltage, rail_voltage};
ghost use Rattle.board_lints.specs.Lints.{loose_lints};
ghost use Rattle.board_lints.specs.Lints.{loose_limits};

use crate::lint::Lint;
use board::{Allow, Board, Rail, Target};
use pmbus_table::{carries_voltage, within};
use smbus::Form;
use std::alloc::AllocError;

/// Whether an entry takes voltages.
fn takes_voltage(entry: &Allow) -> bool
    ensures { result ≡ takes_voltage entry.now }
{
    match (entry.form(), entry.command()) {
        (Form::WriteWord, Some(command)) => carries_voltage(command.code()),
        _ => false,
    }
}

/// Whether the greatest value of an entry and the next one are within a limit. A range that ends
/// just at the limit is meant so.
fn stays_within(device: &Target, limit: u32, entry: &Allow) -> bool
    ensures { result ≡ stays_within device.now limit entry.now }
{
    let next = entry.values().high.saturating_add(1);
    within(next, device.exponent(), limit)
}

fn takes_some_voltage(device: &Target) -> bool
    ensures { result ≡ list_any takes_voltage device.now.allow }
{
    device.allow().iter().any(|entry| takes_voltage(entry))
}

fn stay_within(device: &Target, limit: u32) -> bool
    ensures { result ≡ stay_within device.now limit }
{
    device.allow().iter().all(|entry| !takes_voltage(entry) || stays_within(device, limit, entry))
}

fn is_loose(device: &Target, rail: &Rail) -> bool
    ensures { result ≡ is_loose device.now rail.now }
{
    takes_some_voltage(device) && stay_within(device, rail.limit_uv())
}

/// Whether no voltage that its target takes breaks a rail's limit.
fn is_loose_rail(board: &Board, rail: &Rail) -> bool
    ensures { result ≡ is_loose_rail board.now rail.now }
{
    match board.target(rail.target()) {
        Some(device) => is_loose(device, rail),
        None => false,
    }
}

/// The greatest voltage that an entry takes.
fn entry_voltage(entry: &Allow) -> u16
    ensures { result ≡ entry_voltage entry.now }
{
    if takes_voltage(entry) {
        entry.values().high
    } else {
        0
    }
}

/// The greatest voltage that a target takes.
fn greatest_voltage(device: &Target) -> u16
    ensures { result ≡ greatest_voltage device.now }
{
    let mut greatest = 0;
    for entry in device.allow() {
        greatest = entry_voltage(entry).max(greatest);
    }
    greatest
}

fn rail_voltage(board: &Board, rail: &Rail) -> u16
    ensures { result ≡ rail_voltage board.now rail.now }
{
    match board.target(rail.target()) {
        Some(device) => greatest_voltage(device),
        None => 0,
    }
}

/// A lint of a rail whose limit no voltage can break that its target takes.
fn push_loose_limit(
    lints: &mut Vec<Lint>,
    board: &Board,
    index: usize,
    rail: &Rail,
) -> Result<(), AllocError>
    ensures { OnOk result
        (lints.new.items ≡ lints.old.items ++ loose_lints board.now (index, rail.now)) }
{
    if is_loose_rail(board, rail) {
        lints.push(Lint::LooseLimit {
            rail: index,
            greatest: rail_voltage(board, rail),
        })?;
    }
    Ok(())
}

/// A lint for each rail whose limit no voltage can break that its target takes.
pub(crate) fn push_loose_limits(lints: &mut Vec<Lint>, board: &Board) -> Result<(), AllocError>
    ensures { OnOk result (lints.new.items ≡ lints.old.items ++ loose_limits board.now) }
{
    for (index, rail) in board.rails().iter().enumerate() {
        push_loose_limit(lints, board, index, rail)?;
    }
    Ok(())
}
