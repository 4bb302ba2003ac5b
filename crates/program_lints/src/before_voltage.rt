//! Rails that may be turned on before a voltage was surely written to them.

ghost use Rattle.std.specs.Prelude.{◌≡◌, ◌++◌, ◌&&◌, OnOk};
ghost use Rattle.std.specs.List.{list_any};
ghost use Rattle.pmbus_table.specs.Operation.{enables};
ghost use Rattle.facts.specs.domain.Rows.{row_view};
ghost use Rattle.facts.specs.domain.Sets.{rails_in};
ghost use Rattle.program_lints.specs.Lints.{operation_target, may_turn_on, takes_voltage};
ghost use Rattle.program_lints.specs.Lints.{takes_voltages, is_before_voltage, before_voltages};

use crate::lint::{ProgramLint, push_if};
use crate::selecting::{contains, is_touched};
use board::{Allow, Board, Rail, Target};
use facts::{GoodSet, Row};
use pmbus_table::code::OPERATION;
use pmbus_table::{carries_voltage, enables};
use seq_program::{Instr, Written};
use smbus::Form;
use std::alloc::AllocError;

/// The target whose rails an instruction turns on.
fn enabled_target(instr: &Instr) -> Option<usize>
    ensures { result ≡ operation_target enables instr.now }
{
    match instr {
        Instr::Write {
            target,
            command,
            value: Written::Byte(value),
            ..
        } if command.code() == OPERATION && enables(*value) => Some(*target),
        _ => None,
    }
}

fn may_turn_on(board: &Board, row: &Row, instr: &Instr, rail: usize) -> bool
    ensures { result ≡ may_turn_on board.now (row_view row.now) instr.now rail }
{
    match enabled_target(instr) {
        Some(target) => is_touched(board, row, target, rail),
        None => false,
    }
}

/// Whether an entry takes voltages.
fn takes_voltage(entry: &Allow) -> bool
    ensures { result ≡ takes_voltage entry.now }
{
    match (entry.form(), entry.command()) {
        (Form::WriteWord, Some(command)) => carries_voltage(command.code()),
        _ => false,
    }
}

fn takes_some_voltage(device: &Target) -> bool
    ensures { result ≡ list_any takes_voltage device.now.allow }
{
    device.allow().iter().any(|entry| takes_voltage(entry))
}

/// Whether a rail's target takes voltages.
fn takes_voltages(board: &Board, rail: &Rail) -> bool
    ensures { result ≡ takes_voltages board.now rail.now }
{
    match board.target(rail.target()) {
        Some(device) => takes_some_voltage(device),
        None => false,
    }
}

/// Whether a rail may be turned on before its voltage is set.
fn is_before_voltage(
    board: &Board,
    row: &Row,
    instr: &Instr,
    voltages: GoodSet,
    index: usize,
    rail: &Rail,
) -> bool
    ensures { result ≡ is_before_voltage board.now (row_view row.now) instr.now (rails_in voltages)
        (index, rail.now) }
{
    may_turn_on(board, row, instr, index)
        && takes_voltages(board, rail)
        && !contains(voltages, index)
}

/// A lint for each rail that an instruction may turn on before its voltage is set.
pub(crate) fn push_before_voltages(
    lints: &mut Vec<ProgramLint>,
    board: &Board,
    row: &Row,
    instr: &Instr,
    voltages: GoodSet,
    place: usize,
) -> Result<(), AllocError>
    ensures { OnOk result (lints.new.items ≡ lints.old.items
        ++ before_voltages board.now (row_view row.now) instr.now (rails_in voltages) place) }
{
    for (index, rail) in board.rails().iter().enumerate() {
        let is_there = is_before_voltage(board, row, instr, voltages, index, rail);
        push_if(
            lints,
            is_there,
            ProgramLint::BeforeVoltage { place, rail: index },
        )?;
    }
    Ok(())
}
