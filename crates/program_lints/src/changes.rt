//! What an instruction does to the power of rails.

ghost use Rattle.std.specs.Prelude.{◌≡◌, ℕ, IsTrue, IfSome, IfNone};
ghost use Rattle.pmbus_table.specs.Codes.{operation_code};
ghost use Rattle.facts.specs.domain.Rows.{row_view};
ghost use Rattle.facts.specs.domain.Sets.{rails_in};
ghost use Rattle.program_lints.specs.Changes.{MayTurnOn, TurnsOff, SetsVoltage, WritesWord};
ghost use Rattle.program_lints.specs.Changes.{is_word};

use crate::selecting::{selected_rails, touched_rails};
use board::Board;
use facts::{GoodSet, Row};
use pmbus_table::code::OPERATION;
use pmbus_table::{carries_voltage, enables};
use seq_program::{Instr, Written};

/// A byte that is written to OPERATION of a target.
#[derive(Clone, Copy)]
struct OperationWrite {
    target: usize,
    value: u8,
    /// The place where it leads if it isn't done.
    otherwise: usize,
}

/// A voltage that is written to a target.
#[derive(Clone, Copy)]
struct VoltageWrite {
    target: usize,
    otherwise: usize,
}

/// The byte that an instruction writes to OPERATION.
fn operation_write(instr: &Instr) -> Option<OperationWrite>
    ensures some { IfSome result (λ w. instr.now
        ≡ Instr.Write w.target operation_code (Written.Byte w.value) w.otherwise) }
    ensures none { IfNone result ((target value otherwise : ℕ)
        → instr.now ≡ Instr.Write target operation_code (Written.Byte value) otherwise → ⊥) }
{
    match instr {
        Instr::Write {
            target,
            command,
            value: Written::Byte(value),
            otherwise,
        } if command.code() == OPERATION => Some(OperationWrite {
            target: *target,
            value: *value,
            otherwise: *otherwise,
        }),
        _ => None,
    }
}

fn is_word(value: Written) -> bool
    ensures { result ≡ is_word value }
{
    match value {
        Written::Byte(_) => false,
        Written::Word(_) | Written::Register(_) => true,
    }
}

/// The voltage that an instruction writes.
fn voltage_write(instr: &Instr) -> Option<VoltageWrite>
    ensures { IfSome result (λ w. WritesWord instr.now w.target w.otherwise) }
{
    match instr {
        Instr::Write {
            target,
            command,
            value,
            otherwise,
        } if is_word(*value) && carries_voltage(command.code()) => Some(VoltageWrite {
            target: *target,
            otherwise: *otherwise,
        }),
        _ => None,
    }
}

/// The rails that an instruction may turn on.
pub(crate) fn turned_on(board: &Board, row: &Row, instr: &Instr) -> GoodSet
    ensures { (d : ℕ) → MayTurnOn board.now (row_view row.now) instr.now d
        → IsTrue (rails_in result d) }
{
    let Some(write) = operation_write(instr) else {
        return GoodSet::empty();
    };
    if enables(write.value) {
        touched_rails(board, row, write.target)
    } else {
        GoodSet::empty()
    }
}

/// The rails that an instruction surely turns off on the way to a place.
pub(crate) fn turned_off(board: &Board, row: &Row, instr: &Instr, to: usize) -> GoodSet
    ensures { (d : ℕ) → IsTrue (rails_in result d)
        → TurnsOff board.now (row_view row.now) instr.now to d }
{
    let Some(write) = operation_write(instr) else {
        return GoodSet::empty();
    };
    if enables(write.value) || to == write.otherwise {
        return GoodSet::empty();
    }
    selected_rails(board, row, write.target)
}

/// The rails to which an instruction surely writes a voltage on the way to a place.
pub(crate) fn voltages_set(board: &Board, row: &Row, instr: &Instr, to: usize) -> GoodSet
    ensures { (d : ℕ) → IsTrue (rails_in result d)
        → SetsVoltage board.now (row_view row.now) instr.now to d }
{
    let Some(write) = voltage_write(instr) else {
        return GoodSet::empty();
    };
    if to == write.otherwise {
        return GoodSet::empty();
    }
    selected_rails(board, row, write.target)
}
