//! Targets whose WRITE_PROTECT may be left otherwise than it began.

ghost use Rattle.std.specs.Prelude.{◌≡◌, ◌==◌, ◌&&◌, ◌++◌, not, OnOk};
ghost use Rattle.seq_program.specs.Programs.{is_end};
ghost use Rattle.facts.specs.domain.Rows.{row_view, set_at};
ghost use Rattle.facts.specs.domain.Sets.{protects_in};
ghost use Rattle.table_check.specs.Tables.{table_view};
ghost use Rattle.program_lints.specs.Lints.{protects_left};
ghost use Rattle.program_lints.specs.ProtectLeft.{writes_protect, has_other, may_differ};
ghost use Rattle.program_lints.specs.ProtectLeft.{is_protect_left};
ghost use Rattle.program_lints.specs.Reached.{passes_at, some_reached};

use crate::lint::{ProgramLint, push_if};
use crate::unreached::is_reached;
use board::{Board, Target};
use facts::{ProtectSet, Row};
use pmbus_table::code::WRITE_PROTECT;
use seq_program::{Instr, Program, Written};
use std::alloc::AllocError;
use table_check::Table;

/// What a target may store in WRITE_PROTECT.
fn protects_at(row: &Row, target: usize) -> ProtectSet
    ensures { protects_in result ≡ set_at (row_view row.now).protects target }
{
    match row.protects.get(target) {
        Some(set) => *set,
        None => ProtectSet::empty(),
    }
}

/// Whether a value of a set is another than the first.
fn is_other(protects: ProtectSet, first: u8, value: u8) -> bool
    ensures { result ≡ (protects_in protects value && not (value == first)) }
{
    protects.contains(value) && value != first
}

/// Whether some value of a set is another than the first.
fn has_other(protects: ProtectSet, first: u8) -> bool
    ensures { result ≡ has_other (protects_in protects) first }
{
    is_other(protects, first, 0x00)
        || is_other(protects, first, 0x20)
        || is_other(protects, first, 0x40)
        || is_other(protects, first, 0x80)
}

/// Whether WRITE_PROTECT may be another than one of those that it may have at the start.
fn may_differ(starts: &[u8], protects: ProtectSet) -> bool
    ensures { result ≡ may_differ starts.now (protects_in protects) }
{
    starts.iter().any(|first| has_other(protects, *first))
}

/// Whether an instruction writes WRITE_PROTECT of a target.
fn writes_protect(instr: &Instr, index: usize) -> bool
    ensures { result ≡ writes_protect index instr.now }
{
    match instr {
        Instr::Write {
            target,
            command,
            value: Written::Byte(_),
            ..
        } => *target == index && command.code() == WRITE_PROTECT,
        _ => false,
    }
}

/// Whether the instruction of a place does, and something leads there.
fn writes_protect_at(program: &Program, table: &Table, place: usize, target: usize) -> bool
    ensures { result ≡ passes_at (writes_protect target) program.now (table_view table.now) place }
{
    let writes = match program.at(place) {
        Some(instr) => writes_protect(instr, target),
        None => false,
    };
    is_reached(table, place) && writes
}

/// Whether the program writes WRITE_PROTECT of a target somewhere.
fn is_protect_written(program: &Program, table: &Table, target: usize) -> bool
    ensures { result ≡ some_reached (writes_protect target) program.now (table_view table.now) }
{
    let mut is_written = false;
    for place in 0..program.places() {
        let is_here = writes_protect_at(program, table, place, target);
        is_written = is_written || is_here;
    }
    is_written
}

fn is_end(instr: &Instr) -> bool
    ensures { result ≡ is_end instr.now }
{
    matches!(instr, Instr::End | Instr::Fail)
}

/// Whether the program ends here, and may leave WRITE_PROTECT of a target otherwise than it began.
fn is_protect_left(
    program: &Program,
    table: &Table,
    row: &Row,
    instr: &Instr,
    index: usize,
    device: &Target,
) -> bool
    ensures { result ≡ is_protect_left program.now (table_view table.now) (row_view row.now)
        instr.now (index, device.now) }
{
    is_end(instr)
        && may_differ(device.start_protects(), protects_at(row, index))
        && is_protect_written(program, table, index)
}

/// A lint for each target whose WRITE_PROTECT an ending may leave otherwise than it began.
pub(crate) fn push_protects_left(
    lints: &mut Vec<ProgramLint>,
    board: &Board,
    program: &Program,
    table: &Table,
    row: &Row,
    instr: &Instr,
    place: usize,
) -> Result<(), AllocError>
    ensures { OnOk result (lints.new.items ≡ lints.old.items ++ protects_left board.now
        program.now (table_view table.now) (row_view row.now) instr.now place) }
{
    for (target, device) in board.targets().iter().enumerate() {
        let is_there = is_protect_left(program, table, row, instr, target, device);
        push_if(lints, is_there, ProgramLint::ProtectLeft { place, target })?;
    }
    Ok(())
}
