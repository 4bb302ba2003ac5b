//! Programs that look at SMBALERT# and never ask who pulls it low.

ghost use Rattle.std.specs.Prelude.{◌≡◌, ◌++◌, OnOk};
ghost use Rattle.table_check.specs.Tables.{table_view};
ghost use Rattle.program_lints.specs.Lints.{unserved_alert};
ghost use Rattle.program_lints.specs.Reached.{passes_at, some_reached};
ghost use Rattle.program_lints.specs.UnservedAlert.{looks_at_alert, asks_alert, is_unserved};

use crate::lint::{ProgramLint, push_if};
use crate::unreached::is_reached;
use seq_program::{Instr, Program};
use std::alloc::AllocError;
use table_check::Table;

fn looks_at_alert(instr: &Instr) -> bool
    ensures { result ≡ looks_at_alert instr.now }
{
    matches!(instr, Instr::IfAlert { .. })
}

/// Whether an instruction asks who pulls SMBALERT# low.
fn asks_alert(instr: &Instr) -> bool
    ensures { result ≡ asks_alert instr.now }
{
    matches!(instr, Instr::Alert { .. })
}

/// Whether the instruction of a place does, and something leads there.
fn asks_alert_at(program: &Program, table: &Table, place: usize) -> bool
    ensures { result ≡ passes_at asks_alert program.now (table_view table.now) place }
{
    let asks = match program.at(place) {
        Some(instr) => asks_alert(instr),
        None => false,
    };
    is_reached(table, place) && asks
}

/// Whether the program asks somewhere who pulls SMBALERT# low.
fn is_alert_asked(program: &Program, table: &Table) -> bool
    ensures { result ≡ some_reached asks_alert program.now (table_view table.now) }
{
    let mut is_asked = false;
    for place in 0..program.places() {
        let is_here = asks_alert_at(program, table, place);
        is_asked = is_asked || is_here;
    }
    is_asked
}

/// Whether an instruction looks at SMBALERT#, and nothing asks who pulls it low.
fn is_unserved(program: &Program, table: &Table, instr: &Instr) -> bool
    ensures { result ≡ is_unserved program.now (table_view table.now) instr.now }
{
    looks_at_alert(instr) && !is_alert_asked(program, table)
}

/// A lint where an instruction looks at SMBALERT#, and nothing asks who pulls it low.
pub(crate) fn push_unserved_alert(
    lints: &mut Vec<ProgramLint>,
    program: &Program,
    table: &Table,
    instr: &Instr,
    place: usize,
) -> Result<(), AllocError>
    ensures { OnOk result (lints.new.items ≡ lints.old.items
        ++ unserved_alert program.now (table_view table.now) instr.now place) }
{
    let is_there = is_unserved(program, table, instr);
    push_if(lints, is_there, ProgramLint::UnservedAlert { place })
}
