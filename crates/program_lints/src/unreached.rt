//! Stretches of a program to which nothing leads.

ghost use Rattle.std.specs.Prelude.{◌≡◌, ◌++◌, OnOk};
ghost use Rattle.table_check.specs.Tables.{table_view};
ghost use Rattle.program_lints.specs.Lints.{unreached};
ghost use Rattle.program_lints.specs.Reached.{is_reached, begins_stretch};

use crate::lint::{ProgramLint, push_if};
use std::alloc::AllocError;
use table_check::{Table, row_at};

/// Whether the table has a row for a place.
pub(crate) fn is_reached(table: &Table, place: usize) -> bool
    ensures { result ≡ is_reached (table_view table.now) place }
{
    row_at(&table.rows, place).is_some()
}

/// Whether a place without a row is the first of its stretch.
fn begins_stretch(table: &Table, place: usize) -> bool
    ensures { result ≡ begins_stretch (table_view table.now) place }
{
    place == 0 || is_reached(table, place - 1)
}

/// A lint for a place without a row that is the first of its stretch.
pub(crate) fn push_unreached(
    lints: &mut Vec<ProgramLint>,
    table: &Table,
    place: usize,
) -> Result<(), AllocError>
    ensures { OnOk result (lints.new.items ≡ lints.old.items
        ++ unreached (table_view table.now) place) }
{
    let is_there = begins_stretch(table, place);
    push_if(lints, is_there, ProgramLint::Unreached { place })
}
