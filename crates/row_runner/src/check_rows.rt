//! Rows of tables that are changed and then judged.

use crate::cells::{board, found_table, number, program, word};
use crate::row::{Flaw, Outcome, Row};
use facts::Span;
use std::alloc::Global;
use table_check::{Table, judge};
use texts::words_of;

/// The row of a place of a table.
fn row_of(table: &mut Table, place: usize) -> Outcome<&mut facts::Row> {
    match table.rows.get_mut(place) {
        Some(Some(row)) => Ok(row),
        _ => Err(Flaw::Cell("row at that place").error()),
    }
}

/// A place, decimal.
fn place_of(cell: &str) -> Outcome<usize> {
    Ok(usize::from(word(cell)?))
}

/// Gives a register of a place some values.
fn change_register(table: &mut Table, place: &str, register: &str, span: Span) -> Outcome<()> {
    let row = row_of(table, place_of(place)?)?;
    match row.regs.get_mut(place_of(register)?) {
        Some(known) => {
            *known = span;
            Ok(())
        }
        None => Err(Flaw::Cell("register").error()),
    }
}

/// Changes a table: `-` for nothing, `shorter` without its last row, `row 0 none` a place without
/// one, `row 1 reg 2 1 9` a register's values, `row 0 base 2` the base of its ticks.
fn change(alloc: Global, table: &mut Table, cell: &str) -> Outcome<()> {
    let words = words_of(alloc, cell)?;
    match words.as_slice() {
        ["-"] => Ok(()),
        ["shorter"] => {
            let _last = table.rows.pop();
            Ok(())
        }
        ["row", place, "none"] => {
            let place = place_of(place)?;
            let row = table.rows.get_mut(place);
            *row.ok_or(Flaw::Cell("place").error())? = None;
            Ok(())
        }
        ["row", place, "reg", register, lo, hi] => {
            let (lo, hi) = (word(lo)?, word(hi)?);
            change_register(table, place, register, Span { lo, hi })
        }
        ["row", place, "base", base] => {
            row_of(table, place_of(place)?)?.base = u64::from(number(base, 1_000_000)?);
            Ok(())
        }
        _ => Err(Flaw::Cell("change").error()),
    }
}

/// `PROGRAM | CHANGE | JUDGEMENT`: the judgement on the table that is found and then changed.
fn judgement_row(alloc: Global, given: &Row) -> Outcome {
    let board = board(alloc, given.text()?)?;
    let (text, cell) = given.two()?;
    let program = program(alloc, &board, text)?;
    let mut table = found_table(alloc, &board, &program)?;
    change(alloc, &mut table, cell)?;
    let judgement = judge(alloc, &board, &program, &table)?;
    Ok(format!(in alloc; "{judgement:?}")?)
}

/// What a row of some kind comes out as.
pub(crate) fn outcome(alloc: Global, kind: &str, given: &Row) -> Outcome {
    match kind {
        "judgement" => judgement_row(alloc, given),
        _ => Err(Flaw::Kind.error()),
    }
}
