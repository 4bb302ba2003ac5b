//! Rows of boards: what their files are read as, their faults and their lints.

use crate::cells::{board, byte, count, or_dash, program, shown};
use crate::row::{Flaw, Outcome, Row};
use crate::step_cells::message;
use board::{Allow, Board, full_length, full_values, is_page_value, is_target_address, read_board};
use board_lints::lints_on;
use pmbus_table::name_of;
use smbus::{Form, form_named};
use std::alloc::Global;

fn form(cell: &str) -> Outcome<Form> {
    form_named(cell).ok_or(Flaw::Cell("form").error())
}

/// The address, the pages, the exponent and the stretch of a target, and whether it alerts.
fn numbers(board: &Board, index: usize) -> Option<(u8, u8, i8, u16, bool)> {
    let target = board.target(index)?;
    let (address, pages, exponent) = (target.address(), target.pages(), target.exponent());
    Some((address, pages, exponent, target.stretch(), target.alerts()))
}

/// The start values of a target, and the number of its entries.
fn starts(alloc: Global, board: &Board, index: usize) -> Outcome {
    let Some(target) = board.target(index) else {
        return Ok("-".to_string(alloc)?);
    };
    let (pages, protects) = (target.start_pages(), target.start_protects());
    let count = target.allow().len();
    Ok(format!(in alloc; "({pages:?}, {protects:?}, {count})")?)
}

/// The target, the page, the limit and the needs of a rail.
fn rail(board: &Board, index: usize) -> Option<(usize, u8, u32, &[usize])> {
    let rail = board.rail(index)?;
    Some((rail.target(), rail.page(), rail.limit_uv(), rail.needs()))
}

/// `INDEX | PART`: a part of a target or a rail.
fn part_row(alloc: Global, kind: &str, given: &Row) -> Outcome {
    let board = board(alloc, given.text()?)?;
    let index = count(given.one()?)?;
    match kind {
        "target" => or_dash(alloc, numbers(&board, index)),
        "starts" => starts(alloc, &board, index),
        "rail" => or_dash(alloc, rail(&board, index)),
        "target_name" => or_dash(alloc, board.target_name(index)),
        _ => or_dash(alloc, board.rail_name(index)),
    }
}

/// `WORD | NUMBER`: the index of an address or a name, the number of targets or rails, or the
/// largest stretch.
fn number_row(alloc: Global, kind: &str, given: &Row) -> Outcome {
    let board = board(alloc, given.text()?)?;
    match (kind, given.one()?) {
        ("target_at", address) => or_dash(alloc, board.target_at(byte(address)?)),
        ("target_named", name) => or_dash(alloc, board.target_named(name)),
        ("rail_named", name) => or_dash(alloc, board.rail_named(name)),
        (_, "targets") => shown(alloc, board.targets().len()),
        (_, "rails") => shown(alloc, board.rails().len()),
        (_, "largest_stretch") => shown(alloc, board.largest_stretch()),
        _ => Err(Flaw::Cell("count").error()),
    }
}

/// The form, the command, the values and the length of an entry.
fn entry_text(alloc: Global, entry: &Allow) -> Outcome {
    let (form, values, length) = (entry.form(), entry.values(), entry.length());
    let name = match entry.command() {
        Some(command) => name_of(alloc, command)?,
        None => "-".to_string(alloc)?,
    };
    Ok(format!(in alloc; "{form:?} {name} {values:?} {length:?}")?)
}

/// `INDEX | FORM | CODE | ENTRY`: the entry of a target for a form and a code, or whether there is
/// one.
fn entry_row(alloc: Global, kind: &str, given: &Row) -> Outcome {
    let board = board(alloc, given.text()?)?;
    let (index, word, code) = given.three()?;
    let (index, form, code) = (count(index)?, form(word)?, byte(code)?);
    if kind == "has_entry" {
        let target = board.target(index).ok_or(Flaw::Cell("target").error())?;
        return shown(alloc, target.entry(form, code).is_some());
    }
    match board.entry_at(index, form, code) {
        Some(entry) => entry_text(alloc, entry),
        None => Ok("-".to_string(alloc)?),
    }
}

/// `MESSAGE | VALUES`: the values of what a message reads, if its target takes it.
fn values_row(alloc: Global, given: &Row) -> Outcome {
    let board = board(alloc, given.text()?)?;
    let Some(message) = message(alloc, given.one()?)? else {
        return Err(Flaw::Cell("message").error());
    };
    or_dash(alloc, board.entry_for(&message).map(|entry| entry.values()))
}

/// The text of a row, or its section's text with one text replaced by another.
fn text(alloc: Global, given: &Row) -> Outcome {
    match given.cells.as_slice() {
        [text] => Ok(text.clone()?),
        [old, new] => Ok(given.text()?.replace(alloc, old.as_str(), new)?),
        _ => Err(Flaw::Cells.error()),
    }
}

/// `TEXT | FAULT` or `OLD | NEW | FAULT`: the kind of a board's fault, its table and its key, or
/// its number, its name and its text.
fn fault_row(alloc: Global, kind: &str, given: &Row) -> Outcome {
    let Some(fault) = read_board(alloc, &text(alloc, given)?).err() else {
        return Ok("-".to_string(alloc)?);
    };
    if kind == "fault_words" {
        return Ok(format!(in alloc; "{} {} {fault}", fault.number(), fault.name())?);
    }
    let site = fault.site;
    Ok(format!(in alloc; "{:?} {:?} {:?}", fault.kind, site.table, site.at)?)
}

/// `LINTS`: those of a board with a program that does nothing.
fn lint_row(alloc: Global, given: &Row) -> Outcome {
    let board = board(alloc, given.text()?)?;
    let program = program(alloc, &board, "end")?;
    shown(alloc, lints_on(alloc, &board, &program)?)
}

/// What a row of some kind comes out as.
pub(crate) fn outcome(alloc: Global, kind: &str, given: &Row) -> Outcome {
    match kind {
        "target" | "starts" | "rail" | "target_name" | "rail_name" => part_row(alloc, kind, given),
        "target_at" | "target_named" | "rail_named" | "count" => number_row(alloc, kind, given),
        "entry" | "has_entry" => entry_row(alloc, kind, given),
        "entry_for" => values_row(alloc, given),
        "fault" | "fault_words" => fault_row(alloc, kind, given),
        "lints" => lint_row(alloc, given),
        "page_value" => {
            let (pages, value) = given.two()?;
            shown(alloc, is_page_value(byte(pages)?, byte(value)?))
        }
        "full_values" => shown(alloc, full_values(form(given.one()?)?).high),
        "full_length" => shown(alloc, full_length()),
        "target_address" => shown(alloc, is_target_address(byte(given.one()?)?)),
        _ => Err(Flaw::Kind.error()),
    }
}
