//! Rows of facts, said as the lines of a table that change another row's.

use crate::row::{Flaw, Outcome};
use board::Board;
use facts::Row;
use std::alloc::{AllocError, Global};
use table_check::{Table, read_table, shaped, write_table};
use texts::cut_at_space;

/// What a line of a row is about: `good`, or `page a`.
fn subject_of(line: &str) -> (&str, &str) {
    let (first, rest) = cut_at_space(line).unwrap_or((line, ""));
    match first {
        "good" | "lost" | "ticks" => (first, ""),
        _ => (first, cut_at_space(rest).unwrap_or((rest, "")).0),
    }
}

/// The line among some changes that is about the same as a row's line, or that line.
fn changed_line<'a>(line: &'a str, changes: &'a str) -> &'a str {
    for change in changes.split(';') {
        let change = change.trim();
        if subject_of(change) == subject_of(line) {
            return change;
        }
    }
    line
}

/// The text of a table of one row: another row's lines, some of them changed.
fn table_text(alloc: Global, base: &str, changes: &str) -> Result<String, AllocError> {
    let mut text = "version 2\nrow 0\n".to_string(alloc)?;
    for line in base.lines() {
        if !line.is_empty() {
            text.push_str(changed_line(line, changes))?;
            text.push('\n')?;
        }
    }
    Ok(text)
}

/// The row whose lines are those of another, but for some changes.
pub(crate) fn row(alloc: Global, board: &Board, base: &str, changes: &str) -> Outcome<Row> {
    let text = table_text(alloc, base, changes)?;
    match read_table(alloc, board, &text) {
        Ok(table) => only_row(table),
        Err(_) => Err(Flaw::Cell("row of a table").error()),
    }
}

/// The row of a table that has one.
fn only_row(mut table: Table) -> Outcome<Row> {
    match table.rows.pop() {
        Some(Some(row)) => Ok(row),
        _ => Err(Flaw::Cell("row of a table").error()),
    }
}

/// The text of a table of this row.
fn text_of_row(alloc: Global, board: &Board, row: Row) -> Outcome {
    let mut rows = Vec::new(alloc);
    rows.push(Some(row))?;
    let table = Table { rows };
    if !shaped(board, &table) {
        return Err(Flaw::Cell("row of this board").error());
    }
    Ok(write_table(alloc, board, &table)?)
}

/// The lines of a row that another row hasn't, `-` for none.
pub(crate) fn changes(alloc: Global, board: &Board, base: &str, row: Row) -> Outcome {
    let text = text_of_row(alloc, board, row)?;
    let mut changes = String::new(alloc);
    for (line, old) in text.lines().skip(2).zip(base.lines()) {
        if line != old {
            changes.push_str(if changes.is_empty() { "" } else { "; " })?;
            changes.push_str(line)?;
        }
    }
    if changes.is_empty() {
        changes.push('-')?;
    }
    Ok(changes)
}
