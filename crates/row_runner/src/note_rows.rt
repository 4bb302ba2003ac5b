//! Rows of notes: on texts that can't be read, and on what became of whole inputs.

use crate::cells::{board, number};
use crate::row::{Flaw, Outcome, Row};
use board::read_board;
use diagnostics::{Beside, answer};
use notes::{InFile, Note};
use seq_program::read_program;
use std::alloc::Global;
use text_notes::{board_note, program_note};

/// A note as it is printed on its section, and nothing where there is none.
fn note_text(alloc: Global, note: Option<Note>) -> Outcome {
    match note {
        Some(note) => {
            let name = &note.section;
            let text = InFile { name, note: &note };
            let text = format!(in alloc; "{text}");
            drop(note);
            Ok(text?)
        }
        None => Ok(String::new(alloc)),
    }
}

/// The note on a program that can't be read; nothing where it can.
fn on_program(alloc: Global, board_text: &str, text: &str) -> Outcome {
    let board = board(alloc, board_text)?;
    match read_program(alloc, &board, text) {
        Ok(program) => {
            drop(program);
            Ok(String::new(alloc))
        }
        Err(fault) => note_text(alloc, program_note(alloc, &board, text, fault)?),
    }
}

/// The note on a board file that can't be read; nothing where it can.
fn on_board(alloc: Global, text: &str) -> Outcome {
    match read_board(alloc, text) {
        Ok(board) => {
            drop(board);
            Ok(String::new(alloc))
        }
        Err(fault) => note_text(alloc, board_note(alloc, text, fault)?),
    }
}

/// `BOARD | TABLE | TIMES | NOTE`: the note on a board file that ends with so many tables.
fn tables_row(alloc: Global, given: &Row) -> Outcome {
    let (front, table, times) = given.three()?;
    let tables = table.repeat(alloc, number(times, 100)? as usize)?;
    on_board(alloc, &format!(in alloc; "{front}{tables}")?)
}

/// `COMMAND | REST | NOTES`: all notes on a bundle of a command, the section's board and a rest.
fn bundle_row(alloc: Global, given: &Row, beside: Beside) -> Outcome {
    let board = given.text()?;
    let (command, rest) = given.two()?;
    let input = format!(in alloc; "{command}\n%board\n{board}{rest}")?;
    let mut output = Vec::new(alloc);
    match answer(alloc, &mut input.as_bytes(), &mut output, beside) {
        Ok(answered) => {
            let text = format!(in alloc; "{}", answered.notes);
            drop(answered);
            Ok(text?)
        }
        Err(_) => Err(Flaw::Cell("input with an answer").error()),
    }
}

/// What a row of some kind comes out as, whole.
fn whole(alloc: Global, kind: &str, given: &Row) -> Outcome {
    match kind {
        "program" => on_program(alloc, given.text()?, given.one()?),
        "tables" => tables_row(alloc, given),
        "bundle" => bundle_row(alloc, given, Beside::Nothing),
        "bound" => bundle_row(alloc, given, Beside::Bound),
        _ => Err(Flaw::Kind.error()),
    }
}

/// Which part of a text is wanted.
#[derive(Clone, Copy, PartialEq, Eq)]
enum Wanted {
    Beginning,
    End,
}

/// A row without its last cell.
fn shorter(given: &Row) -> Outcome<Row> {
    let texts = given.texts.clone()?;
    let mut cells = given.cells.clone()?;
    let _last = cells.pop();
    Ok(Row { texts, cells })
}

/// `.. | PART | yes`: whether what a row comes out as has a part that is wanted, or all of it.
fn part(alloc: Global, kind: &str, given: &Row, wanted: Wanted) -> Outcome {
    let Some(part) = given.cells.last() else {
        return Err(Flaw::Cells.error());
    };
    let text = whole(alloc, kind, &shorter(given)?)?;
    let is_there = match wanted {
        Wanted::Beginning => text.starts_with(part.as_str()),
        Wanted::End => text.ends_with(part.as_str()),
    };
    if is_there {
        Ok("yes".to_string(alloc)?)
    } else {
        Ok(text)
    }
}

/// What a row of some kind comes out as.
pub(crate) fn outcome(alloc: Global, kind: &str, given: &Row) -> Outcome {
    if let Some(kind) = kind.strip_suffix("_begins") {
        return part(alloc, kind, given, Wanted::Beginning);
    }
    match kind.strip_suffix("_ends") {
        Some(kind) => part(alloc, kind, given, Wanted::End),
        None => whole(alloc, kind, given),
    }
}
