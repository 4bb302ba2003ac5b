//! What cells say.

use crate::row::{Flaw, Outcome};
use board::{Board, read_board};
use fact_search::find;
use seq_program::{Program, number_within, read_program};
use std::alloc::{AllocError, Global};
use std::fmt::Debug;
use table_check::Table;
use texts::{ReadError, pairs_of};

/// The character that a letter after a backslash means.
fn meaning(letter: char) -> char {
    match letter {
        'n' => '\n',
        'r' => '\r',
        't' => '\t',
        's' => ' ',
        'p' => '|',
        other => other,
    }
}

/// A cell's text: `\n`, `\r` and `\t` as in Rust, `\s` for a space, `\p` for `|`; any other
/// character after a backslash is itself.
pub(crate) fn unescaped(alloc: Global, cell: &str) -> Result<String, AllocError> {
    let mut text = String::new(alloc);
    let mut is_escaped = false;
    for letter in cell.chars() {
        if is_escaped {
            text.push(meaning(letter))?;
            is_escaped = false;
        } else if letter == '\\' {
            is_escaped = true;
        } else {
            text.push(letter)?;
        }
    }
    Ok(text)
}

/// A text as a cell has it.
pub(crate) fn escaped(alloc: Global, text: &str) -> Result<String, AllocError> {
    let mut cell = String::new(alloc);
    for letter in text.chars() {
        match letter {
            '\n' => cell.push_str("\\n")?,
            '\r' => cell.push_str("\\r")?,
            '\t' => cell.push_str("\\t")?,
            '|' => cell.push_str("\\p")?,
            '\\' => cell.push_str("\\\\")?,
            other => cell.push(other)?,
        }
    }
    Ok(cell)
}

/// A number, decimal or after `0x`.
pub(crate) fn number(cell: &str, most: u32) -> Outcome<u32> {
    number_within(0, most, cell).ok_or(Flaw::Cell("number").error())
}

/// A byte, decimal or after `0x`.
pub(crate) fn byte(cell: &str) -> Outcome<u8> {
    match u8::try_from(number(cell, 255)?) {
        Ok(byte) => Ok(byte),
        Err(_) => Err(Flaw::Cell("byte").error()),
    }
}

/// A number of 16 bits, decimal or after `0x`.
pub(crate) fn word(cell: &str) -> Outcome<u16> {
    match u16::try_from(number(cell, 65_535)?) {
        Ok(word) => Ok(word),
        Err(_) => Err(Flaw::Cell("number").error()),
    }
}

/// An index or a count.
pub(crate) fn count(cell: &str) -> Outcome<usize> {
    Ok(number(cell, 65_535)? as usize)
}

/// Bytes, each of two digits, `-` for none.
pub(crate) fn bytes(alloc: Global, cell: &str) -> Outcome<Vec<u8>> {
    if cell == "-" {
        return Ok(Vec::new(alloc));
    }
    pairs_of(alloc, cell)?.ok_or(Flaw::Cell("bytes").error())
}

/// A board file.
pub(crate) fn board(alloc: Global, text: &str) -> Outcome<Box<Board>> {
    match read_board(alloc, text) {
        Ok(board) => Ok(Box::new(alloc, board)?),
        Err(_) => Err(Flaw::Cell("board").error()),
    }
}

/// A program for a board.
pub(crate) fn program(alloc: Global, board: &Board, text: &str) -> Outcome<Program> {
    match read_program(alloc, board, text) {
        Ok(program) => Ok(program),
        Err(_) => Err(Flaw::Cell("program").error()),
    }
}

/// The table that is found for a program.
pub(crate) fn found_table(alloc: Global, board: &Board, program: &Program) -> Outcome<Table> {
    match find(alloc, board, program) {
        Ok(table) => Ok(table),
        Err(_) => Err(Flaw::Cell("program with a table").error()),
    }
}

/// A value as Debug prints it.
pub(crate) fn shown<T: Debug + Drop>(alloc: Global, value: T) -> Outcome {
    Ok(format!(in alloc; "{value:?}")?)
}

/// A value as Debug prints it, `-` where none is there.
pub(crate) fn or_dash<T: Debug + Drop>(alloc: Global, value: Option<T>) -> Outcome {
    match value {
        Some(value) => shown(alloc, value),
        None => Ok("-".to_string(alloc)?),
    }
}

/// A reader's fault as Debug prints it.
pub(crate) fn fault<F: Debug + Drop>(alloc: Global, error: ReadError<F>) -> Outcome {
    match error {
        ReadError::Fault(fault) => shown(alloc, fault),
        ReadError::Memory => Err(ReadError::Memory),
    }
}
