//! Notes on board files.

ghost use Rattle.std.specs.Prelude.{◌≡◌, ◌≢◌, None, All, IfOk, length};
ghost use Rattle.board.specs.declared.fault.FaultKind.TheVariants.{Memory};
ghost use Rattle.texts.specs.Words.{lines_by_feed};
ghost use Rattle.text_notes.specs.Boards.{IsLineNumber, IsNumbered, IsOnBoardLine, IsOnSomeLine};

mod blamed;
mod describe;
mod draft;
mod finding;
mod foreign;
mod key_words;
mod keys;
mod lines;
mod lint;
mod not_toml;
mod scan;
mod twice;
mod values;
mod words;

use crate::Result;
use crate::boards::draft::Draft;
use crate::boards::finding::{Finding, finding_in};
use crate::boards::lines::{NamedLine, SayingLine, line_or_first, saying_lines};
use crate::boards::lint::{remark_of, site_of};
use crate::boards::not_toml::not_toml;
use crate::boards::scan::place_of;
use board::{Board, BoardFault, FaultKind, Place};
use board_lints::Lint;
use notes::{Level, Note, line_at};
use sentences::{Remark, marked, note_in, note_on};
use std::alloc::{AllocError, Global};
use toml::Table;
use toml::de::Error;

/// The line of a TOML document that a fault is told on, and what is said of it.
fn finding_in_tree<'a>(
    alloc: Global,
    text: &'a str,
    tree: &Table,
    fault: BoardFault,
) -> Result<Finding<'a>> {
    let draft = Draft::new(alloc, text, tree, fault)?;
    finding_in(alloc, &draft)
}

/// The same of a text that is no TOML document.
fn finding_of_error<'a>(alloc: Global, text: &'a str, error: &Error) -> Result<Finding<'a>> {
    if error.is_memory() {
        return Err(AllocError);
    }
    not_toml(alloc, text, error)
}

/// The line that a fault is told on, and what is said of it.
fn finding_on<'a>(alloc: Global, text: &'a str, fault: BoardFault) -> Result<Finding<'a>> {
    match toml::table_from_str(alloc, text) {
        Ok(tree) => finding_in_tree(alloc, text, &tree, fault),
        Err(error) => finding_of_error(alloc, text, &error),
    }
}

/// The number of a line, or 1 where the text hasn't that many.
fn number_within(text: &str, number: usize) -> usize
    ensures { IsLineNumber (lines_by_feed text.now) result }
{
    match line_at(text, number) {
        Some(_) => number,
        None => 1,
    }
}

/// What a person needs to mend a text that is no board: a line with its number, what is wrong
/// there, and what may help. `None` for `Memory`, which is no fault of the text.
///
/// The fault is to be the one that `read_board` answers for the text, and says at which key of
/// which table it is. That key's line is found by the looks of the lines: where a file is laid out
/// in an unusual way, a line above may be named. Fails only for want of memory.
pub fn board_note(alloc: Global, text: &str, fault: BoardFault) -> Result<Option<Note>>
    ensures memory { IfOk result (λ note. fault.kind ≡ Memory → note ≡ None) }
    ensures line { IfOk result (λ note. fault.kind ≢ Memory → IsOnSomeLine text.now note) }
{
    if let FaultKind::Memory = fault.kind {
        return Ok(None);
    }
    let finding = finding_on(alloc, text, fault)?;
    let Finding { number, remark, at } = finding;
    let number = number_within(text, number);
    let note = note_in(alloc, Level::Error, "%board", text, number, remark)?;
    Ok(Some(marked(alloc, note, at)?))
}

/// The note of a level on the line of a table's key.
fn key_note(
    alloc: Global,
    level: Level,
    text: &str,
    lines: &[SayingLine<'_>],
    site: (Place, &str),
    remark: Remark,
) -> Result<Note>
    requires { All (IsNumbered (lines_by_feed text.now)) lines.now }
    ensures { IfOk result (IsOnBoardLine level (lines_by_feed text.now)) }
{
    let (table, key) = site;
    let place = place_of(lines, table, Some(key));
    let NamedLine { number, line } = line_or_first(text, lines, place);
    note_on(alloc, level, "%board", number, line, remark)
}

/// The warnings of lints of a board with this text, each on a line of it: needs that go round in a
/// circle, a rail that no entry of its target can turn on, a limit that no voltage can break, and
/// start values with which a target doesn't take what the program sends it. Fails only for want of
/// memory.
pub fn lint_notes(alloc: Global, text: &str, board: &Board, lints: &[Lint]) -> Result<Vec<Note>>
    ensures lines { IfOk result
        (λ notes. All (IsOnBoardLine Level.Warning (lines_by_feed text.now)) notes.items) }
    ensures each { IfOk result (λ notes. length notes.items ≡ length lints.now) }
{
    let lines = saying_lines(alloc, text)?;
    let mut notes = Vec::new(alloc);
    for lint in lints {
        let remark = remark_of(alloc, board, lint)?;
        notes.push(key_note(alloc, Level::Warning, text, &lines, site_of(lint), remark)?)?;
    }
    Ok(notes)
}

/// What a person needs to mend a board with this text, of which this is said: the line of a table's
/// key, found by the looks of the lines. Fails only for want of memory.
pub fn site_note(alloc: Global, text: &str, table: Place, key: &str, remark: Remark) -> Result<Note>
    ensures { IfOk result (IsOnBoardLine Level.Error (lines_by_feed text.now)) }
{
    let lines = saying_lines(alloc, text)?;
    key_note(alloc, Level::Error, text, &lines, (table, key), remark)
}
