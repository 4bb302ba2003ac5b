//! Warnings of boards.

ghost use Rattle.std.specs.Prelude.{◌≡◌, IfOk, string_bytes};
ghost use Rattle.diagnostics.specs.Warnings.{WarnsOfBoard, board_lines};
ghost use Rattle.session.specs.Parts.{sections_view};
ghost use Rattle.texts.specs.Words.{lines_by_feed};

use crate::Result;
use board::Board;
use board_lints::lints_on;
use bundles::Section;
use notes::Note;
use seq_program::Program;
use session::section_of;
use std::alloc::Global;
use text_notes::lint_notes;

/// The text of a bundle's board, or nothing.
fn board_text(alloc: Global, sections: &[Section<'_>]) -> Result<String>
    ensures { IfOk result (λ text. lines_by_feed (string_bytes text)
        ≡ board_lines (sections_view sections.now)) }
{
    match section_of(alloc, sections, 0)? {
        Some(text) => Ok(text),
        None => Ok(String::new(alloc)),
    }
}

/// What of the board of a bundle may be meant otherwise, each with its line: needs that go round in
/// a circle, a rail that no entry of its target can turn on, a limit that no voltage can break, and
/// start values with which a target doesn't take what the program sends it.
pub(crate) fn board_warnings(
    alloc: Global,
    sections: &[Section<'_>],
    board: &Board,
    program: &Program,
) -> Result<Vec<Note>>
    ensures { IfOk result (λ notes.
        WarnsOfBoard (sections_view sections.now) board.now program.now notes.items) }
{
    let lints = lints_on(alloc, board, program)?;
    if lints.is_empty() {
        return Ok(Vec::new(alloc));
    }
    let text = board_text(alloc, sections)?;
    lint_notes(alloc, &text, board, &lints)
}
