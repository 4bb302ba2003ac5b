//! What is wrong in the other lines of a program, beside the fault that its reply tells.

ghost use Rattle.std.specs.Prelude.{◌≡◌, Some, IfOk, map, All};
ghost use Rattle.std.specs.List.{filter_map};
ghost use Rattle.diagnostics.specs.OtherErrors.{AreOthers, AreOthersOf, IsError, NoneIsLeft};
ghost use Rattle.diagnostics.specs.OtherErrors.{untold_text};
ghost use Rattle.diagnostics.specs.ProgramPlaces.{program_lines};
ghost use Rattle.seq_program.specs.Faults.{line_of};
ghost use Rattle.session.specs.Parts.{sections_view};
ghost use Rattle.texts.specs.Words.{lines_by_feed};

use crate::Result;
use crate::input::program_text;
use board::Board;
use bundles::Section;
use notes::{LineFinder, Note};
use seq_program::{LineFaults, ProgramFault, other_faults};
use session::{Case, Outcome, Unread};
use std::alloc::Global;
use std::fmt;
use text_notes::Written;

/// How many lines are told beside the first: twenty in all.
const MOST_TOLD: usize = 19;

/// How many lines have a fault that isn't told.
#[derive(Clone, Copy, Debug, PartialEq, Eq)]
pub struct Untold(pub usize);

/// A line that counts them, or nothing.
impl fmt::Display for Untold {
    ghost output = { λ u. Some (untold_text u.0) };

    fn fmt<W: fmt::Write>(&self, f: &mut fmt::Formatter<W>) -> fmt::Result {
        match self.0 {
            0 => Ok(()),
            1 => write!(f, "1 more line of the program has a fault\n"),
            count => write!(f, "{count} more lines of the program have faults\n"),
        }
    }
}

/// What is wrong in the other lines of a program.
#[derive(Debug, Drop)]
pub struct OtherErrors {
    /// A note on each of the first.
    pub notes: Vec<Note>,
    pub untold: Untold,
}

impl OtherErrors {
    /// Nothing.
    fn none(alloc: Global) -> OtherErrors
        ensures { NoneIsLeft result }
    {
        OtherErrors {
            notes: Vec::new(alloc),
            untold: Untold(0),
        }
    }
}

/// The notes on some faults of a program.
fn notes_of(alloc: Global, board: &Board, text: &str, faults: &[ProgramFault]) -> Result<Vec<Note>>
    ensures errors { IfOk result
        (λ notes. All (IsError (lines_by_feed text.now)) notes.items) }
    ensures lines { IfOk result
        (λ notes. map (λ n. n.line) notes.items ≡ filter_map line_of faults.now) }
{
    let written = Written::new(alloc, board, text, faults)?;
    let mut lines = LineFinder::of(text);
    let mut notes = Vec::new(alloc);
    for fault in faults {
        if let Some(number) = fault.line() {
            let line = lines.line_at(number);
            notes.push(written.note_on(alloc, number, line, *fault)?)?;
        }
    }
    Ok(notes)
}

/// What is wrong in the lines of a program other than this.
fn others_than(
    alloc: Global,
    sections: &[Section<'_>],
    board: &Board,
    line: usize,
) -> Result<OtherErrors>
    ensures { IfOk result
        (AreOthers board.now line (program_lines (sections_view sections.now))) }
{
    let text = program_text(alloc, sections)?;
    let LineFaults { first, more } = other_faults(alloc, board, &text, line, MOST_TOLD)?;
    let notes = notes_of(alloc, board, &text, &first)?;
    Ok(OtherErrors {
        notes,
        untold: Untold(more),
    })
}

/// What a person has to mend in the other lines of a program, where its reply tells a fault of one:
/// a note on each line that has a fault by itself, in their order, on 19 at most, and how many
/// there are more. Fails only for want of memory.
pub fn other_errors_on(alloc: Global, case: &Case<'_>) -> Result<OtherErrors>
    ensures { IfOk result
        (AreOthersOf (sections_view case.now.sections.items) case.now.outcome) }
{
    let Outcome::Unread(Unread::Program(board, fault)) = &case.outcome else {
        return Ok(OtherErrors::none(alloc));
    };
    match fault.line() {
        Some(line) => others_than(alloc, &case.sections, board, line),
        None => Ok(OtherErrors::none(alloc)),
    }
}
