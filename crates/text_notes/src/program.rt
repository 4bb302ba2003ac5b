//! Notes on programs.

ghost use Rattle.std.specs.Prelude.{◌≡◌, codes, option_copied, IfOk, None, IsSomeAnd};
ghost use Rattle.std.specs.Prelude.{MatchOption};
ghost use Rattle.texts.specs.Words.{lines_by_feed};
ghost use Rattle.seq_program.specs.Faults.{line_of};
ghost use Rattle.notes.specs.Notes.{IsOn, IsQuoting};
ghost use Rattle.text_notes.specs.Programs.{IsWritten};

mod bad_number;
mod bad_operand;
mod ending;
pub(crate) mod habit;
mod label;
mod units;
pub(crate) mod unknown_command;
pub(crate) mod unknown_target;
pub(crate) mod unknown_word;
pub(crate) mod usage;

use crate::Result;
use crate::column::blamed_word;
use crate::program::bad_number::{Misplaced, bad_number};
use crate::program::bad_operand::bad_operand;
use crate::program::ending::{no_end, too_long};
use crate::program::label::{LabelLines, labels_for, same_label, unknown_label};
use crate::program::unknown_command::unknown_command;
use crate::program::unknown_target::unknown_target;
use crate::program::unknown_word::unknown_word;
use board::Board;
use notes::{Level, Note, line_at};
use sentences::{Remark, marked, note_on, say};
use seq_program::ProgramFault;
use std::alloc::Global;
use texts::{without_comment, words_of};

/// A program's text, for a board, and its labels, which notes on some of its faults name.
#[derive(Drop)]
pub struct Written<'a> {
    board: &'a Board,
    text: &'a str,
    labels: LabelLines<'a>,
}

/// What is said of a fault on a line of these words.
fn remark_on(
    alloc: Global,
    written: &Written<'_>,
    words: &[&str],
    fault: ProgramFault,
) -> Result<Remark> {
    let Written {
        board,
        text,
        labels,
    } = written;
    match fault {
        ProgramFault::Memory => say!["out of memory"].alone().told(alloc),
        ProgramFault::UnknownWord(_) => unknown_word(alloc, words),
        ProgramFault::BadNumber {
            word,
            low,
            high,
            ..
        } => {
            let word = words.get(word).copied().unwrap_or("");
            bad_number(board, words, Misplaced { word, low, high }).told(alloc)
        }
        ProgramFault::UnknownTarget(_) => unknown_target(alloc, board, words),
        ProgramFault::UnknownCommand(_, byte, word) => unknown_command(alloc, words, &[byte, word]),
        ProgramFault::UnknownLabel(_) => unknown_label(alloc, labels, words),
        ProgramFault::SameLabel(_) => same_label(alloc, labels, words),
        ProgramFault::NoEnd(_) => no_end(alloc, text),
        ProgramFault::TooLong(_) => too_long(alloc, text),
        ProgramFault::BadOperand(_, misfit) => bad_operand(words, misfit).told(alloc),
    }
}

impl<'a> Written<'a> {
    /// A program's text with what notes on these of its faults need. Fails only for want of memory.
    pub fn new(
        alloc: Global,
        board: &'a Board,
        text: &'a str,
        faults: &[ProgramFault],
    ) -> Result<Written<'a>>
        ensures { IfOk result (IsWritten board.now text.now) }
    {
        let labels = labels_for(alloc, text, faults)?;
        Ok(Written {
            board,
            text,
            labels,
        })
    }

    /// The note on a fault of this line, which has this number, with a mark below the word that is
    /// to blame. Fails only for want of memory.
    pub fn note_on(
        &self,
        alloc: Global,
        number: usize,
        line: Option<&str>,
        fault: ProgramFault,
    ) -> Result<Note>
        ensures { IfOk result
            (IsQuoting Level.Error (codes "%program") number (option_copied line.entry)) }
    {
        let said = line.unwrap_or("");
        let words = words_of(alloc, without_comment(said))?;
        let remark = remark_on(alloc, self, &words, fault)?;
        let at = blamed_word(said, &words, fault);
        let note = note_on(alloc, Level::Error, "%program", number, line, remark)?;
        marked(alloc, note, at)
    }
}

/// What a person needs to mend a text that is no program for a board: the fault's line with its
/// number, what is wrong with it, and what may help. `None` for `Memory`, which has no line.
///
/// The fault is to be the one that `read_program` answers for the text. Of another fault the note
/// still names its line, and quotes it if the text has it. Fails only for want of memory.
pub fn program_note(
    alloc: Global,
    board: &Board,
    text: &str,
    fault: ProgramFault,
) -> Result<Option<Note>>
    ensures { IfOk result (λ note. MatchOption (line_of fault)
        (note ≡ None)
        (λ number. IsSomeAnd note
        (IsOn Level.Error (codes "%program") number (lines_by_feed text.now)))) }
{
    let Some(number) = fault.line() else {
        return Ok(None);
    };
    let written = Written::new(alloc, board, text, &[fault])?;
    Ok(Some(written.note_on(alloc, number, line_at(text, number), fault)?))
}
