//! A note: where in an input something is wrong or suspicious, what, and what may help.

ghost use Rattle.std.specs.Prelude.{IfOk, option_copied};
ghost use Rattle.texts.specs.Words.{lines_by_feed};
ghost use Rattle.notes.specs.Notes.{IsMarked, IsOn, IsQuoting, StaysOn};

use crate::level::Level;
use crate::lines::line_at;
use crate::mark::{column_behind, mark_of};
use crate::shown::{is_plain, shown_line};
use std::alloc::{AllocError, Global};

/// What a person is told of a line of an input.
#[derive(Debug, Drop)]
pub struct Note {
    pub level: Level,
    /// The section of the input, or the file that stands for it.
    pub section: String,
    /// The number of the line, counted from 1.
    pub line: usize,
    /// Where in the line the word begins that it is about, in characters, counted from 1.
    pub column: Option<usize>,
    /// The line, as it is shown.
    pub source: Option<String>,
    /// What stands below it and marks the word.
    pub mark: Option<String>,
    /// What is said of it.
    pub message: String,
    /// What is known beside, each in a line.
    pub facts: Vec<String>,
    /// What may help, each in a line.
    pub helps: Vec<String>,
    /// What `pmseq explain` has more on.
    pub page: Option<&'static str>,
}

impl Note {
    /// A note on a line of a section, which has this number, and so far without a word. Fails only
    /// for want of memory.
    pub fn quoting(
        alloc: Global,
        level: Level,
        section: &str,
        number: usize,
        line: Option<&str>,
    ) -> Result<Note, AllocError>
        ensures { IfOk result (IsQuoting level section.now number (option_copied line.entry)) }
    {
        Ok(Note {
            level,
            section: String::from_str(alloc, section)?,
            line: number,
            column: None,
            source: shown_line(alloc, line)?,
            mark: None,
            message: String::new(alloc),
            facts: Vec::new(alloc),
            helps: Vec::new(alloc),
            page: None,
        })
    }

    /// A note on the line of a section with this text that has this number, and so far without a
    /// word. Fails only for want of memory.
    pub fn on(
        alloc: Global,
        level: Level,
        section: &str,
        text: &str,
        number: usize,
    ) -> Result<Note, AllocError>
        ensures { IfOk result (IsOn level section.now number (lines_by_feed text.now)) }
    {
        Note::quoting(alloc, level, section, number, line_at(text, number))
    }

    /// The same with the column of a word, which stands in its line behind this, and with a mark
    /// below it, where neither has a control character or over 200 bytes. Fails only for want of
    /// memory.
    pub fn marking(self, alloc: Global, before: &str, word: &str) -> Result<Note, AllocError>
        ensures marked { IfOk result (IsMarked before.now word.now self) }
        ensures line { IfOk result (StaysOn self) }
    {
        let column = Some(column_behind(before));
        let mark = if is_plain(before) && is_plain(word) {
            Some(mark_of(alloc, before, word)?)
        } else {
            None
        };
        Ok(Note {
            column,
            mark,
            ..self
        })
    }
}
