//! The lines of a board file that say something.

ghost use Rattle.std.specs.Prelude.{◌≡◌, All, IfOk, option_copied};
ghost use Rattle.text_notes.specs.Boards.{IsLineNumber, IsNumbered};
ghost use Rattle.notes.specs.Lines.{line_at};
ghost use Rattle.texts.specs.Words.{lines_by_feed};

use crate::Result;
use notes::line_at;
use std::alloc::Global;
use texts::first_by_feed;

/// Which quotation mark a text began with, while it lasts.
#[derive(Clone, Copy)]
pub(crate) struct Quotes {
    open: Option<u8>,
}

impl Quotes {
    /// Before any text.
    pub(crate) fn none() -> Quotes {
        Quotes { open: None }
    }

    /// Goes over a byte, and says whether it belongs to a text.
    pub(crate) fn take_in(&mut self, byte: u8) -> bool {
        match self.open {
            Some(mark) => {
                if byte == mark {
                    self.open = None;
                }
                true
            }
            None => {
                if byte == b'"' || byte == b'\'' {
                    self.open = Some(byte);
                }
                self.open.is_some()
            }
        }
    }
}

/// A line without its comment and the spaces around it.
pub(crate) fn without_comment(line: &str) -> &str {
    let mut quotes = Quotes::none();
    for (index, byte) in line.bytes().enumerate() {
        if !quotes.take_in(byte) && byte == b'#' {
            return line.get(..index).unwrap_or(line).trim();
        }
    }
    line.trim()
}

/// A line that says something, with its number, counted from 1.
#[derive(Clone, Copy)]
pub(crate) struct SayingLine<'a> {
    pub number: usize,
    pub line: &'a str,
}

/// The lines of a text that say something. A file may have many millions of others.
pub(crate) fn saying_lines(alloc: Global, text: &str) -> Result<Vec<SayingLine<'_>>>
    ensures { IfOk result (λ found. All (IsNumbered (lines_by_feed text.now)) found.items) }
{
    let mut found = Vec::new(alloc);
    let mut above = 0;
    let mut rest = text;
    while let Some((line, below)) = first_by_feed(rest) {
        let number = above + 1;
        if !without_comment(line).is_empty() {
            found.push(SayingLine { number, line })?;
        }
        above = number;
        rest = below;
    }
    Ok(found)
}

/// A line of a text with its number, or the first, which an empty text hasn't.
#[derive(Clone, Copy)]
pub(crate) struct NamedLine<'a> {
    pub number: usize,
    pub line: Option<&'a str>,
}

/// The line at a place among those that say something, or the first of the text.
pub(crate) fn line_or_first<'a>(
    text: &'a str,
    lines: &[SayingLine<'a>],
    place: Option<usize>,
) -> NamedLine<'a>
    requires { All (IsNumbered (lines_by_feed text.now)) lines.now }
    ensures number { IsLineNumber (lines_by_feed text.now) result.number }
    ensures line { option_copied result.line ≡ line_at result.number (lines_by_feed text.now) }
{
    let found = match place {
        Some(place) => lines.get(place),
        None => None,
    };
    match found {
        Some(SayingLine { number, line }) => NamedLine {
            number: *number,
            line: Some(*line),
        },
        None => NamedLine {
            number: 1,
            line: line_at(text, 1),
        },
    }
}
