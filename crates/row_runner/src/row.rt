//! A row, and why it is none.

use std::alloc::{AllocError, Global};
use texts::ReadError;

/// Why a line is no row of its kind.
#[derive(Clone, Copy, Debug, PartialEq, Eq)]
pub(crate) enum Flaw {
    /// The layer has no rows of this kind.
    Kind,
    /// The section names another number of texts than such rows need.
    Texts,
    /// Rows of this kind have another number of cells.
    Cells,
    /// A cell isn't what such a cell says.
    Cell(&'static str),
}

impl Flaw {
    pub(crate) fn error(self) -> ReadError<Flaw> {
        ReadError::Fault(self)
    }

    /// What is printed of it.
    pub(crate) fn text(self, alloc: Global) -> Result<String, AllocError> {
        match self {
            Flaw::Kind => format!(in alloc; "there are no rows of this kind"),
            Flaw::Texts => format!(in alloc; "the section needs another number of texts"),
            Flaw::Cells => format!(in alloc; "a row of this kind has another number of cells"),
            Flaw::Cell(what) => format!(in alloc; "not a row: no {what}"),
        }
    }
}

/// What a row comes out as, or why it is none.
pub(crate) type Outcome<T = String> = Result<T, ReadError<Flaw>>;

/// A row: the texts that its section names, and its cells but the last, which says what it comes
/// out as.
#[derive(Drop)]
pub(crate) struct Row {
    pub(crate) texts: Vec<String>,
    pub(crate) cells: Vec<String>,
}

impl Row {
    /// The one text of its section.
    pub(crate) fn text(&self) -> Outcome<&str> {
        match self.texts.as_slice() {
            [text] => Ok(text),
            _ => Err(Flaw::Texts.error()),
        }
    }

    /// The two texts of its section.
    pub(crate) fn two_texts(&self) -> Outcome<(&str, &str)> {
        match self.texts.as_slice() {
            [first, second] => Ok((first, second)),
            _ => Err(Flaw::Texts.error()),
        }
    }

    /// Its one cell.
    pub(crate) fn one(&self) -> Outcome<&str> {
        match self.cells.as_slice() {
            [first] => Ok(first),
            _ => Err(Flaw::Cells.error()),
        }
    }

    /// Its two cells.
    pub(crate) fn two(&self) -> Outcome<(&str, &str)> {
        match self.cells.as_slice() {
            [first, second] => Ok((first, second)),
            _ => Err(Flaw::Cells.error()),
        }
    }

    /// Its three cells.
    pub(crate) fn three(&self) -> Outcome<(&str, &str, &str)> {
        match self.cells.as_slice() {
            [first, second, third] => Ok((first, second, third)),
            _ => Err(Flaw::Cells.error()),
        }
    }
}
