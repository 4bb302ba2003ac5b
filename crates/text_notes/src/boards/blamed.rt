//! The table of a board file that has its fault.

use crate::Result;
use crate::boards::describe::name_of;
use crate::boards::draft::{Draft, items_at};
use crate::boards::key_words::holds;
use board::{Key, Place};
use sentences::Word::{Name, Text};
use sentences::{Sentence, Word, say};
use std::alloc::Global;
use toml::{Table, Value};

/// A table that has the fault of its file, and what it is called.
#[derive(Drop)]
pub(crate) struct Blamed<'a> {
    pub draft: &'a Draft<'a>,
    pub place: Place,
    pub table: &'a Table,
    name: String,
}

impl<'a> Blamed<'a> {
    pub(crate) fn new(
        alloc: Global,
        draft: &'a Draft<'a>,
        place: Place,
        table: &'a Table,
    ) -> Result<Blamed<'a>> {
        Ok(Blamed {
            draft,
            place,
            table,
            name: name_of(alloc, draft, place)?,
        })
    }

    /// What the table is called, in a sentence.
    pub(crate) fn word(&self) -> Word<'_> {
        Text(&self.name)
    }

    /// What stands at a key of the table.
    pub(crate) fn value(&self, key: Key) -> Option<&'a Value> {
        self.table.get(key.name())
    }

    /// The text at a key of the table, empty where there is none.
    pub(crate) fn text(&self, key: Key) -> &'a str {
        self.draft.text(self.place, key.name()).unwrap_or("")
    }

    /// An item of the list at a key of the table.
    pub(crate) fn item(&self, key: Key, index: usize) -> Option<&'a Value> {
        items_at(self.table, key.name()).get(index)
    }

    /// What stands at a key of such tables, as help.
    pub(crate) fn key_help(&self, key: Key) -> Option<Sentence<'static>> {
        let holds = Text(holds(self.place, key)?);
        Some(say![{Name(key.name())} " is " {holds}])
    }
}
