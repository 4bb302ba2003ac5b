//! A board file that has a fault, and its tables.

use crate::Result;
use crate::boards::lines::{SayingLine, saying_lines};
use board::{BoardFault, Place};
use std::alloc::Global;
use toml::{Table, Value};

/// A board file with its fault.
#[derive(Drop)]
pub(crate) struct Draft<'a> {
    pub lines: Vec<SayingLine<'a>>,
    pub tree: &'a Table,
    pub targets: &'a [Value],
    pub rails: &'a [Value],
    pub fault: BoardFault,
}

/// The items of the list at a key, none where there is no list.
pub(crate) fn items_at<'a>(table: &'a Table, key: &str) -> &'a [Value] {
    match table.get(key) {
        Some(Value::Array(items)) => items.as_slice(),
        _ => &[],
    }
}

fn table_in(items: &[Value], index: usize) -> Option<&Table> {
    items.get(index)?.as_table()
}

impl<'a> Draft<'a> {
    pub(crate) fn new(
        alloc: Global,
        text: &'a str,
        tree: &'a Table,
        fault: BoardFault,
    ) -> Result<Draft<'a>> {
        Ok(Draft {
            lines: saying_lines(alloc, text)?,
            tree,
            targets: items_at(tree, "target"),
            rails: items_at(tree, "rail"),
            fault,
        })
    }

    /// The table that stands there.
    pub(crate) fn table(&self, place: Place) -> Option<&'a Table> {
        match place {
            Place::Board => Some(self.tree),
            Place::Target(index) => table_in(self.targets, index),
            Place::Entry { target, entry } => {
                let target = table_in(self.targets, target)?;
                table_in(items_at(target, "allow"), entry)
            }
            Place::Rail(index) => table_in(self.rails, index),
        }
    }

    /// What stands at a key of that table.
    pub(crate) fn value(&self, place: Place, key: &str) -> Option<&'a Value> {
        self.table(place)?.get(key)
    }

    /// The text at a key of that table.
    pub(crate) fn text(&self, place: Place, key: &str) -> Option<&'a str> {
        self.value(place, key)?.as_str()
    }
}
