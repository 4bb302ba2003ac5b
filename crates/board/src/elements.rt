//! The tables of a list, and its texts.

ghost use Rattle.std.specs.Prelude.{◌≡◌};
ghost use Rattle.std.specs.Iterator.{YieldsFirstBy, YieldsFirstRef, item_count};
ghost use Rattle.toml.specs.View.{table_view};
ghost use Rattle.board.specs.Fields.{tables_at, texts_at};
ghost use Rattle.board.specs.Elements.{table_seen, tables_left, texts_left};

use crate::fields::items_at;
use crate::key::Key;
use toml::{Table, Value};

/// The tables of a list, in order: all its elements, where its key was checked.
#[derive(Clone, Copy)]
pub(crate) struct Tables<'a> {
    values: &'a [Value],
}

impl<'a> Iterator for Tables<'a> {
    type Item = &'a Table;

    ghost next_gives = { YieldsFirstBy table_seen tables_left };

    ghost remaining = { item_count tables_left };

    fn next(&mut self) -> Option<&'a Table> {
        while let Some((value, others)) = self.values.split_first() {
            self.values = others;
            if let Some(table) = value.as_table() {
                return Some(table);
            }
        }
        None
    }
}

/// The tables of a key's list, none where it is missing.
pub(crate) fn tables_at<'a>(key: Key, table: &'a Table) -> Tables<'a>
    ensures { tables_left result ≡ tables_at key (table_view table.now) }
{
    Tables {
        values: items_at(key, table),
    }
}

/// The texts of a list, in order: all its elements, where its key was checked.
#[derive(Clone, Copy)]
pub(crate) struct Texts<'a> {
    values: &'a [Value],
}

impl<'a> Iterator for Texts<'a> {
    type Item = &'a str;

    ghost next_gives = { YieldsFirstRef texts_left };

    ghost remaining = { item_count texts_left };

    fn next(&mut self) -> Option<&'a str> {
        while let Some((value, others)) = self.values.split_first() {
            self.values = others;
            if let Some(text) = value.as_str() {
                return Some(text);
            }
        }
        None
    }
}

/// The texts of a key's list, none where it is missing.
pub(crate) fn texts_at<'a>(key: Key, table: &'a Table) -> Texts<'a>
    ensures { texts_left result ≡ texts_at key (table_view table.now) }
{
    Texts {
        values: items_at(key, table),
    }
}
