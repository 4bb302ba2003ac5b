//! Tables and values of a board file in messages.

use crate::Result;
use crate::boards::draft::Draft;
use board::Place;
use notes::{Quoted, beginning_of};
use std::alloc::{AllocError, Global};
use toml::ser::Error;
use toml::{Table, Value};

/// A target or a rail by its name, or by its number, counted from 1.
fn named(alloc: Global, word: &str, name: Option<&str>, index: usize) -> Result<String> {
    match name {
        Some(name) => {
            let name = Quoted(name);
            format!(in alloc; "{word} {name}")
        }
        None => {
            let number = index.saturating_add(1);
            format!(in alloc; "{word} {number}")
        }
    }
}

/// What a target or a rail is called.
fn simple_name(alloc: Global, draft: &Draft<'_>, place: Place) -> Result<String> {
    let name = draft.text(place, "name");
    match place {
        Place::Target(index) => named(alloc, "target", name, index),
        Place::Rail(index) => named(alloc, "rail", name, index),
        _ => String::from_str(alloc, "the board"),
    }
}

/// What an entry is called.
fn entry_name(alloc: Global, draft: &Draft<'_>, target: usize, entry: usize) -> Result<String> {
    let target = simple_name(alloc, draft, Place::Target(target))?;
    let number = entry.saturating_add(1);
    format!(in alloc; "entry {number} of {target}")
}

/// What a table is called.
pub(crate) fn name_of(alloc: Global, draft: &Draft<'_>, place: Place) -> Result<String> {
    match place {
        Place::Entry { target, entry } => entry_name(alloc, draft, target, entry),
        _ => simple_name(alloc, draft, place),
    }
}

/// A value as TOML has it, on one line.
fn printed(alloc: Global, value: &Value) -> Result<Option<String>> {
    let mut table = Table::new(alloc);
    let key = String::from_str(alloc, "v")?;
    table.insert(key, value.clone()?)?;
    let text = match toml::table_to_string(alloc, &table) {
        Ok(text) => text,
        Err(Error::DateInvalid) => return Ok(None),
        Err(Error::OutOfMemory) => return Err(AllocError),
    };
    match text.strip_prefix("v = ") {
        Some(rest) => Ok(Some(String::from_str(alloc, rest.trim())?)),
        None => Ok(None),
    }
}

/// What stands at a key, cut short where it is long.
pub(crate) fn shown(alloc: Global, value: &Value) -> Result<String> {
    if let Value::String(text) = value {
        let text = Quoted(text);
        return format!(in alloc; "{text}");
    }
    match printed(alloc, value)? {
        Some(text) => match beginning_of(&text) {
            Some(beginning) => format!(in alloc; "{beginning}.."),
            None => Ok(text),
        },
        None => String::from_str(alloc, "below"),
    }
}
