//! What is found out about the fault of a board file.

use crate::Result;
use crate::boards::blamed::Blamed;
use crate::boards::draft::Draft;
use crate::boards::foreign::{foreign_remark, too_many as too_many_foreign};
use crate::boards::keys::{bad_item, bad_sort, bad_value, missing_key, other_key};
use crate::boards::scan::number_of;
use crate::boards::twice::{same_address, same_name};
use crate::boards::values::{bad_address, bad_range, bad_start, no_start};
use crate::boards::words::{
    bad_page, self_need, unknown_command, unknown_form, unknown_need, unknown_target,
};
use board::{At, FaultKind, Key, Place, Site};
use sentences::Figure::Count;
use sentences::{Remark, say};
use std::alloc::Global;
use toml::{Table, Value};

/// A line of a board file, and what is said of it; and what stands in the line before the word that
/// it is about, and that word, where these are known.
#[derive(Drop)]
pub(crate) struct Finding<'a> {
    pub number: usize,
    pub remark: Remark,
    pub at: Option<(&'a str, &'a str)>,
}

/// What is said of a fault of which no more is known.
fn bare(alloc: Global, kind: FaultKind) -> Result<Remark> {
    Ok(Remark::bare(format!(in alloc; "{kind}")?))
}

/// What is said of a board with too many tables.
fn too_many(alloc: Global, draft: &Draft<'_>, place: Place) -> Result<Remark> {
    let message = match place {
        Place::Rail(_) => {
            let count = Count(draft.rails.len());
            say!["a board has at most 64 rails, and this one has "(count)]
        }
        _ => {
            let count = Count(draft.targets.len());
            say!["a board has at most 16 targets, and this one has "(count)]
        }
    };
    message.alone().told(alloc)
}

/// What is said of a table as a whole.
fn table_remark(alloc: Global, blamed: &Blamed<'_>) -> Result<Remark> {
    match blamed.draft.fault.kind {
        FaultKind::SameName => same_name(alloc, blamed),
        FaultKind::TooMany => too_many(alloc, blamed.draft, blamed.place),
        kind => bare(alloc, kind),
    }
}

/// What is said of the value at a key.
fn value_remark(alloc: Global, blamed: &Blamed<'_>, key: Key, value: &Value) -> Result<Remark> {
    match (blamed.draft.fault.kind, key) {
        (FaultKind::BadKey, _) => bad_sort(alloc, blamed, key, value),
        (FaultKind::TooMany, Key::Foreign) => too_many_foreign(alloc, blamed),
        (FaultKind::SameName, _) => same_name(alloc, blamed),
        (FaultKind::BadAddress, _) => bad_address(alloc, blamed, value),
        (FaultKind::SameAddress, _) => same_address(alloc, blamed, value),
        (FaultKind::BadStart, _) => no_start(alloc, blamed, key),
        (FaultKind::BadRange, _) => bad_range(alloc, blamed, key, value),
        (FaultKind::UnknownCommand, Key::Form) => unknown_form(alloc, blamed),
        (FaultKind::UnknownCommand, _) => unknown_command(alloc, blamed),
        (FaultKind::BadRail, Key::Target) => unknown_target(alloc, blamed),
        (FaultKind::BadRail, _) => bad_page(alloc, blamed, value),
        _ => bad_value(alloc, blamed, key, value, blamed.key_help(key)),
    }
}

/// What is said of a key, or of what stands there.
fn key_remark(alloc: Global, blamed: &Blamed<'_>, key: Key) -> Result<Remark> {
    match blamed.value(key) {
        _ if blamed.draft.fault.kind == FaultKind::MissingKey => missing_key(alloc, blamed, key),
        Some(value) => value_remark(alloc, blamed, key, value),
        None => bare(alloc, blamed.draft.fault.kind),
    }
}

/// What is said of an item of the list at a key.
fn item_remark(alloc: Global, blamed: &Blamed<'_>, key: Key, item: &Value) -> Result<Remark> {
    match (blamed.draft.fault.kind, key) {
        (FaultKind::BadStart, _) => bad_start(alloc, blamed, key, item),
        (FaultKind::UnknownNeed, _) => unknown_need(alloc, blamed, item),
        (FaultKind::SelfNeed, _) => self_need(alloc, blamed),
        (FaultKind::BadAddress | FaultKind::SameAddress, _) => {
            foreign_remark(alloc, blamed, item)
        }
        _ => bad_item(alloc, blamed, key, item),
    }
}

/// What is said of what has the fault.
fn remark_at(alloc: Global, blamed: &Blamed<'_>, at: At) -> Result<Remark> {
    match at {
        At::Table => table_remark(alloc, blamed),
        At::Key(key) => key_remark(alloc, blamed, key),
        At::Item(key, index) => match blamed.item(key, index) {
            Some(item) => item_remark(alloc, blamed, key, item),
            None => bare(alloc, blamed.draft.fault.kind),
        },
        At::Unknown(index) => other_key(alloc, blamed, index),
    }
}

/// The name of the key that has the fault, if the table has it.
fn key_at(table: &Table, at: At) -> Option<&str> {
    match at {
        At::Table => None,
        At::Key(key) | At::Item(key, _) => table.get(key.name()).map(|_| key.name()),
        At::Unknown(index) => Some(table.keys().nth(index)?),
    }
}

/// What is said of the fault of a file that is a TOML document, and of which line.
pub(crate) fn finding_in(alloc: Global, draft: &Draft<'_>) -> Result<Finding<'static>> {
    let Site { table: place, at } = draft.fault.site;
    let Some(table) = draft.table(place) else {
        return Ok(Finding {
            number: 1,
            remark: bare(alloc, draft.fault.kind)?,
            at: None,
        });
    };
    let blamed = Blamed::new(alloc, draft, place, table)?;
    Ok(Finding {
        number: number_of(&draft.lines, place, key_at(table, at)),
        remark: remark_at(alloc, &blamed, at)?,
        at: None,
    })
}
