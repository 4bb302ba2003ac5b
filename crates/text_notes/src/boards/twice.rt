//! What stands twice in a board file.

use crate::Result;
use crate::boards::blamed::Blamed;
use crate::boards::describe::name_of;
use crate::boards::draft::Draft;
use crate::boards::scan::number_of;
use board::{Key, Place};
use sentences::Figure::{Count, Hex};
use sentences::Word::{Name, Text};
use sentences::{Remark, say};
use std::alloc::Global;
use toml::Value;

/// The table of an index in the same list.
fn sibling(place: Place, index: usize) -> Place {
    match place {
        Place::Board => Place::Board,
        Place::Target(_) => Place::Target(index),
        Place::Rail(_) => Place::Rail(index),
        Place::Entry { target, .. } => Place::Entry {
            target,
            entry: index,
        },
    }
}

/// How many tables stand above a table in its list.
fn count_above(place: Place) -> usize {
    match place {
        Place::Board => 0,
        Place::Target(index) | Place::Rail(index) | Place::Entry { entry: index, .. } => index,
    }
}

/// Whether two tables have the same at these keys.
fn are_alike(draft: &Draft<'_>, one: Place, other: Place, keys: &[&str]) -> bool {
    keys.iter()
        .all(|key| draft.value(one, key) == draft.value(other, key))
}

/// The first table above one in its list that has the same at these keys.
pub(crate) fn first_alike(draft: &Draft<'_>, place: Place, keys: &[&str]) -> Option<Place> {
    for index in 0..count_above(place) {
        let above = sibling(place, index);
        if are_alike(draft, above, place, keys) {
            return Some(above);
        }
    }
    None
}

/// Where another table stands, or a key of it.
fn place_help(alloc: Global, draft: &Draft<'_>, other: Place, key: Option<&str>) -> Result<String> {
    let name = name_of(alloc, draft, other)?;
    let line = number_of(&draft.lines, other, key);
    format!(in alloc; "{name} has it in line {line}")
}

/// Where a table above has the same at these keys: its line, or that of one key.
fn alike_help(
    alloc: Global,
    blamed: &Blamed<'_>,
    keys: &[&str],
    key: Option<&str>,
) -> Result<Option<String>> {
    match first_alike(blamed.draft, blamed.place, keys) {
        Some(other) => Ok(Some(place_help(alloc, blamed.draft, other, key)?)),
        None => Ok(None),
    }
}

/// Where a target or a rail above has the same name. It is told by its number.
fn name_help(alloc: Global, blamed: &Blamed<'_>, sort: &str) -> Result<Option<String>> {
    let Some(other) = first_alike(blamed.draft, blamed.place, &["name"]) else {
        return Ok(None);
    };
    let number = count_above(other).saturating_add(1);
    let line = number_of(&blamed.draft.lines, other, Some("name"));
    Ok(Some(format!(in alloc; "{sort} {number} has it in line {line}")?))
}

/// What is said of a target or a rail whose name stands above.
fn same_word(alloc: Global, blamed: &Blamed<'_>, sort: &'static str) -> Result<Remark> {
    let help = name_help(alloc, blamed, sort)?;
    say![
        "two " {Text(sort)} "s have the name " {Name(blamed.text(Key::Name))} ": this is "
        {Text(sort)} " " (Count(count_above(blamed.place).saturating_add(1)))
    ]
    .helped_by(alloc, help)
}

/// What is said of an entry whose form and command stand above.
fn same_entry(alloc: Global, blamed: &Blamed<'_>) -> Result<Remark> {
    let help = alike_help(alloc, blamed, &["form", "command"], None)?;
    let form = Name(blamed.text(Key::Form));
    let message = match blamed.table.get("command") {
        Some(_) => say![
            {blamed.word()} " has " {form} " " {Name(blamed.text(Key::Command))}
            ", which stands above"
        ],
        None => say![{blamed.word()} " has " {form} ", which stands above"],
    };
    message.helped_by(alloc, help)
}

/// What is said of a name, or of an entry, that stands above.
pub(crate) fn same_name(alloc: Global, blamed: &Blamed<'_>) -> Result<Remark> {
    match blamed.place {
        Place::Target(_) => same_word(alloc, blamed, "target"),
        Place::Rail(_) => same_word(alloc, blamed, "rail"),
        _ => same_entry(alloc, blamed),
    }
}

/// What is said of an address that a target above has.
pub(crate) fn same_address(alloc: Global, blamed: &Blamed<'_>, value: &Value) -> Result<Remark> {
    let help = alike_help(alloc, blamed, &["address"], Some("address"))?;
    let address = u16::try_from(value.as_integer().unwrap_or(0)).unwrap_or(0);
    say![{blamed.word()} " has the address 0x" (Hex(address, 2)) " of another target"].helped_by(
        alloc, help,
    )
}

/// What is said of a rail whose page has a rail above.
pub(crate) fn same_page(alloc: Global, blamed: &Blamed<'_>, other: Place) -> Result<Remark> {
    let help = place_help(alloc, blamed.draft, other, Some("page"))?;
    say![
        {blamed.word()} " is on a page of target " {Name(blamed.text(Key::Target))}
        " that has a rail"
    ]
    .helped_by(alloc, Some(help))
}
