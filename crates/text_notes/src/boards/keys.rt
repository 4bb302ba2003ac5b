//! Keys that are missing or can't be, and what can't stand at a key.

use crate::Result;
use crate::boards::blamed::Blamed;
use crate::boards::describe::shown;
use crate::boards::key_words::{has_key, holds, key_names};
use board::{Key, Place};
use notes::lowercase_suggestion;
use sentences::Word::{Name, Text};
use sentences::{Advice, Remark, Sentence, quoted_names, say};
use std::alloc::Global;
use toml::Value;

/// What is said of a board without targets.
fn no_target(alloc: Global) -> Result<Remark> {
    let names = key_names(alloc, Place::Target(0))?;
    let names = quoted_names(alloc, &names)?;
    let help = say!["a target begins with a line [[target]]; its keys are " {Text(&names)}];
    say!["the board has no target"].with_help(help).told(alloc)
}

/// What is said of a table without a key that it needs.
pub(crate) fn missing_key(alloc: Global, blamed: &Blamed<'_>, key: Key) -> Result<Remark> {
    if blamed.place == Place::Board {
        return no_target(alloc);
    }
    let message = say![{blamed.word()} " has no key " {Name(key.name())}];
    let help = blamed.key_help(key);
    Advice { message, help }.told(alloc)
}

/// What is said of a key that no table of its kind has.
fn unknown_key(alloc: Global, blamed: &Blamed<'_>, key: &str) -> Result<Remark> {
    let names = key_names(alloc, blamed.place)?;
    let help = lowercase_suggestion(alloc, key, &names)?;
    let names = quoted_names(alloc, &names)?;
    let keys = Text(&names);
    say!["unknown key " {Name(key)} " of " {blamed.word()} "; its keys are " {keys}].helped_by(
        alloc, help,
    )
}

/// What is said of a key that an entry of this form hasn't.
fn key_of_other_form<'a>(blamed: &'a Blamed<'_>, key: &'a str) -> Sentence<'a> {
    say![{blamed.word()} " can't have " {Name(key)} ": " {Name(blamed.text(Key::Form))} " has none"]
}

/// What is said of a key that a table can't have: none of its kind has it, or none of its form.
pub(crate) fn other_key(alloc: Global, blamed: &Blamed<'_>, index: usize) -> Result<Remark> {
    match blamed.table.keys().nth(index) {
        Some(key) if has_key(blamed.place, key) => {
            key_of_other_form(blamed, key).helped_by(alloc, None)
        }
        Some(key) => unknown_key(alloc, blamed, key),
        None => say!["a bad key"].alone().told(alloc),
    }
}

/// What is said of a key with this value, which can't stand there.
pub(crate) fn bad_value(
    alloc: Global,
    blamed: &Blamed<'_>,
    key: Key,
    value: &Value,
    help: Option<Sentence>,
) -> Result<Remark> {
    let value = shown(alloc, value)?;
    let message = say![{Name(key.name())} " of " {blamed.word()} " can't be " {Text(&value)}];
    Advice { message, help }.told(alloc)
}

/// Whether a text that stands at a key would be a number, a list or a truth value without its
/// quotes.
fn is_quoted_value(key: Key, text: &str) -> bool {
    match key {
        Key::Name | Key::Target | Key::Form | Key::Command => false,
        _ if text == "true" || text == "false" => true,
        _ => text.starts_with(['-', '[', '0', '1', '2', '3', '4', '5', '6', '7', '8', '9']),
    }
}

/// What may help where something of another sort stands at a key.
fn sort_help(blamed: &Blamed<'_>, key: Key, value: &Value) -> Option<Sentence<'static>> {
    let holds = Text(holds(blamed.place, key)?);
    match value {
        Value::String(text) if is_quoted_value(key, text) => {
            Some(say!["write it without quotes: " {Name(key.name())} " is " {holds}])
        }
        _ => blamed.key_help(key),
    }
}

/// What is said of a key at which something of another sort stands.
pub(crate) fn bad_sort(
    alloc: Global,
    blamed: &Blamed<'_>,
    key: Key,
    value: &Value,
) -> Result<Remark> {
    let (sort, help) = (Text(value.type_str()), sort_help(blamed, key, value));
    let value = shown(alloc, value)?;
    let message = say![
        {Name(key.name())} " of " {blamed.word()} " can't be the " {sort} " " {Text(&value)}
    ];
    Advice { message, help }.told(alloc)
}

/// What is said of a list with an item of another sort.
pub(crate) fn bad_item(
    alloc: Global,
    blamed: &Blamed<'_>,
    key: Key,
    item: &Value,
) -> Result<Remark> {
    let (sort, help) = (Text(item.type_str()), sort_help(blamed, key, item));
    let item = shown(alloc, item)?;
    let message = say![
        {Name(key.name())} " of " {blamed.word()} " can't have the " {sort} " " {Text(&item)}
        " in it"
    ];
    Advice { message, help }.told(alloc)
}
