//! Numbers and lists that can't stand at their keys.

use crate::Result;
use crate::boards::blamed::Blamed;
use crate::boards::describe::shown;
use crate::boards::keys::bad_value;
use board::{Key, full_values, is_target_address};
use sentences::Figure::{Hex, Number};
use sentences::Word::{Name, Text};
use sentences::{Advice, Remark, Sentence, say};
use smbus::form_named;
use std::alloc::Global;
use toml::Value;

/// The address whose seven bits stand above a direction bit in the byte that was written.
fn shifted_address(value: &Value) -> Option<u8> {
    let byte = u8::try_from(value.as_integer()?).ok()?;
    if byte >= 128 && is_target_address(byte / 2) {
        Some(byte / 2)
    } else {
        None
    }
}

/// What is said of an address that no target may have.
pub(crate) fn bad_address(alloc: Global, blamed: &Blamed<'_>, value: &Value) -> Result<Remark> {
    let help = match shifted_address(value) {
        Some(address) => Some(say!["without the direction bit, the last of eight, it is 0x"(Hex(
            u16::from(address),
            2
        ))]),
        None => blamed.key_help(Key::Address),
    };
    bad_value(alloc, blamed, Key::Address, value, help)
}

/// What is said of a list of start values without one.
pub(crate) fn no_start(alloc: Global, blamed: &Blamed<'_>, key: Key) -> Result<Remark> {
    let message = say![{Name(key.name())} " of " {blamed.word()} " has no value"];
    let help = blamed.key_help(key);
    Advice { message, help }.told(alloc)
}

/// What is said of a start value that can't be.
pub(crate) fn bad_start(
    alloc: Global,
    blamed: &Blamed<'_>,
    key: Key,
    value: &Value,
) -> Result<Remark> {
    let value = shown(alloc, value)?;
    let message = say![
        {Name(key.name())} " of " {blamed.word()} " can't have " {Text(&value)}
        " among its values"
    ];
    let help = blamed.key_help(key);
    Advice { message, help }.told(alloc)
}

/// The greatest value that the form of an entry carries.
fn most_carried(word: &str) -> u16 {
    match form_named(word) {
        Some(form) => full_values(form).high,
        None => u16::MAX,
    }
}

/// What a range of an entry has to be.
fn range_help<'a>(blamed: &'a Blamed<'_>, key: Key) -> Sentence<'a> {
    let form = blamed.text(Key::Form);
    if key == Key::Length {
        say![
            {Name(form)}
            " takes [LOW, HIGH], two numbers from 1 to 255, the first not above the second"
        ]
    } else {
        say![
            {Name(form)} " takes [LOW, HIGH], two numbers from 0 to "
            (Number(u64::from(most_carried(form)))) ", the first not above the second"
        ]
    }
}

/// What is said of a range that can't be.
pub(crate) fn bad_range(
    alloc: Global,
    blamed: &Blamed<'_>,
    key: Key,
    value: &Value,
) -> Result<Remark> {
    match key {
        Key::Values | Key::Length => {
            bad_value(alloc, blamed, key, value, Some(range_help(blamed, key)))
        }
        _ => bad_value(alloc, blamed, key, value, blamed.key_help(key)),
    }
}
