//! What the keys of a table say.

ghost use Rattle.std.specs.Prelude.{◌≡◌, ◌≤◌, option_copied, IfSome};
ghost use Rattle.toml.specs.View.{view, table_view, items_view};
ghost use Rattle.board.specs.Fields.{number_in, number_at, text_at, flag_at, items_at};

use crate::key::Key;
use crate::keys::value_at;
use toml::{Table, Value};

/// An integer of a range.
pub(crate) fn number_in(low: u32, high: u32, value: &Value) -> Option<u32>
    ensures value { result ≡ number_in low high (view value.now) }
    ensures within { IfSome result (λ n. (low ≤ n) × (n ≤ high)) }
{
    let number = u32::try_from(value.as_integer()?).ok()?;
    if low <= number && number <= high {
        Some(number)
    } else {
        None
    }
}

/// A byte of a range.
pub(crate) fn byte_in(low: u8, high: u8, value: &Value) -> Option<u8>
    ensures { result ≡ number_in low high (view value.now) }
{
    let number = number_in(u32::from(low), u32::from(high), value)?;
    Some(number as u8)
}

/// An integer of 16 bits of a range.
pub(crate) fn word_in(low: u16, high: u16, value: &Value) -> Option<u16>
    ensures value { result ≡ number_in low high (view value.now) }
    ensures within { IfSome result (λ n. (low ≤ n) × (n ≤ high)) }
{
    let number = number_in(u32::from(low), u32::from(high), value)?;
    Some(number as u16)
}

pub(crate) fn number_at(low: u32, high: u32, key: Key, table: &Table) -> Option<u32>
    ensures { result ≡ number_at low high key (table_view table.now) }
{
    number_in(low, high, value_at(table, key)?)
}

pub(crate) fn byte_at(low: u8, high: u8, key: Key, table: &Table) -> Option<u8>
    ensures { result ≡ number_at low high key (table_view table.now) }
{
    byte_in(low, high, value_at(table, key)?)
}

pub(crate) fn word_at(low: u16, high: u16, key: Key, table: &Table) -> Option<u16>
    ensures { result ≡ number_at low high key (table_view table.now) }
{
    word_in(low, high, value_at(table, key)?)
}

pub(crate) fn text_at<'a>(key: Key, table: &'a Table) -> Option<&'a str>
    ensures { option_copied result ≡ text_at key (table_view table.now) }
{
    value_at(table, key)?.as_str()
}

/// False where it is missing.
pub(crate) fn flag_at(key: Key, table: &Table) -> bool
    ensures { result ≡ flag_at key (table_view table.now) }
{
    match value_at(table, key) {
        Some(value) => value.as_bool().unwrap_or(false),
        None => false,
    }
}

/// The elements of a list, none where it is missing.
pub(crate) fn items_at<'a>(key: Key, table: &'a Table) -> &'a [Value]
    ensures { items_view result.now ≡ items_at key (table_view table.now) }
{
    match value_at(table, key) {
        Some(Value::Array(values)) => values.as_slice(),
        _ => &[],
    }
}
