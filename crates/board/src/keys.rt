//! The keys of a table: which ones it may have, what stands at each, and which ones it needs.

ghost use Rattle.std.specs.Prelude.{◌≡◌, option_map};
ghost use Rattle.toml.specs.View.{view, table_view, items_view};
ghost use Rattle.board.specs.Reading.{Gives};
ghost use Rattle.board.specs.Fields.{value_at};
ghost use Rattle.board.specs.Keys.{all_items, is_one, is_of, is_known, first_unknown, is_good_at};
ghost use Rattle.board.specs.Keys.{first_bad, other_in, first_other, wrong_at, is_there};
ghost use Rattle.board.specs.Keys.{first_missing};
ghost use Rattle.board.specs.Keys.{check_known, check_kinds, check_there, check_keys};

use crate::fault::{BoardFault, FaultKind};
use crate::key::Key;
use crate::site::{At, Place};
use texts::is_name;
use toml::{Table, Value};

/// What a value is.
#[derive(Clone, Copy)]
pub(crate) enum Sort {
    Text,
    Integer,
    Flag,
    Table,
}

/// What stands at a key.
#[derive(Clone, Copy)]
pub(crate) enum Kind {
    /// A text that is a name.
    Name,
    One(Sort),
    /// A list of whatever there is.
    List,
    ListOf(Sort),
}

/// A key that a table may have, and the kind of what stands there.
pub(crate) type Field = (Key, Kind);

/// What stands at a key of a table.
pub(crate) fn value_at<'a>(table: &'a Table, key: Key) -> Option<&'a Value>
    ensures { option_map (λ v. view v.now) result ≡ value_at key (table_view table.now) }
{
    table.get(key.name())
}

fn is_one(sort: Sort, value: &Value) -> bool
    ensures { result ≡ is_one sort (view value.now) }
{
    match sort {
        Sort::Text => value.is_str(),
        Sort::Integer => value.is_integer(),
        Sort::Flag => value.is_bool(),
        Sort::Table => value.is_table(),
    }
}

fn are_all(sort: Sort, values: &[Value]) -> bool
    ensures { result ≡ all_items (is_one sort) (items_view values.now) }
{
    for value in values {
        if !is_one(sort, value) {
            return false;
        }
    }
    true
}

fn is_of(kind: Kind, value: &Value) -> bool
    ensures { result ≡ is_of kind (view value.now) }
{
    match (kind, value) {
        (Kind::Name, Value::String(text)) => is_name(text.as_str()),
        (Kind::One(sort), value) => is_one(sort, value),
        (Kind::List, Value::Array(_)) => true,
        (Kind::ListOf(sort), Value::Array(values)) => are_all(sort, values.as_slice()),
        _ => false,
    }
}

fn is_good_at(table: &Table, field: Field) -> bool
    ensures { result ≡ is_good_at (table_view table.now) field }
{
    match value_at(table, field.0) {
        None => true,
        Some(value) => is_of(field.1, value),
    }
}

/// The first field with a value of another kind.
fn first_bad(fields: &[Field], table: &Table) -> Option<Field>
    ensures { result ≡ first_bad fields.now (table_view table.now) }
{
    fields
        .iter()
        .copied()
        .find(|field| !is_good_at(table, *field))
}

/// The place of the first value of another sort.
fn other_in(sort: Sort, values: &[Value]) -> Option<usize>
    ensures { result ≡ other_in sort (items_view values.now) }
{
    values.iter().position(|value| !is_one(sort, value))
}

/// The place of the first item of another sort, where a value is to be a list of a sort.
fn first_other(kind: Kind, value: &Value) -> Option<usize>
    ensures { result ≡ first_other kind (view value.now) }
{
    match (kind, value) {
        (Kind::ListOf(sort), Value::Array(values)) => other_in(sort, values.as_slice()),
        _ => None,
    }
}

/// Where the value of a field is wrong: at its first item of another sort, or as a whole.
fn wrong_at(table: &Table, field: Field) -> At
    ensures { result ≡ wrong_at (table_view table.now) field }
{
    match value_at(table, field.0) {
        Some(value) => match first_other(field.1, value) {
            Some(item) => At::Item(field.0, item),
            None => At::Key(field.0),
        },
        None => At::Key(field.0),
    }
}

/// The first field without a value.
fn first_missing(fields: &[Field], table: &Table) -> Option<Field>
    ensures { result ≡ first_missing fields.now (table_view table.now) }
{
    fields
        .iter()
        .copied()
        .find(|field| value_at(table, field.0).is_none())
}

fn is_known(fields: &[Field], name: &str) -> bool
    ensures { result ≡ is_known fields.now name.now }
{
    fields.iter().any(|field| field.0.name() == name)
}

/// The place of the first key that is none of these.
fn first_unknown(needed: &[Field], optional: &[Field], table: &Table) -> Option<usize>
    ensures { result ≡ first_unknown needed.now optional.now (table_view table.now) }
{
    table.keys().position(|name| {
        !(is_known(needed, name.as_str()) || is_known(optional, name.as_str()))
    })
}

/// Refuses a table with a key that is none of these.
fn check_known(
    place: Place,
    needed: &[Field],
    optional: &[Field],
    table: &Table,
) -> Result<(), BoardFault>
    ensures { Gives (λ u. table_view table.now) result
        (check_known place needed.now optional.now (table_view table.now)) }
{
    match first_unknown(needed, optional, table) {
        Some(unknown) => Err(FaultKind::BadKey.at(place, At::Unknown(unknown))),
        None => Ok(()),
    }
}

/// Refuses a table where one of these has a value of another kind.
fn check_kinds(place: Place, fields: &[Field], table: &Table) -> Result<(), BoardFault>
    ensures { Gives (λ u. table_view table.now) result
        (check_kinds place fields.now (table_view table.now)) }
{
    match first_bad(fields, table) {
        Some(field) => Err(FaultKind::BadKey.at(place, wrong_at(table, field))),
        None => Ok(()),
    }
}

/// Refuses a table without one of these.
fn check_there(place: Place, fields: &[Field], table: &Table) -> Result<(), BoardFault>
    ensures { Gives (λ u. table_view table.now) result
        (check_there place fields.now (table_view table.now)) }
{
    match first_missing(fields, table) {
        Some(field) => Err(FaultKind::MissingKey.at_key(place, field.0)),
        None => Ok(()),
    }
}

/// Refuses a table with a key that isn't one of these, with a value of another kind than its key's,
/// or without a key that is needed.
#[tactic(auto, unfolding(crate::specs::Keys::check_keys))]
pub(crate) fn check_keys(
    place: Place,
    needed: &[Field],
    optional: &[Field],
    table: &Table,
) -> Result<(), BoardFault>
    ensures { Gives (λ u. table_view table.now) result
        (check_keys place needed.now optional.now (table_view table.now)) }
{
    check_known(place, needed, optional, table)?;
    check_kinds(place, needed, table)?;
    check_kinds(place, optional, table)?;
    check_there(place, needed, table)
}
