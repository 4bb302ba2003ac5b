//! Reading the entries of an allow list.

ghost use Rattle.std.specs.Prelude.{◌≡◌, [], false, IfOk, unwrap_or};
ghost use Rattle.toml.specs.View.{table_view, items_view};
ghost use Rattle.board.specs.Boards.{has_entry, IsCommandFor};
ghost use Rattle.board.specs.Reading.{Gives};
ghost use Rattle.board.specs.Elements.{tables_left};
ghost use Rattle.board.specs.Entries.{check_entry_keys, needed_by, optional_for, form_at};
ghost use Rattle.board.specs.Entries.{command_at};
ghost use Rattle.board.specs.Entries.{command_for, range_in, range_at, allow_of, entry_from};
ghost use Rattle.board.specs.Entries.{entries_of};

use crate::allow_list::AllowList;
use crate::elements::Tables;
use crate::entry::{Allow, Range, full_length, full_values};
use crate::fault::{BoardFault, FaultKind};
use crate::fields::{text_at, word_in};
use crate::key::Key;
use crate::keys::{Field, Kind, Sort, check_keys, value_at};
use crate::site::Place;
use pmbus_table::{Command, by_name};
use smbus::{Form, carries_code, form_named};
use std::alloc::Global;
use toml::{Table, Value};

const FORM: Field = (Key::Form, Kind::One(Sort::Text));

const COMMAND: Field = (Key::Command, Kind::One(Sort::Text));

const VALUES: Field = (Key::Values, Kind::List);

const LENGTH: Field = (Key::Length, Kind::List);

/// Refuses a table that is no entry of any form.
fn check_entry_keys(place: Place, table: &Table) -> Result<(), BoardFault>
    ensures { Gives (λ u. table_view table.now) result
        (check_entry_keys place (table_view table.now)) }
{
    check_keys(place, &[FORM], &[COMMAND, VALUES, LENGTH], table)
}

/// What an entry of a form needs.
fn needed_by(form: Form) -> &'static [Field]
    ensures { result.now ≡ needed_by form }
{
    if carries_code(form) {
        &[FORM, COMMAND]
    } else {
        &[FORM]
    }
}

/// What it may have.
fn optional_for(form: Form) -> &'static [Field]
    ensures { result.now ≡ optional_for form }
{
    match form {
        Form::Quick(_) | Form::SendByte | Form::Alert => &[],
        Form::BlockWrite | Form::BlockRead | Form::BlockProcessCall => &[VALUES, LENGTH],
        _ => &[VALUES],
    }
}

fn form_at(table: &Table) -> Option<Form>
    ensures { result ≡ form_at (table_view table.now) }
{
    form_named(text_at(Key::Form, table)?)
}

/// The command, if it takes the form.
fn command_at(form: Form, table: &Table) -> Option<Command>
    ensures { result ≡ command_at form (table_view table.now) }
{
    let command = by_name(text_at(Key::Command, table)?)?;
    if command.takes(form) {
        Some(command)
    } else {
        None
    }
}

/// The command of an entry, nothing for a form that carries none.
fn command_for(place: Place, form: Form, table: &Table) -> Result<Option<Command>, BoardFault>
    ensures value { Gives (λ c. c) result (command_for place form (table_view table.now)) }
    ensures carried { IfOk result (IsCommandFor form) }
{
    if !carries_code(form) {
        return Ok(None);
    }
    match command_at(form, table) {
        Some(command) => Ok(Some(command)),
        None => Err(FaultKind::UnknownCommand.at_key(place, Key::Command)),
    }
}

/// The command's code, 0 where there is none.
fn code_of(command: &Option<Command>) -> u8
    ensures { result ≡ unwrap_or command.now 0 }
{
    match command {
        Some(command) => command.code(),
        None => 0,
    }
}

/// Two integers in order, within the full range.
fn range_in(full: Range, values: &[Value]) -> Option<Range>
    ensures { result ≡ range_in full (items_view values.now) }
{
    let [low, high] = values else {
        return None;
    };
    let low = word_in(full.low, full.high, low)?;
    let high = word_in(low, full.high, high)?;
    Some(Range { low, high })
}

/// The full range where the key is missing.
fn range_at(full: Range, key: Key, table: &Table) -> Option<Range>
    ensures { result ≡ range_at full key (table_view table.now) }
{
    match value_at(table, key) {
        Some(Value::Array(values)) => range_in(full, values.as_slice()),
        _ => Some(full),
    }
}

/// The entry of a form and a command.
#[tactic(auto, unfolding(crate::specs::Entries::allow_of))]
fn allow_of(
    place: Place,
    form: Form,
    command: Option<Command>,
    table: &Table,
) -> Result<Allow, BoardFault>
    requires { IsCommandFor form command }
    ensures value { Gives (λ a. a) result (allow_of place form command (table_view table.now)) }
    ensures form { IfOk result (λ a. a.form ≡ form) }
    ensures code { IfOk result (λ a. a.code ≡ unwrap_or command 0) }
{
    let bad_values = FaultKind::BadRange.at_key(place, Key::Values);
    let values = range_at(full_values(form), Key::Values, table).ok_or(bad_values)?;
    let bad_length = FaultKind::BadRange.at_key(place, Key::Length);
    let length = range_at(full_length(), Key::Length, table).ok_or(bad_length)?;
    Ok(Allow::new(form, command, values, length))
}

/// The entry of a table, after the entries before it.
#[tactic(auto, unfolding(crate::specs::Entries::entry_from))]
fn entry_from(place: Place, done: &AllowList, table: &Table) -> Result<Allow, BoardFault>
    ensures value { Gives (λ a. a) result (entry_from place done.now (table_view table.now)) }
    ensures new { IfOk result (λ a. has_entry a.form a.code done.now ≡ false) }
{
    check_entry_keys(place, table)?;
    let unknown = FaultKind::UnknownCommand.at_key(place, Key::Form);
    let form = form_at(table).ok_or(unknown)?;
    check_keys(place, needed_by(form), optional_for(form), table)?;
    let command = command_for(place, form, table)?;
    let code = code_of(&command);
    if done.has(form, code) {
        return Err(FaultKind::SameName.at_table(place));
    }
    allow_of(place, form, command, table)
}

/// The entries of the target of an index, in order.
pub(crate) fn entries_of(
    alloc: Global,
    target: usize,
    tables: Tables<'_>,
) -> Result<AllowList, BoardFault>
    ensures { Gives (λ l. l) result (entries_of target [] (tables_left tables.entry)) }
{
    let mut entries = AllowList::new(alloc);
    for table in tables {
        let place = Place::Entry {
            target,
            entry: entries.len(),
        };
        let entry = entry_from(place, &entries, table)?;
        entries = entries.with(entry)?;
    }
    Ok(entries)
}
