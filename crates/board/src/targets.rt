//! Reading targets.

ghost use Rattle.std.specs.Prelude.{◌≡◌, ◌==◌, [], false, IfOk};
ghost use Rattle.toml.specs.View.{table_view, items_view};
ghost use Rattle.board.specs.Reading.{Gives};
ghost use Rattle.board.specs.Valid.{is_target_address, is_page_value};
ghost use Rattle.board.specs.Named.{named_view, names, is_named, no_named};
ghost use Rattle.board.specs.Elements.{tables_left};
ghost use Rattle.board.specs.Targets.{check_target_keys, name_in, new_name, address_at};
ghost use Rattle.board.specs.Targets.{has_address, new_address, exponent_at, numbers_of};
ghost use Rattle.board.specs.Targets.{bytes_of, start_values, first_no_page, start_pages_of};
ghost use Rattle.board.specs.Targets.{first_no_protection};
ghost use Rattle.board.specs.Targets.{start_protects_of, target_with, target_from, targets_of};

use crate::elements::{Tables, tables_at};
use crate::entries::entries_of;
use crate::fault::{BoardFault, FaultKind};
use crate::fields::{byte_at, byte_in, flag_at, items_at, text_at, word_at};
use crate::key::Key;
use crate::keys::{Field, Kind, Sort, check_keys, value_at};
use crate::named::Named;
use crate::names::has_name;
use crate::site::Place;
use crate::target::{Target, is_page_value};
use bit_bus::LONGEST_HOLD;
use indexmap::IndexSet;
use pmbus_table::{is_exponent, is_protection};
use std::alloc::Global;
use toml::{Table, Value};

const NEEDED: [Field; 7] = [
    (Key::Name, Kind::Name),
    (Key::Address, Kind::One(Sort::Integer)),
    (Key::Pages, Kind::One(Sort::Integer)),
    (Key::Exponent, Kind::One(Sort::Integer)),
    (Key::Stretch, Kind::One(Sort::Integer)),
    (Key::StartPages, Kind::ListOf(Sort::Integer)),
    (Key::StartProtects, Kind::ListOf(Sort::Integer)),
];

const OPTIONAL: [Field; 2] = [
    (Key::Alerts, Kind::One(Sort::Flag)),
    (Key::Allow, Kind::ListOf(Sort::Table)),
];

/// A target's numbers but its address.
#[derive(Clone, Copy)]
pub(crate) struct Numbers {
    pages: u8,
    exponent: i8,
    stretch: u16,
}

/// Refuses a table that is no target.
fn check_target_keys(place: Place, table: &Table) -> Result<(), BoardFault>
    ensures { Gives (λ u. table_view table.now) result
        (check_target_keys place (table_view table.now)) }
{
    check_keys(place, &NEEDED, &OPTIONAL, table)
}

/// The name of a table whose keys are good.
fn name_in(table: &Table) -> &str
    ensures { result.now ≡ name_in (table_view table.now) }
{
    text_at(Key::Name, table).unwrap_or("")
}

/// A name that nothing before it has.
pub(crate) fn new_name<'a>(
    place: Place,
    done: &IndexSet<String>,
    table: &'a Table,
) -> Result<&'a str, BoardFault>
    ensures value { Gives (λ n. n.now) result
        (new_name place (names done.now) (table_view table.now)) }
    ensures new { IfOk result (λ n. is_named n.now (names done.now) ≡ false) }
{
    let name = name_in(table);
    if has_name(done, name) {
        return Err(FaultKind::SameName.at_key(place, Key::Name));
    }
    Ok(name)
}

/// Whether a target may have an address: it is neither reserved nor the host's, the alert
/// response's or the device default (SMBus 3.2, appendix C).
pub fn is_target_address(address: u8) -> bool
    ensures { result ≡ is_target_address address }
{
    (0x09..=0x77).contains(&address) && !matches!(address, 0x0C | 0x61)
}

fn address_at(table: &Table) -> Option<u8>
    ensures { result ≡ address_at (table_view table.now) }
{
    let address = byte_at(0, 127, Key::Address, table)?;
    if is_target_address(address) {
        Some(address)
    } else {
        None
    }
}

pub(crate) fn has_address(address: u8, targets: &[Target]) -> bool
    ensures { result ≡ has_address address targets.now }
{
    targets.iter().any(|target| target.address() == address)
}

/// An address that a target may have, and that no target before it has.
#[tactic(auto, unfolding(crate::specs::Targets::new_address))]
fn new_address(place: Place, done: &[Target], table: &Table) -> Result<u8, BoardFault>
    ensures { Gives (λ a. a) result (new_address place done.now (table_view table.now)) }
{
    let bad = FaultKind::BadAddress.at_key(place, Key::Address);
    let address = address_at(table).ok_or(bad)?;
    if has_address(address, done) {
        return Err(FaultKind::SameAddress.at_key(place, Key::Address));
    }
    Ok(address)
}

fn exponent_at(table: &Table) -> Option<i8>
    ensures { result ≡ exponent_at (table_view table.now) }
{
    let exponent = value_at(table, Key::Exponent)?.as_integer()?;
    if is_exponent(exponent) {
        Some(exponent as i8)
    } else {
        None
    }
}

#[tactic(auto, unfolding(crate::specs::Targets::numbers_of))]
fn numbers_of(place: Place, table: &Table) -> Result<Numbers, BoardFault>
    ensures { Gives (λ n. n) result (numbers_of place (table_view table.now)) }
{
    let too_many = FaultKind::TooMany.at_key(place, Key::Pages);
    let pages = byte_at(1, 32, Key::Pages, table).ok_or(too_many)?;
    let bad_exponent = FaultKind::BadExponent.at_key(place, Key::Exponent);
    let exponent = exponent_at(table).ok_or(bad_exponent)?;
    let bad_stretch = FaultKind::BadStretch.at_key(place, Key::Stretch);
    let stretch = word_at(0, LONGEST_HOLD, Key::Stretch, table).ok_or(bad_stretch)?;
    Ok(Numbers {
        pages,
        exponent,
        stretch,
    })
}

/// The values of a key's list, as bytes.
fn bytes_of(alloc: Global, place: Place, key: Key, values: &[Value]) -> Result<Vec<u8>, BoardFault>
    ensures { Gives (λ v. v.items) result (bytes_of place key [] (items_view values.now)) }
{
    let mut bytes = Vec::new(alloc);
    for value in values {
        let bad = FaultKind::BadStart.at_item(place, key, bytes.len());
        let byte = byte_in(0, 255, value).ok_or(bad)?;
        bytes.push(byte)?;
    }
    Ok(bytes)
}

/// Start values: at least one, and none that can't be.
#[tactic(auto, unfolding(crate::specs::Targets::start_values))]
fn start_values(
    place: Place,
    key: Key,
    wrong: Option<usize>,
    values: Vec<u8>,
) -> Result<Vec<u8>, BoardFault>
    ensures { Gives (λ v. v.items) result (start_values place key wrong values.items) }
{
    if values.is_empty() {
        return Err(FaultKind::BadStart.at_key(place, key));
    }
    match wrong {
        Some(item) => Err(FaultKind::BadStart.at_item(place, key, item)),
        None => Ok(values),
    }
}

/// The place of the first value that PAGE can't have.
fn first_no_page(pages: u8, values: &[u8]) -> Option<usize>
    ensures { result ≡ first_no_page pages values.now }
{
    values
        .iter()
        .position(|value| !is_page_value(pages, *value))
}

#[tactic(auto, unfolding(crate::specs::Targets::start_pages_of))]
fn start_pages_of(
    alloc: Global,
    place: Place,
    pages: u8,
    table: &Table,
) -> Result<Vec<u8>, BoardFault>
    ensures { Gives (λ v. v.items) result (start_pages_of place pages (table_view table.now)) }
{
    let values = bytes_of(
        alloc,
        place,
        Key::StartPages,
        items_at(Key::StartPages, table),
    )?;
    let wrong = first_no_page(pages, values.as_slice());
    start_values(place, Key::StartPages, wrong, values)
}

/// The place of the first value that WRITE_PROTECT can't have.
fn first_no_protection(values: &[u8]) -> Option<usize>
    ensures { result ≡ first_no_protection values.now }
{
    values.iter().position(|value| !is_protection(*value))
}

#[tactic(auto, unfolding(crate::specs::Targets::start_protects_of))]
fn start_protects_of(alloc: Global, place: Place, table: &Table) -> Result<Vec<u8>, BoardFault>
    ensures { Gives (λ v. v.items) result (start_protects_of place (table_view table.now)) }
{
    let values = bytes_of(
        alloc,
        place,
        Key::StartProtects,
        items_at(Key::StartProtects, table),
    )?;
    let wrong = first_no_protection(values.as_slice());
    start_values(place, Key::StartProtects, wrong, values)
}

/// What is left of the target of an index, after its name, its address and its numbers.
#[tactic(auto, unfolding(crate::specs::Targets::target_with))]
fn target_with(
    alloc: Global,
    index: usize,
    address: u8,
    numbers: Numbers,
    table: &Table,
) -> Result<Target, BoardFault>
    ensures { Gives (λ t. t) result (target_with index address numbers (table_view table.now)) }
{
    let place = Place::Target(index);
    let start_pages = start_pages_of(alloc, place, numbers.pages, table)?;
    let start_protects = start_protects_of(alloc, place, table)?;
    let allow = entries_of(alloc, index, tables_at(Key::Allow, table))?;
    Ok(Target {
        address,
        pages: numbers.pages,
        exponent: numbers.exponent,
        stretch: numbers.stretch,
        alerts: flag_at(Key::Alerts, table),
        start_pages,
        start_protects,
        allow,
    })
}

/// The target of an index, as its table says, after the targets before it.
#[tactic(auto, unfolding(crate::specs::Targets::target_from))]
fn target_from<'a>(
    alloc: Global,
    index: usize,
    done: &Named<Target>,
    table: &'a Table,
) -> Result<(&'a str, Target), BoardFault>
    ensures value { Gives (λ t. (t.0.now, t.1)) result
        (target_from index (named_view done.now) (table_view table.now)) }
    ensures new { IfOk result (λ t. is_named t.0.now (names done.now.names) ≡ false) }
{
    let place = Place::Target(index);
    check_target_keys(place, table)?;
    let name = new_name(place, &done.names, table)?;
    let address = new_address(place, done.items.as_slice(), table)?;
    let numbers = numbers_of(place, table)?;
    let target = target_with(alloc, index, address, numbers, table)?;
    Ok((name, target))
}

/// The targets of a list, in order.
pub(crate) fn targets_of(alloc: Global, tables: Tables<'_>) -> Result<Named<Target>, BoardFault>
    ensures { Gives named_view result (targets_of no_named (tables_left tables.entry)) }
{
    let mut targets = Named::new(alloc);
    for table in tables {
        let index = targets.items.len();
        let (name, target) = target_from(alloc, index, &targets, table)?;
        targets.push(alloc, name, target)?;
    }
    Ok(targets)
}
