//! The keys of a board file's tables, and in words what stands there.

use crate::Result;
use board::{Key, Place};
use std::alloc::Global;

/// A key, and what stands there.
type Field = (Key, &'static str);

const NAME: &str = "a name of 1 to 32 of a to z, 0 to 9 and _, the first a letter";

const BOARD: [Field; 6] = [
    (
        Key::Target,
        "a list of tables, each below a line [[target]]",
    ),
    (Key::Rail, "a list of tables, each below a line [[rail]]"),
    (
        Key::Foreign,
        "the addresses to which other controllers send, at most 32, from 0x08 to 0x77 without 0x0C \
         (alert response) and those of the board's targets",
    ),
    (
        Key::ForeignBytes,
        "the most data bytes of another controller's frame, from 0 to 255",
    ),
    (
        Key::ForeignStretch,
        "for how many ticks of 5 us a slot of another controller's frame may be held, from 0 to \
         4999",
    ),
    (
        Key::Contentions,
        "how often another controller may win the bus in a run, from 0 to 1000",
    ),
];

const TARGET: [Field; 9] = [
    (Key::Name, NAME),
    (
        Key::Address,
        "the seven bits of an address, from 0x09 to 0x77 without 0x0C (alert response) and 0x61 \
         (device default)",
    ),
    (Key::Pages, "the number of its pages, from 1 to 32"),
    (
        Key::Exponent,
        "the exponent of its voltages, from -16 to 0: a voltage is a mantissa times two to it",
    ),
    (
        Key::Stretch,
        "for how many ticks of 5 us it may hold the clock low, from 0 to 6999",
    ),
    (
        Key::StartPages,
        "the values that PAGE may have at the start: pages of the target, the first is 0, and 255 \
         for all of them",
    ),
    (
        Key::StartProtects,
        "the values that WRITE_PROTECT may have at the start: some of 0, 0x20, 0x40 and 0x80",
    ),
    (
        Key::Alerts,
        "whether it may pull SMBALERT# low, true or false",
    ),
    (
        Key::Allow,
        "what it may be sent, a list of tables as {form = \"writebyte\", command = \"PAGE\"}",
    ),
];

const ENTRY: [Field; 4] = [
    (Key::Form, "the form of a message, as \"writebyte\""),
    (
        Key::Command,
        "the name of a command, or for a manufacturer command two digits, \"D0\" to \"FD\"",
    ),
    (Key::Values, "the lowest and the highest value, as [0, 255]"),
    (
        Key::Length,
        "the lowest and the highest number of bytes, within 1 to 255, as [1, 16]",
    ),
];

const RAIL: [Field; 5] = [
    (Key::Name, NAME),
    (Key::Target, "the name of a target"),
    (Key::Page, "a page of the target, the first is 0"),
    (
        Key::LimitUv,
        "the highest voltage that is safe, in microvolts, from 1 to 4294967295",
    ),
    (
        Key::Needs,
        "a list of the names of the rails that have to be good before it is turned on",
    ),
];

/// The keys of a table, those that are needed first.
fn fields_of(place: Place) -> &'static [Field] {
    match place {
        Place::Board => &BOARD,
        Place::Target(_) => &TARGET,
        Place::Entry { .. } => &ENTRY,
        Place::Rail(_) => &RAIL,
    }
}

/// The names of the keys that a table may have, those that are needed first.
pub(crate) fn key_names(alloc: Global, place: Place) -> Result<Vec<&'static str>> {
    let fields = fields_of(place).iter();
    fields.map(|(key, _)| key.name()).collect(alloc)
}

/// What stands at a key of a table, in words.
pub(crate) fn holds(place: Place, key: Key) -> Option<&'static str> {
    let (_, holds) = fields_of(place).iter().find(|(other, _)| *other == key)?;
    Some(holds)
}

/// Whether tables of such a place may have a key of this name.
pub(crate) fn has_key(place: Place, name: &str) -> bool {
    fields_of(place).iter().any(|(key, _)| key.name() == name)
}
