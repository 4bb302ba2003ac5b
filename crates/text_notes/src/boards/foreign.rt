//! Addresses of other controllers that can't be.

use crate::Result;
use crate::boards::blamed::Blamed;
use crate::boards::draft::items_at;
use board::{FaultKind, Key};
use sentences::Figure::{Count, Hex};
use sentences::{Advice, Figure, Remark, Sentence, say};
use std::alloc::Global;
use toml::Value;

/// Whether a target of the file has an address.
fn is_of_target(targets: &[Value], address: &Value) -> bool {
    targets
        .iter()
        .any(|target| target.get("address") == Some(address))
}

/// What is said of an address that stands twice, or is one of a target.
fn same_address(blamed: &Blamed<'_>, address: &Value, hex: Figure) -> Sentence<'static> {
    if is_of_target(blamed.draft.targets, address) {
        say!["\"foreign\" of the board has the address 0x" (hex) " of a target"]
    } else {
        say!["\"foreign\" of the board has 0x" (hex) " twice"]
    }
}

/// What is said of an address of other controllers that can't be.
pub(crate) fn foreign_remark(
    alloc: Global,
    blamed: &Blamed<'_>,
    address: &Value,
) -> Result<Remark> {
    let number = u16::try_from(address.as_integer().unwrap_or(0)).unwrap_or(0);
    let hex = Hex(number, 2);
    let message = match blamed.draft.fault.kind {
        FaultKind::SameAddress => same_address(blamed, address, hex),
        _ => say!["\"foreign\" of the board can't have 0x"(hex)],
    };
    let help = blamed.key_help(Key::Foreign);
    Advice { message, help }.told(alloc)
}

/// What is said of too many addresses.
pub(crate) fn too_many(alloc: Global, blamed: &Blamed<'_>) -> Result<Remark> {
    let list = items_at(blamed.table, "foreign");
    let message = say!["\"foreign\" of the board has " (Count(list.len())) " addresses"];
    let help = blamed.key_help(Key::Foreign);
    Advice { message, help }.told(alloc)
}
