//! Rails that nothing can turn on.

ghost use Rattle.std.specs.Prelude.{◌≡◌, ◌++◌, OnOk};
ghost use Rattle.board_lints.specs.Reasons.{has, is_among, takes_enable, may_enable, takes_page};
ghost use Rattle.board_lints.specs.Reasons.{may_select, is_idle, is_idle_rail};
ghost use Rattle.board_lints.specs.Lints.{lack_of, rail_lack, idle_lints, idle_rails};

use crate::lint::{Lack, Lint};
use board::{Allow, Board, Rail, Range, Target};
use pmbus_table::code::{ALL_PAGES, OPERATION, PAGE};
use pmbus_table::enables;
use smbus::Form;
use std::alloc::AllocError;

fn has(range: Range, value: u8) -> bool
    ensures { result ≡ has range value }
{
    range.low <= u16::from(value) && u16::from(value) <= range.high
}

pub(crate) fn is_among(values: &[u8], value: u8) -> bool
    ensures { result ≡ is_among values.now value }
{
    values.iter().any(|other| *other == value)
}

/// Whether an entry takes a value of OPERATION that enables.
fn takes_enable(entry: &Allow) -> bool
    ensures { result ≡ takes_enable entry.now }
{
    for value in 0..=255 {
        if enables(value) && has(entry.values(), value) {
            return true;
        }
    }
    false
}

fn may_enable(device: &Target) -> bool
    ensures { result ≡ may_enable device.now }
{
    match device.entry(Form::WriteByte, OPERATION) {
        Some(entry) => takes_enable(entry),
        None => false,
    }
}

fn takes_page(entry: &Allow, page: u8) -> bool
    ensures { result ≡ takes_page page entry.now }
{
    has(entry.values(), page) || has(entry.values(), ALL_PAGES)
}

/// Whether PAGE of a target may select a page.
fn may_select(device: &Target, page: u8) -> bool
    ensures { result ≡ may_select device.now page }
{
    let starts = device.start_pages();
    if is_among(starts, page) || is_among(starts, ALL_PAGES) {
        return true;
    }
    match device.entry(Form::WriteByte, PAGE) {
        Some(entry) => takes_page(entry, page),
        None => false,
    }
}

fn is_idle(device: &Target, rail: &Rail) -> bool
    ensures { result ≡ is_idle device.now rail.now }
{
    !(may_enable(device) && may_select(device, rail.page()))
}

/// Whether no entry of its target can turn a rail on.
fn is_idle_rail(board: &Board, rail: &Rail) -> bool
    ensures { result ≡ is_idle_rail board.now rail.now }
{
    match board.target(rail.target()) {
        Some(device) => is_idle(device, rail),
        None => false,
    }
}

/// What a target lacks to turn a rail on.
fn lack_of(device: &Target) -> Lack
    ensures { result ≡ lack_of device.now }
{
    if may_enable(device) {
        return Lack::Page;
    }
    match device.entry(Form::WriteByte, OPERATION) {
        Some(_) => Lack::Value,
        None => Lack::Entry,
    }
}

fn rail_lack(board: &Board, rail: &Rail) -> Lack
    ensures { result ≡ rail_lack board.now rail.now }
{
    match board.target(rail.target()) {
        Some(device) => lack_of(device),
        None => Lack::Entry,
    }
}

/// A lint of a rail that no entry of its target can turn on.
fn push_idle_rail(
    lints: &mut Vec<Lint>,
    board: &Board,
    index: usize,
    rail: &Rail,
) -> Result<(), AllocError>
    ensures { OnOk result
        (lints.new.items ≡ lints.old.items ++ idle_lints board.now (index, rail.now)) }
{
    if is_idle_rail(board, rail) {
        lints.push(Lint::IdleRail {
            rail: index,
            lacks: rail_lack(board, rail),
        })?;
    }
    Ok(())
}

/// A lint for each rail that no entry of its target can turn on.
pub(crate) fn push_idle_rails(lints: &mut Vec<Lint>, board: &Board) -> Result<(), AllocError>
    ensures { OnOk result (lints.new.items ≡ lints.old.items ++ idle_rails board.now) }
{
    for (index, rail) in board.rails().iter().enumerate() {
        push_idle_rail(lints, board, index, rail)?;
    }
    Ok(())
}
