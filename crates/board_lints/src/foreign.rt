//! Other controllers that can't win, or of which only a part is said.

ghost use Rattle.std.specs.Prelude.{◌≡◌, ◌++◌, OnOk, flat_map, nat_le};
ghost use Rattle.std.specs.List.{list_all};
ghost use Rattle.board_lints.specs.Reasons.{never_wins, has_foreign};
ghost use Rattle.board_lints.specs.Lints.{address_lints, count_lints, foreign_lints};

use crate::lint::Lint;
use board::{Board, Target};
use std::alloc::AllocError;

fn is_up_to(device: &Target, address: u8) -> bool
    ensures { result ≡ nat_le device.now.address address }
{
    device.address() <= address
}

/// Whether no target has an address over this one.
fn are_up_to(devices: &[Target], address: u8) -> bool
    ensures { result ≡ list_all (λ t. nat_le t.address address) devices.now }
{
    devices.iter().all(|device| is_up_to(device, address))
}

/// Whether no message of the board's has an address over this one.
fn never_wins(board: &Board, address: u8) -> bool
    ensures { result ≡ never_wins board.now address }
{
    are_up_to(board.targets(), address) && 0x0C <= address
}

fn has_foreign(board: &Board) -> bool
    ensures { result ≡ has_foreign board.now }
{
    !board.foreign().is_empty()
}

/// A lint of an address that never wins.
fn push_address(lints: &mut Vec<Lint>, board: &Board, address: u8) -> Result<(), AllocError>
    ensures { OnOk result
        (lints.new.items ≡ lints.old.items ++ address_lints board.now address) }
{
    if never_wins(board, address) {
        lints.push(Lint::NeverWins { address })?;
    }
    Ok(())
}

/// A lint for each address that never wins.
fn push_addresses(lints: &mut Vec<Lint>, board: &Board) -> Result<(), AllocError>
    ensures { OnOk result (lints.new.items
        ≡ lints.old.items ++ flat_map (address_lints board.now) board.now.foreign) }
{
    for address in board.foreign() {
        push_address(lints, board, *address)?;
    }
    Ok(())
}

/// A lint where others may win but have no address, or have some but never win.
fn push_counts(lints: &mut Vec<Lint>, board: &Board) -> Result<(), AllocError>
    ensures { OnOk result (lints.new.items ≡ lints.old.items ++ count_lints board.now) }
{
    let contentions = board.contentions();
    if contentions != 0 && !has_foreign(board) {
        lints.push(Lint::NoForeign { contentions })?;
    }
    if contentions == 0 && has_foreign(board) {
        lints.push(Lint::NoContentions)?;
    }
    Ok(())
}

/// The lints of other controllers.
pub(crate) fn push_foreign(lints: &mut Vec<Lint>, board: &Board) -> Result<(), AllocError>
    ensures { OnOk result (lints.new.items ≡ lints.old.items ++ foreign_lints board.now) }
{
    push_addresses(lints, board)?;
    push_counts(lints, board)
}
