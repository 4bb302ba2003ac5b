//! Which targets are opened at the start, and which are protected at the end.

ghost use Rattle.std.specs.Prelude.{◌≡◌, IfOk};
ghost use Rattle.std.specs.List.{list_any};
ghost use Rattle.drafts.specs.Opening.{forbids, forbids_rail, is_shut, has_to_open, is_protected};
ghost use Rattle.drafts.specs.Opening.{targets_to_open, targets_to_protect};

use crate::page::needs_page;
use board::{Board, Rail, Target};
use plans::Plan;
use pmbus_table::code::{OPERATION, PAGE, VOUT_COMMAND};
use pmbus_table::permits;
use std::alloc::{AllocError, Global};

fn forbids(protect: u8, code: u8) -> bool
    ensures { result ≡ forbids protect code }
{
    permits(protect, code) != Some(true)
}

/// Whether a value of WRITE_PROTECT forbids a write by which a rail is turned on.
fn forbids_rail(board: &Board, plan: &Plan, rail: usize, output: &Rail, protect: u8) -> bool
    ensures { result
        ≡ forbids_rail board.now plan.now.wishes.items rail output.now protect }
{
    forbids(protect, OPERATION)
        || needs_page(board, output) && forbids(protect, PAGE)
        || plan.voltage_of(rail).is_some() && forbids(protect, VOUT_COMMAND)
}

/// Whether the target of a rail may start so that the rail can't be turned on.
fn starts_shut(board: &Board, plan: &Plan, rail: usize, output: &Rail, target: &Target) -> bool
    ensures { result ≡ list_any (forbids_rail board.now plan.now.wishes.items rail output.now)
        target.now.start_protects }
{
    target.start_protects().iter().any(|protect| forbids_rail(board, plan, rail, output, *protect))
}

/// Whether a rail is one of the target, which may start so that it can't be turned on.
fn is_shut(board: &Board, plan: &Plan, target: usize, rail: usize) -> bool
    ensures { result ≡ is_shut board.now plan.now.wishes.items target rail }
{
    match (board.rail(rail), board.target(target)) {
        (Some(output), Some(device)) => {
            output.target() == target && starts_shut(board, plan, rail, output, device)
        }
        _ => false,
    }
}

/// Whether a target has to be opened before its rails are turned on.
fn has_to_open(board: &Board, plan: &Plan, target: usize) -> bool
    ensures { result ≡ has_to_open board.now plan.now.wishes.items target }
{
    (0..board.rails().len()).any(|rail| is_shut(board, plan, target, rail))
}

/// The targets that have to be opened, in the board's order.
pub(crate) fn targets_to_open(
    alloc: Global,
    board: &Board,
    plan: &Plan,
) -> Result<Vec<usize>, AllocError>
    ensures { IfOk result (λ targets.
        targets.items ≡ targets_to_open board.now plan.now.wishes.items) }
{
    let mut targets = Vec::new(alloc);
    for target in 0..board.targets().len() {
        if has_to_open(board, plan, target) {
            targets.push(target)?;
        }
    }
    Ok(targets)
}

/// Whether the plan wishes a value of WRITE_PROTECT of a target at the end.
pub(crate) fn is_protected(plan: &Plan, target: usize) -> bool
    ensures { result ≡ is_protected plan.now.wishes.items target }
{
    plan.protect_of(target).is_some()
}

/// The targets that are protected at the end, in the board's order.
pub(crate) fn targets_to_protect(
    alloc: Global,
    board: &Board,
    plan: &Plan,
) -> Result<Vec<usize>, AllocError>
    ensures { IfOk result (λ targets.
        targets.items ≡ targets_to_protect board.now plan.now.wishes.items) }
{
    let mut targets = Vec::new(alloc);
    for target in 0..board.targets().len() {
        if is_protected(plan, target) {
            targets.push(target)?;
        }
    }
    Ok(targets)
}
