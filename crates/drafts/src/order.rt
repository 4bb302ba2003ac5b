//! The order in which the rails are turned on.

ghost use Rattle.std.specs.Prelude.{◌≡◌, ◌<◌, ℕ, length, false, IsTrue, IfSome, IfNone, IfOk};
ghost use Rattle.std.specs.Prelude.{IfErr};
ghost use Rattle.drafts.specs.Waiting.{waits_for};
ghost use Rattle.drafts.specs.Orders.{is_placed, IsNext};
ghost use Rattle.drafts.specs.Missing.{IsReadyNext, IsHeldUp, EachIsHeldUp, IsFirstUnplaced};
ghost use Rattle.drafts.specs.Faults.{IsOrderOn, IsFault};

use crate::fault::Undraftable;
use crate::waiting::awaited;
use board::Board;
use plans::Plan;
use std::alloc::Global;
use texts::ReadError;

/// Whether a rail isn't placed yet, and waits for no rail that isn't.
fn is_ready(board: &Board, plan: &Plan, placed: &[usize], rail: usize) -> bool
    ensures ready { IsTrue result → IsReadyNext (waits_for board.now plan.now.wishes.items)
        (length board.now.rails) placed.now rail }
    ensures waits { result ≡ false → IsHeldUp (waits_for board.now plan.now.wishes.items)
        (length board.now.rails) placed.now rail }
{
    if placed.contains(&rail) {
        return false;
    }
    awaited(board, plan, placed, rail).is_none()
}

/// The first rail of the board that isn't placed yet and waits for no rail that isn't.
fn next_rail(board: &Board, plan: &Plan, placed: &[usize]) -> Option<usize>
    ensures next { IfSome result (IsNext (waits_for board.now plan.now.wishes.items)
        (length board.now.rails) placed.now) }
    ensures none { IfNone result (EachIsHeldUp (waits_for board.now plan.now.wishes.items)
        (length board.now.rails) placed.now (length board.now.rails)) }
{
    for rail in 0..board.rails().len() {
        if is_ready(board, plan, placed, rail) {
            return Some(rail);
        }
    }
    None
}

/// The first rail of the board that isn't placed yet.
fn first_unplaced(board: &Board, placed: &[usize]) -> Option<usize>
    ensures first { IfSome result (IsFirstUnplaced (length board.now.rails) placed.now) }
    ensures none { IfNone result
        ((d : ℕ) → d < length board.now.rails → IsTrue (is_placed placed.now d)) }
{
    for rail in 0..board.rails().len() {
        if !placed.contains(&rail) {
            return Some(rail);
        }
    }
    None
}

/// The rails of a board in the order in which they are turned on: each behind those that it waits
/// for, and else in the board's order. `Circle` tells the first rail that no order can place.
pub(crate) fn order_of(
    alloc: Global,
    board: &Board,
    plan: &Plan,
) -> Result<Vec<usize>, ReadError<Undraftable>>
    ensures order { IfOk result (λ order.
        IsOrderOn board.now plan.now.wishes.items order.items) }
    ensures fault { IfErr result (IsFault board.now plan.now.wishes.items) }
{
    let mut order = Vec::new(alloc);
    while let Some(rail) = next_rail(board, plan, &order) {
        order.push(rail)?;
    }
    match first_unplaced(board, &order) {
        Some(rail) => Err(ReadError::Fault(Undraftable::Circle(rail))),
        None => Ok(order),
    }
}
