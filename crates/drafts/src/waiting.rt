//! Which rail waits for which.

ghost use Rattle.std.specs.Prelude.{◌≡◌, length, IfSome, IfNone};
ghost use Rattle.drafts.specs.Waiting.{needs, waits_for};
ghost use Rattle.drafts.specs.Orders.{IsReady};
ghost use Rattle.drafts.specs.Missing.{IsMissing};

use board::Board;
use plans::Plan;

/// Whether a rail needs another.
pub(crate) fn needs(board: &Board, rail: usize, other: usize) -> bool
    ensures { result ≡ needs board.now rail other }
{
    match board.rail(rail) {
        Some(output) => output.needs().contains(&other),
        None => false,
    }
}

/// Whether a rail is turned on only behind another: it needs that one, or the plan puts that one
/// before it.
pub(crate) fn waits_for(board: &Board, plan: &Plan, rail: usize, other: usize) -> bool
    ensures { result ≡ waits_for board.now plan.now.wishes.items rail other }
{
    needs(board, rail, other) || plan.puts_before(other, rail)
}

/// The first rail that another one still waits for, with those that are placed before it.
pub(crate) fn awaited(board: &Board, plan: &Plan, placed: &[usize], rail: usize) -> Option<usize>
    ensures missing { IfSome result (IsMissing (waits_for board.now plan.now.wishes.items)
        (length board.now.rails) placed.now rail) }
    ensures ready { IfNone result (IsReady (waits_for board.now plan.now.wishes.items)
        (length board.now.rails) placed.now rail) }
{
    for other in 0..board.rails().len() {
        if waits_for(board, plan, rail, other) && !placed.contains(&other) {
            return Some(other);
        }
    }
    None
}
