//! Whether the voltages that are wished keep to the rails' limits.

ghost use Rattle.std.specs.Prelude.{◌≡◌, not, slice_get, None, OnOk, IfErr};
ghost use Rattle.drafts.specs.Requests.{first_refused};
ghost use Rattle.drafts.specs.Limits.{is_over, exceeds_limit, first_over};
ghost use Rattle.drafts.specs.Faults.{IsOrderOn, IsFault};

use crate::fault::Undraftable;
use board::{Board, Rail};
use plans::Plan;
use pmbus_table::within;
use texts::ReadError;

fn is_over(board: &Board, output: &Rail, mantissa: u16) -> bool
    ensures { result
        ≡ is_over output.now mantissa (slice_get board.now.targets output.now.target) }
{
    match board.target(output.target()) {
        Some(target) => !within(mantissa, target.exponent(), output.limit_uv()),
        None => false,
    }
}

/// Whether the voltage that is wished for a rail is over its limit.
fn exceeds_limit(board: &Board, plan: &Plan, rail: usize) -> bool
    ensures { result ≡ exceeds_limit board.now plan.now.wishes.items rail }
{
    match (board.rail(rail), plan.voltage_of(rail)) {
        (Some(output), Some(mantissa)) => is_over(board, output, mantissa),
        _ => false,
    }
}

fn first_over(board: &Board, plan: &Plan, order: &[usize]) -> Option<usize>
    ensures { result ≡ first_over board.now plan.now.wishes.items order.now }
{
    order
        .iter()
        .copied()
        .find(|rail| exceeds_limit(board, plan, *rail))
}

/// Fails with `OverLimit` of the first rail whose voltage is over its limit.
pub(crate) fn check_limits(
    board: &Board,
    plan: &Plan,
    order: &[usize],
) -> Result<(), ReadError<Undraftable>>
    requires ordered { IsOrderOn board.now plan.now.wishes.items order.now }
    requires permitted { first_refused board.now plan.now.wishes.items order.now ≡ None }
    ensures within { OnOk result
        (first_over board.now plan.now.wishes.items order.now ≡ None) }
    ensures fault { IfErr result (IsFault board.now plan.now.wishes.items) }
{
    match first_over(board, plan, order) {
        Some(rail) => Err(ReadError::Fault(Undraftable::OverLimit(rail))),
        None => Ok(()),
    }
}
