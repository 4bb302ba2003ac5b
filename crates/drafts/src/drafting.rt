//! Drafting: the order first, then what can't be sent or is over a limit, and then the text.

ghost use Rattle.std.specs.Prelude.{IfOk, IfErr};
ghost use Rattle.drafts.specs.Faults.{IsFault};
ghost use Rattle.drafts.specs.Drafts.{IsDraft};

use crate::fault::Undraftable;
use crate::limits::check_limits;
use crate::order::order_of;
use crate::outline::parts_of;
use crate::part::Draft;
use crate::requests::check_requests;
use crate::writing::text_of;
use board::Board;
use plans::Plan;
use std::alloc::Global;
use texts::ReadError;

/// The program that brings up the rails of a board as a plan wishes it. It isn't judged here. Fails
/// with `Circle`, `NoEntry` and `OverLimit`, the first in this order, and where memory runs out.
pub fn draft(alloc: Global, board: &Board, plan: &Plan) -> Result<Draft, ReadError<Undraftable>>
    ensures draft { IfOk result (IsDraft board.now plan.now.wishes.items) }
    ensures fault { IfErr result (IsFault board.now plan.now.wishes.items) }
{
    let order = order_of(alloc, board, plan)?;
    check_requests(alloc, board, plan, &order)?;
    check_limits(board, plan, &order)?;
    let parts = parts_of(alloc, board, plan, &order)?;
    let text = text_of(alloc, board, plan, &order, &parts)?;
    Ok(Draft { order, parts, text })
}
