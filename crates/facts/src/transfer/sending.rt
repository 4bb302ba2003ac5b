//! The ways of an instruction that sends a message to a target.

ghost use Rattle.std.specs.Prelude.{◌≡◌, ◌<◌, length, IfOk};
ghost use Rattle.facts.specs.domain.Rows.{row_view};
ghost use Rattle.seq_program.specs.RequestViews.{request_view};
ghost use Rattle.facts.specs.transfer.Edges.{sent_edges};
ghost use Rattle.facts.specs.transfer.Effects.{IsOfKinds};
ghost use Rattle.facts.specs.transfer.Ways.{ways_list};
ghost use Rattle.seq_program.specs.declared.program.TheConstants.{MOST_PLACES};

use crate::domain::row::Row;
use crate::transfer::changes::{done_row, else_row};
use crate::transfer::effect::effect_of;
use crate::transfer::loading::loaded;
use crate::transfer::moves::copied;
use crate::transfer::ways::{Ways, two_ways};
use board::Board;
use seq_program::Request;
use std::alloc::AllocError;

/// Done, and not done.
pub(crate) fn sent_ways(
    board: &Board,
    row: &Row,
    request: &Request<'_>,
    place: usize,
) -> Result<Ways, AllocError>
    requires place { place < MOST_PLACES }
    requires pages { request.now.target < length row.now.pages.items }
    requires protects { request.now.target < length row.now.protects.items }
    requires kinds { IsOfKinds (request_view request.now).transaction }
    ensures { IfOk result (λ w. ways_list w
        ≡ sent_edges board.now place (request_view request.now) (row_view row.now)) }
{
    let target = request.target;
    let effect = effect_of(&request.transaction);
    let span = loaded(board, target, &request.transaction);
    let done = done_row(board, copied(row)?, target, span, &effect);
    let left = else_row(board, copied(row)?, target, &effect);
    Ok(two_ways(place + 1, done, request.otherwise, left))
}
