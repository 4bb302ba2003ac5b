//! What a draft is asked with: a board, and the text of a plan.

ghost use Rattle.bundles.specs.Views.{section_view};
ghost use Rattle.session.specs.Planned.{planned_in, planned_view};
ghost use Rattle.session.specs.Unreads.{Reads};

use crate::section::section_text;
use crate::sequence::board_in;
use crate::unread::Unread;
use board::Board;
use bundles::Section;
use std::alloc::Global;
use texts::ReadError;

/// A board, and the text of a plan for it.
#[derive(Drop)]
pub struct Planned {
    pub board: Board,
    pub plan: String,
}

/// What the sections of a draft say, read in order, but for the plan.
#[tactic(auto, unfolding(crate::specs::Planned::planned_in))]
pub(crate) fn planned_in(
    alloc: Global,
    on: &Section<'_>,
    plan: &Section<'_>,
) -> Result<Planned, ReadError<Unread>>
    ensures { Reads planned_view result
        (planned_in (section_view on.now) (section_view plan.now)) }
{
    let board = board_in(alloc, on)?;
    let plan = section_text(alloc, plan)?;
    Ok(Planned { board, plan })
}
