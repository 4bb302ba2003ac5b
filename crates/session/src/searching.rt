ghost use Rattle.std.specs.Prelude.{IfOk};
ghost use Rattle.session.specs.Outcomes.{IsSearched, IsVerified};

use crate::checking::judged;
use crate::outcome::Judged;
use crate::sequence::Sequence;
use fact_search::{FindFault, find};
use std::alloc::{AllocError, Global};
use table_check::Table;

/// The table that a search finds, or the place at which it gave up.
pub(crate) fn search(alloc: Global, sequence: &Sequence) -> Result<Result<Table, usize>, AllocError>
    ensures { IfOk result (IsSearched sequence.now) }
{
    match find(alloc, &sequence.board, &sequence.program) {
        Ok(table) => Ok(Ok(table)),
        Err(FindFault::GaveUp(place)) => Ok(Err(place)),
        Err(FindFault::Memory) => Err(AllocError),
    }
}

/// The verdict on the table that a search finds, or the place at which it gave up.
pub(crate) fn verify(
    alloc: Global,
    sequence: &Sequence,
) -> Result<Result<Judged, usize>, AllocError>
    ensures { IfOk result (IsVerified sequence.now) }
{
    match search(alloc, sequence)? {
        Ok(table) => Ok(Ok(judged(alloc, &sequence.board, &sequence.program, table)?)),
        Err(place) => Ok(Err(place)),
    }
}
