ghost use Rattle.bundles.specs.Views.{section_view};
ghost use Rattle.session.specs.Trials.{trial_in, trial_view};
ghost use Rattle.session.specs.Unreads.{Reads};

use crate::section::section_text;
use crate::sequence::{Sequence, sequence_in};
use crate::unread::Unread;
use board::Board;
use bundles::Section;
use seq_program::Program;
use std::alloc::Global;
use texts::ReadError;

/// A program on its board, and the text of a table of facts.
#[derive(Drop)]
pub struct Trial {
    pub board: Board,
    pub program: Program,
    pub table: String,
}

/// What the sections of a check say, read in order, but for the table.
#[tactic(auto, unfolding(crate::specs::Trials::trial_in))]
pub fn trial_in(
    alloc: Global,
    on: &Section<'_>,
    program: &Section<'_>,
    table: &Section<'_>,
) -> Result<Trial, ReadError<Unread>>
    ensures { Reads trial_view result
        (trial_in (section_view on.now) (section_view program.now) (section_view table.now)) }
{
    let Sequence { board, program } = sequence_in(alloc, on, program)?;
    let table = section_text(alloc, table)?;
    Ok(Trial {
        board,
        program,
        table,
    })
}
