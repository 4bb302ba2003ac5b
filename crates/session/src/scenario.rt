ghost use Rattle.std.specs.Prelude.{IfOk};
ghost use Rattle.bundles.specs.Views.{section_view};
ghost use Rattle.bundles.specs.Answers.{answers_in};
ghost use Rattle.session.specs.Faults.{faulted};
ghost use Rattle.session.specs.Scenarios.{scenario_in, IsOnItsBoard};
ghost use Rattle.session.specs.Unreads.{Reads};
ghost use Rattle.session.specs.declared.fault.InputFault.TheVariants.{Bundle};

use crate::sequence::{Sequence, sequence_in};
use crate::unread::{Unread, of_bundle};
use board::Board;
use bundles::{Answers, Section, answers_in};
use seq_program::Program;
use std::alloc::Global;
use texts::ReadError;

/// A program on its board, how the targets start, and what they answer.
#[derive(Drop)]
pub struct Scenario<'a> {
    pub board: Board,
    pub program: Program,
    pub answers: Answers<'a>,
}

/// How the targets start and what they answer, by a section.
fn answers_of<'a>(alloc: Global, section: &Section<'a>) -> Result<Answers<'a>, ReadError<Unread>>
    ensures { Reads (λ a. a) result (faulted Bundle (answers_in (section_view section.now))) }
{
    answers_in(alloc, section).map_err(of_bundle)
}

/// What the sections of a run say, read in order.
#[tactic(auto, unfolding(crate::specs::Scenarios::scenario_in))]
pub fn scenario_in<'a>(
    alloc: Global,
    on: &Section<'_>,
    program: &Section<'_>,
    answered: &Section<'a>,
) -> Result<Scenario<'a>, ReadError<Unread>>
    ensures value { Reads (λ s. s) result
        (scenario_in (section_view on.now) (section_view program.now) (section_view answered.now)) }
    ensures on_board { IfOk result IsOnItsBoard }
{
    let Sequence { board, program } = sequence_in(alloc, on, program)?;
    let answers = answers_of(alloc, answered)?;
    Ok(Scenario {
        board,
        program,
        answers,
    })
}
