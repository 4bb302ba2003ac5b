//! A run that is played to its end.

ghost use Rattle.std.specs.Prelude.{◌≡◌, ◌≤◌, ◌↔◌, length, All, IfOk, IfSome, IsTrue};
ghost use Rattle.bundles.specs.AnswerTexts.{CanBeSaid};
ghost use Rattle.run_player.specs.PlayedSteps.{IsPlayedStep};
ghost use Rattle.run_player.specs.Plays.{IsPlay, IsPlayedFrom};
ghost use Rattle.seq_program.specs.Valid.{IsOnBoard};
ghost use Rattle.simulator.specs.Faults.{most_ticks};
ghost use Rattle.simulator.specs.Machines.{IsMachine, start_at, start_state};
ghost use Rattle.simulator.specs.declared.machine.Ending.TheVariants.{Running};
ghost use Rattle.targets.specs.States.{IsStart};

use crate::answering::answer_to;
use crate::chance::Chance;
use crate::reading::{Values, good_words, tests_of};
use crate::starting::start_values;
use board::Board;
use seq_program::{Program, message_of, program_is_valid};
use simulator::{Ending, Machine, RunFault, Stage, runs_go_on, start};
use smbus::Answer;
use std::alloc::{AllocError, Global};

/// The most steps that are played.
pub const MOST_STEPS: usize = 100_000;

/// A run: how the targets start, what they answer step by step, and whether the program ended.
#[derive(Drop)]
pub struct Played {
    /// PAGE of each target at the start.
    pub pages: Vec<u8>,
    /// WRITE_PROTECT of each target at the start.
    pub protects: Vec<u8>,
    pub answers: Vec<Answer>,
    /// `Running` where the program goes on after the last answer.
    pub ended: Ending,
}

/// The answer to the instruction at a machine's place, if the targets can answer.
fn next_answer(
    alloc: Global,
    values: &Values<'_>,
    program: &Program,
    chance: &mut Chance,
    machine: &Machine,
) -> Result<Option<Answer>, AllocError>
    ensures { IfOk result (λ answer. IfSome answer CanBeSaid) }
{
    let Some(instr) = program.at(machine.place) else {
        return Ok(None);
    };
    let message = message_of(alloc, values.board, instr, &machine.regs)?;
    answer_to(alloc, values, chance, &machine.bus, message.as_ref())
}

/// Makes a step that is chosen, where so many stand before it that take so many ticks, and gives
/// its answer. `None` where the targets can't answer, or the run would take too long; behind that
/// the stage is of no more use.
fn play_step(
    alloc: Global,
    values: &Values<'_>,
    program: &Program,
    chance: &mut Chance,
    stage: &mut Stage,
    index: usize,
    before: u64,
) -> Result<Option<Answer>, AllocError>
    requires on_board { All (λ i. IsOnBoard (length values.now.board.now.targets) i) program.now }
    requires machine { IsMachine values.now.board.now program.now stage.old.machine }
    requires before { before ≤ most_ticks }
    ensures step { IfOk result (λ answer. IfSome answer (λ a. IsPlayedStep
        values.entry.now.board.now program.now before stage.old.machine a stage.new.entry
        stage.new.machine)) }
{
    let Some(answer) = next_answer(alloc, values, program, chance, &stage.machine)? else {
        return Ok(None);
    };
    match stage.step(alloc, values.board, program, &answer, index, before) {
        Ok(()) => Ok(Some(answer)),
        Err(RunFault::Memory) => Err(AllocError),
        Err(_) => Ok(None),
    }
}

/// The stage before the first step, where the targets start so.
fn first_stage(
    alloc: Global,
    board: &Board,
    program: &Program,
    pages: &[u8],
    protects: &[u8],
) -> Result<Stage, AllocError>
    requires { IsStart board.now (start_state pages.now protects.now) }
    ensures first { IfOk result
        (λ stage. stage.machine ≡ start_at (start_state pages.now protects.now)) }
    ensures machine { IfOk result (λ stage. IsMachine board.now program.now stage.machine) }
{
    program_is_valid(program);
    match start(alloc, board, pages, protects) {
        Ok(machine) => Ok(Stage::new(alloc, machine)),
        Err(RunFault::Memory) => Err(AllocError),
        Err(_) => unreachable!(),
    }
}

fn is_running(machine: &Machine) -> bool
    ensures { IsTrue result ↔ (machine.now.ended ≡ Running) }
{
    matches!(machine.ended, Ending::Running)
}

/// Plays from the start that is chosen, and gives the answers and how the program ended.
fn play_from(
    alloc: Global,
    values: &Values<'_>,
    program: &Program,
    chance: &mut Chance,
    pages: &[u8],
    protects: &[u8],
) -> Result<(Vec<Answer>, Ending), AllocError>
    requires on_board { All (λ i. IsOnBoard (length values.now.board.now.targets) i) program.now }
    requires may_start { IsStart values.now.board.now (start_state pages.now protects.now) }
    ensures { IfOk result (λ r. IsPlayedFrom values.entry.now.board.now program.now
        (start_state pages.now protects.now) r.0.items r.1) }
{
    runs_go_on();
    let mut stage = first_stage(alloc, values.board, program, pages, protects)?;
    let mut answers = Vec::new(alloc);
    let mut ticks = 0;
    while is_running(&stage.machine) && answers.len() < MOST_STEPS {
        let index = answers.len();
        let step = play_step(alloc, values, program, chance, &mut stage, index, ticks)?;
        let Some(answer) = step else {
            return Ok((answers, Ending::Running));
        };
        ticks += stage.entry.ticks;
        answers.push(answer)?;
    }
    Ok((answers, stage.machine.ended))
}

/// Plays a run of a program on its board, to its end or for at most 100,000 steps.
///
/// Seed 0 is the plain run: the first start values, every message done, words of STATUS_WORD that
/// report good where the entry's range has one (the least such), other values the least of their
/// ranges, no holds, no alerts and no other controller. Any other seed draws from all that the
/// board lets targets and other controllers do; the same seed always draws the same. Where the
/// targets can't answer, or the run would take more than 2^40 ticks, it ends before that step.
///
/// AllocError is answered where a growth was refused.
pub fn play(
    alloc: Global,
    board: &Board,
    program: &Program,
    seed: u64,
) -> Result<Played, AllocError>
    requires on_board { All (λ i. IsOnBoard (length board.now.targets) i) program.now }
    ensures { IfOk result (IsPlay board.now program.now) }
{
    let tests = tests_of(alloc, program)?;
    let good = good_words(alloc, board)?;
    let values = Values {
        board,
        tests: &tests,
        good: &good,
    };
    let mut chance = Chance::of_seed(seed);
    let (pages, protects) = start_values(alloc, board, &mut chance)?;
    let (answers, ended) = play_from(alloc, &values, program, &mut chance, &pages, &protects)?;
    Ok(Played {
        pages,
        protects,
        answers,
        ended,
    })
}
