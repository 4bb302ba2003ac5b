//! A run that breaks a rule, made once more.

ghost use Rattle.std.specs.Prelude.{◌≡◌, ◌<◌, ◌≤◌, ◌+◌, All, IfOk, IfSome, IsTrue, None, length};
ghost use Rattle.std.specs.Prelude.{take};
ghost use Rattle.targets.specs.States.{IsStart};
ghost use Rattle.seq_program.specs.Valid.{IsOnBoard};
ghost use Rattle.simulator.specs.Faults.{most_ticks};
ghost use Rattle.simulator.specs.Machines.{IsMachine, start_at, start_state};
ghost use Rattle.table_check.specs.Tables.{Table};
ghost use Rattle.table_check.specs.checker.Obligations.{IsInductive};
ghost use Rattle.breach_search.specs.Harms.{BreaksAtLast, IsHarm, IsWatchedStep};

use crate::starts::Start;
use board::{Board, board_is_valid};
use bundles::can_be_said;
use run_monitor::{Breach, Monitor, accepted_runs_keep_rules};
use seq_program::{Program, program_is_valid};
use simulator::{RunFault, Stage, Trace, runs_go_on, start, steps_are_seen};
use smbus::Answer;
use std::alloc::{AllocError, Global};
use table_check::accepted_runs_are_admitted;

/// A run that breaks a rule: how the targets start, and what they answer up to the step that does.
#[derive(Drop)]
pub struct Harm {
    /// PAGE of each target at the start.
    pub pages: Vec<u8>,
    /// WRITE_PROTECT of each target at the start.
    pub protects: Vec<u8>,
    pub answers: Vec<Answer>,
    pub breach: Breach,
}

/// A run in which a program breaks a rule with its last instruction, and its steps.
#[derive(Drop)]
pub struct Shown {
    pub harm: Harm,
    pub trace: Trace,
}

/// The stage before the first step, if the targets may start so.
fn first_stage(alloc: Global, board: &Board, from: &Start) -> Result<Option<Stage>, AllocError>
    ensures first { IfOk result (λ stage. IfSome stage (λ s. s.machine
        ≡ start_at (start_state from.now.pages.items from.now.protects.items))) }
    ensures may { IfOk result (λ stage. IfSome stage (λ s. IsStart board.now
        (start_state from.now.pages.items from.now.protects.items))) }
{
    match start(alloc, board, &from.pages, &from.protects) {
        Ok(machine) => Ok(Some(Stage::new(alloc, machine))),
        Err(RunFault::Memory) => Err(AllocError),
        Err(_) => Ok(None),
    }
}

/// Looks at a step and makes it. Tells whether it can be made, under an answer that can be said.
fn is_made(
    alloc: Global,
    board: &Board,
    program: &Program,
    watch: &mut Monitor,
    stage: &mut Stage,
    answer: &Answer,
    index: usize,
    ticks: u64,
) -> Result<bool, AllocError>
    requires on_board { All (λ i. IsOnBoard (length board.now.targets) i) program.now }
    requires machine { IsMachine board.now program.now stage.old.machine }
    requires before { ticks ≤ most_ticks }
    ensures { IfOk result (λ made. IsTrue made → IsWatchedStep board.now program.now
        stage.old.machine answer.now index ticks watch.old watch.new stage.new.entry
        stage.new.machine) }
{
    watch.see(alloc, board, program, &stage.machine, answer, index)?;
    match stage.step(alloc, board, program, answer, index, ticks) {
        Ok(()) => Ok(can_be_said(answer)),
        Err(RunFault::Memory) => Err(AllocError),
        Err(_) => Ok(false),
    }
}

/// The first rule that a run breaks, if its answers fit and can be said as far as the step that
/// breaks it, and that step can be made too. So the answers as far are a run that is read back.
fn breach_of(
    alloc: Global,
    board: &Board,
    program: &Program,
    from: &Start,
    answers: &[Answer],
) -> Result<Option<Breach>, AllocError>
    requires on_board { All (λ i. IsOnBoard (length board.now.targets) i) program.now }
    ensures breaks { IfOk result (λ found. IfSome found (λ x. BreaksAtLast board.now program.now
        (start_state from.now.pages.items from.now.protects.items)
        (take (x.index + 1) answers.now) x)) }
    ensures index { IfOk result (λ found. IfSome found (λ x. x.index < length answers.now)) }
    ensures spares { IfOk result
        (λ found. (t : Table) → IsInductive board.now program.now t → found ≡ None) }
{
    board_is_valid(board);
    program_is_valid(program);
    steps_are_seen();
    runs_go_on();
    accepted_runs_are_admitted();
    accepted_runs_keep_rules();
    let Some(mut stage) = first_stage(alloc, board, from)? else {
        return Ok(None);
    };
    let mut watch = Monitor::new();
    let mut ticks = 0;
    for (index, answer) in answers.iter().enumerate() {
        if !is_made(
            alloc, board, program, &mut watch, &mut stage, answer, index, ticks,
        )? {
            return Ok(None);
        }
        if let Some(found) = &watch.found {
            return Ok(Some(found.breach));
        }
        ticks += stage.entry.ticks;
    }
    Ok(None)
}

/// A run from a start under these answers, as far as the first of them whose step breaks a rule.
pub(crate) fn harm_of(
    alloc: Global,
    board: &Board,
    program: &Program,
    from: &Start,
    mut answers: Vec<Answer>,
) -> Result<Option<Harm>, AllocError>
    requires on_board { All (λ i. IsOnBoard (length board.now.targets) i) program.now }
    ensures harm { IfOk result (λ found. IfSome found (IsHarm board.now program.now)) }
    ensures spares { IfOk result
        (λ found. (t : Table) → IsInductive board.now program.now t → found ≡ None) }
{
    let Some(breach) = breach_of(alloc, board, program, from, &answers)? else {
        return Ok(None);
    };
    answers.truncate(breach.index + 1);
    Ok(Some(Harm {
        pages: from.pages.clone()?,
        protects: from.protects.clone()?,
        answers,
        breach,
    }))
}
