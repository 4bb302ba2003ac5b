ghost use Rattle.std.specs.Prelude.{◌≡◌, ◌≢◌, ◌≤◌, ◌<◌, ◌+◌, ◌↔◌, length, slice_get, option_map};
ghost use Rattle.std.specs.Prelude.{All, IfOk, IfErr, IfSome, OnOk, Some, IsTrue};
ghost use Rattle.seq_program.specs.Messages.{message_of};
ghost use Rattle.seq_program.specs.Valid.{IsInstr, IsProgram, IsOnBoard};
ghost use Rattle.targets.specs.Fitting.{FitsStep};
ghost use Rattle.targets.specs.States.{Belongs, BusState as AnyState};
ghost use Rattle.simulator.specs.Faults.{index_of, most_ticks, IsStepFault};
ghost use Rattle.simulator.specs.Machines.{IsMachine};
ghost use Rattle.simulator.specs.Moves.{moved};
ghost use Rattle.simulator.specs.Steps.{IsStepOf, IsStep};
ghost use Rattle.simulator.specs.Traces.{HasItsFrame};
ghost use Rattle.simulator.specs.declared.fault.RunFault.{RunFault};
ghost use Rattle.simulator.specs.declared.fault.RunFault.TheVariants.{Memory};
ghost use Rattle.simulator.specs.declared.machine.Ending.TheVariants.{Running};
ghost use Rattle.seq_program.specs.declared.program.TheConstants.{MOST_PLACES};

use crate::fault::RunFault;
use crate::lines::step_samples;
use crate::machine::{Ending, Entry, Machine};
use crate::moves::{after_message, silently};
use bit_bus::reads_back;
use board::{Board, board_is_valid};
use seq_program::{Instr, Program, message_of, program_is_valid};
use smbus::{Answer, Message, contenders_have_one_frame, slots_are_one_frame};
use std::alloc::{AllocError, Global};
use std::mem::swap;
use targets::{
    Outcome, after_into, contenders_change_this, contenders_may_win, fits, ranges_are_of_forms,
    states_belong,
};
use wires::MOST_SAMPLES;

/// The most ticks of a run, a sample each.
pub const MOST_TICKS: u64 = MOST_SAMPLES;

fn is_running(machine: &Machine) -> bool
    ensures { IsTrue result ↔ (machine.now.ended ≡ Running) }
{
    matches!(machine.ended, Ending::Running)
}

/// The instruction at the place of a machine.
fn instr_of<'a>(program: &'a Program, machine: &Machine) -> &'a Instr
    requires { machine.now.place < length program.now }
    ensures at { slice_get program.now machine.now.place ≡ Some result.now }
    ensures instr { IsInstr result.now }
    ensures few { machine.now.place < MOST_PLACES }
    ensures program { IsProgram program.now }
{
    program_is_valid(program);
    match program.at(machine.place) {
        Some(instr) => instr,
        None => unreachable!(),
    }
}

/// Moves a machine on behind an instruction that sent this message, or none, and leaves the
/// targets' state as it is.
fn move_on(instr: &Instr, message: Option<&Message>, outcome: Outcome, machine: &mut Machine)
    requires { machine.old.place < MOST_PLACES }
    ensures machine { (bus : AnyState) → record machine.new { bus = bus }
        ≡ moved instr.now (option_map (λ m. m.now) message.entry) outcome bus machine.old }
    ensures bus { machine.new.bus ≡ machine.old.bus }
{
    match message {
        Some(_) => after_message(instr, outcome, machine),
        None => silently(instr, machine),
    }
}

/// How the message ended, if there is one.
fn sent_outcome(message: Option<&Message>, outcome: Outcome) -> Option<Outcome>
    ensures { result ≡ option_map (λ m. outcome) message.entry }
{
    match message {
        Some(_) => Some(outcome),
        None => None,
    }
}

/// Makes the step of an instruction that sends this message, or none, under an answer that fits.
fn step_by(
    alloc: Global,
    board: &Board,
    instr: &Instr,
    message: Option<&Message>,
    machine: &mut Machine,
    entry: &mut Entry,
    answer: &Answer,
) -> Result<(), AllocError>
    requires instr { IsInstr instr.now }
    requires asked { option_map (λ m. m.now) message
        ≡ message_of board.now instr.now machine.old.regs }
    requires few { machine.old.place < MOST_PLACES }
    requires fits { FitsStep board.now machine.old.bus
        (option_map (λ m. m.now) message) answer.now }
    ensures step { OnOk result
        (IsStepOf board.now instr.now
        (option_map (λ m. m.now) message.entry) machine.old answer.now entry.new machine.new) }
    ensures seen { OnOk result (HasItsFrame entry.new) }
    ensures belongs { OnOk result
        (Belongs board.now machine.old.bus → Belongs board.now machine.new.bus) }
{
    board_is_valid(board);
    slots_are_one_frame();
    contenders_have_one_frame();
    reads_back();
    states_belong();
    ranges_are_of_forms();
    contenders_may_win();
    contenders_change_this();
    step_samples(
        alloc,
        &mut entry.samples,
        &machine.bus,
        instr,
        message,
        answer,
    )?;
    let outcome = after_into(&mut entry.before, board, &machine.bus, message, answer)?;
    entry.place = machine.place;
    entry.outcome = sent_outcome(message, outcome);
    entry.ticks = entry.samples.total();
    move_on(instr, message, outcome, machine);
    swap(&mut entry.before, &mut machine.bus);
    Ok(())
}

/// A run under way.
#[derive(Drop)]
pub struct Stage {
    pub machine: Machine,
    /// What the last step left to be seen.
    pub entry: Entry,
}

impl Stage {
    /// Before the first step, with nothing to be seen yet.
    pub fn new(alloc: Global, machine: Machine) -> Stage
        ensures { result.machine ≡ machine }
    {
        Stage {
            machine,
            entry: Entry::empty(alloc),
        }
    }

    /// Makes the step under the answer of an index, where so many samples stand before it. The
    /// program and the machine are those of the board.
    ///
    /// AfterEnd is answered where the program has ended, then AnswerDoesNotFit where the targets
    /// can't answer so, both with the index, then TooLong where the run would have over 2^40 ticks.
    /// Memory is answered where a growth was refused. Behind an answer that gives no step the stage
    /// is what it was; behind TooLong and Memory it is of no more use.
    pub fn step(
        &mut self,
        alloc: Global,
        board: &Board,
        program: &Program,
        answer: &Answer,
        index: usize,
        before: u64,
    ) -> Result<(), RunFault>
        requires on_board { All (λ i. IsOnBoard (length board.now.targets) i) program.now }
        requires machine { IsMachine board.now program.now self.old.machine }
        requires before { before ≤ most_ticks }
        ensures step { OnOk result
            (IsStep board.now program.now self.old.machine answer.now self.new.entry
            self.new.machine) }
        ensures within { OnOk result (before + self.new.entry.ticks ≤ most_ticks) }
        ensures machine { OnOk result (IsMachine board.now program.now self.new.machine) }
        ensures seen { OnOk result (HasItsFrame self.new.entry) }
        ensures fault { IfErr result (λ e. e ≢ Memory
            → IsStepFault board.now program.now self.old.machine answer.now before index e) }
        ensures stays { IfErr result (λ e. IfSome (index_of e) (λ i. self.new ≡ self.old)) }
    {
        let machine = &self.machine;
        if !is_running(machine) {
            return Err(RunFault::AfterEnd(index));
        }
        let instr = instr_of(program, machine);
        let message = message_of(alloc, board, instr, &machine.regs)?;
        let message = message.as_ref();
        if !fits(board, &machine.bus, message, answer) {
            return Err(RunFault::AnswerDoesNotFit(index));
        }
        step_by(
            alloc,
            board,
            instr,
            message,
            &mut self.machine,
            &mut self.entry,
            answer,
        )?;
        if self.entry.ticks > MOST_TICKS - before {
            return Err(RunFault::TooLong);
        }
        Ok(())
    }
}

/// One step of a program: the machine after it, and what it leaves to be seen. The program and the
/// machine are those of the board.
///
/// AfterEnd is answered where the program has ended, then AnswerDoesNotFit where the targets can't
/// answer so, then TooLong for over 2^40 ticks; both indices are 0. Memory is answered where
/// a growth was refused.
pub fn step(
    alloc: Global,
    board: &Board,
    program: &Program,
    machine: &Machine,
    answer: &Answer,
) -> Result<(Machine, Entry), RunFault>
    requires on_board { All (λ i. IsOnBoard (length board.now.targets) i) program.now }
    requires machine { IsMachine board.now program.now machine.now }
    ensures step { IfOk result (λ r. IsStep board.now program.now machine.now answer.now r.1 r.0) }
    ensures within { IfOk result (λ r. r.1.ticks ≤ most_ticks) }
    ensures machine { IfOk result (λ r. IsMachine board.now program.now r.0) }
    ensures seen { IfOk result (λ r. HasItsFrame r.1) }
    ensures fault { IfErr result
        (λ e. e ≢ Memory → IsStepFault board.now program.now machine.now answer.now 0 0 e) }
{
    let mut stage = Stage::new(alloc, machine.copied()?);
    stage.step(alloc, board, program, answer, 0, 0)?;
    Ok((stage.machine, stage.entry))
}
