ghost use Rattle.std.specs.Prelude.{◌≢◌, length, All, IfOk, IfErr};
ghost use Rattle.seq_program.specs.Valid.{IsOnBoard};
ghost use Rattle.simulator.specs.Faults.{RunFails};
ghost use Rattle.simulator.specs.Machines.{IsMachine};
ghost use Rattle.simulator.specs.RunLaws.{RunIsSeen};
ghost use Rattle.simulator.specs.Steps.{IsRun};
ghost use Rattle.simulator.specs.declared.fault.RunFault.TheVariants.{Memory};

use crate::fault::RunFault;
use crate::law::runs_are_seen;
use crate::machine::{Entry, Machine, registers_are_words};
use crate::stepping::Stage;
use board::{Board, board_is_valid};
use seq_program::{Program, program_is_valid};
use smbus::Answer;
use std::alloc::Global;
use std::marker::Model;

/// The steps of a run, and the machine after them. The samples of a step that sent a message are
/// those of one frame, those of any other step of none, and all steps together take at most
/// 2^40 ticks.
#[derive(Debug, Drop)]
pub struct Trace {
    pub entries: Vec<Entry>,
    pub last: Machine,
}

impl Model for Trace {
    ghost use Rattle.simulator.specs.Traces.{Trace, IsTrace};

    ghost Value = { Trace };

    ghost view = { λ t. record { entries = t.entries.items; last = t.last } };

    ghost invariant = { λ t. IsTrace (record { entries = t.entries.items; last = t.last }) };
}

/// The run of a program from a machine: a step for each answer. The program and the machine are
/// those of the board.
///
/// The first answer that has no step is told: AfterEnd where the program has ended, then
/// AnswerDoesNotFit, both with the answer's index, then TooLong where the run would have over
/// 2^40 ticks. Memory is answered where a growth was refused.
pub fn run(
    alloc: Global,
    board: &Board,
    program: &Program,
    machine: &Machine,
    answers: &[Answer],
) -> Result<Trace, RunFault>
    requires on_board { All (λ i. IsOnBoard (length board.now.targets) i) program.now }
    requires machine { IsMachine board.now program.now machine.now }
    ensures run { IfOk result
        (λ t. IsRun board.now program.now machine.now answers.now t.entries t.last) }
    ensures machine { IfOk result (λ t. IsMachine board.now program.now t.last) }
    // Its samples are read as the frames of its messages, in order, and as no others.
    ensures seen { IfOk result
        (λ t. RunIsSeen board.now program.now machine.now answers.now t.entries t.last) }
    ensures fault { IfErr result
        (λ e. e ≢ Memory → RunFails board.now program.now machine.now answers.now e) }
{
    board_is_valid(board);
    program_is_valid(program);
    registers_are_words(&machine.regs);
    runs_are_seen();
    let mut last = machine.copied()?;
    let mut entries = Vec::new(alloc);
    let mut ticks = 0;
    for (index, answer) in answers.iter().enumerate() {
        let mut stage = Stage::new(alloc, last);
        stage.step(alloc, board, program, answer, index, ticks)?;
        let Stage { machine, entry } = stage;
        ticks += entry.ticks;
        entries.push(entry)?;
        last = machine;
    }
    Ok(Trace { entries, last })
}
