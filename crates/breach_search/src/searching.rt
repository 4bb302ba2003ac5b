//! The search for a run that breaks a rule.

ghost use Rattle.std.specs.Prelude.{◌≡◌, All, IfOk, IfSome, None, length};
ghost use Rattle.seq_program.specs.Valid.{IsOnBoard};
ghost use Rattle.simulator.specs.Machines.{IsMachine};
ghost use Rattle.table_check.specs.Tables.{Table};
ghost use Rattle.table_check.specs.checker.Obligations.{IsInductive};
ghost use Rattle.breach_search.specs.Harms.{IsHarm};

use crate::choosing::Chooser;
use crate::distance::{UNREACHED, distances_to};
use crate::harm::{Harm, harm_of};
use crate::liveness::{Live, live_at};
use crate::queue::Queue;
use crate::starts::{Start, starts_of};
use crate::states::{State, key_of, state_of};
use crate::trail::{Origin, Trail};
use crate::values::tests_of;
use board::Board;
use facts::GoodSet;
use run_monitor::Monitor;
use seq_program::{Program, message_of};
use simulator::{Ending, Machine, RunFault, start, step};
use smbus::Answer;
use std::alloc::{AllocError, Global};

/// The most states that are ever kept.
pub const MOST_STATES: usize = 1_000_000;

/// So many answers are tried at most for each state that may be kept.
const MOST_ANSWERS: usize = 16;

/// A search under way.
#[derive(Drop)]
struct Search {
    distances: Vec<usize>,
    live: Vec<Live>,
    chooser: Chooser,
    trail: Trail,
    queue: Queue,
    /// The most states that are kept.
    most: usize,
    /// How many answers were tried.
    tried: usize,
}

fn is_running(machine: &Machine) -> bool {
    matches!(machine.ended, Ending::Running)
}

/// The machine after a step under an answer, if that fits.
fn machine_after(
    alloc: Global,
    board: &Board,
    program: &Program,
    machine: &Machine,
    answer: &Answer,
) -> Result<Option<Machine>, AllocError>
    requires on_board { All (λ i. IsOnBoard (length board.now.targets) i) program.now }
    requires machine { IsMachine board.now program.now machine.now }
{
    match step(alloc, board, program, machine, answer) {
        Ok((next, _)) => Ok(Some(next)),
        Err(RunFault::Memory) => Err(AllocError),
        Err(_) => Ok(None),
    }
}

impl Search {
    /// Keeps a state, if it is new and the program goes on, and if there is room.
    fn keep(
        &mut self,
        alloc: Global,
        board: &Board,
        machine: &Machine,
        good: GoodSet,
        origin: Origin,
    ) -> Result<(), AllocError> {
        if !is_running(machine) || self.is_full() {
            return Ok(());
        }
        let Some(live) = self.live.get(machine.place) else {
            return Ok(());
        };
        let key = key_of(alloc, board, machine, good, *live)?;
        if let Some(number) = self.trail.add(key, origin)? {
            let distance = self
                .distances
                .get(machine.place)
                .copied()
                .unwrap_or(UNREACHED);
            self.queue.push(distance, number)?;
        }
        Ok(())
    }

    fn is_full(&self) -> bool {
        self.trail.states.len() >= self.most || self.tried / MOST_ANSWERS >= self.most
    }

    /// Keeps the states in which a run may start.
    fn keep_starts(
        &mut self,
        alloc: Global,
        board: &Board,
        starts: &[Start],
    ) -> Result<(), AllocError> {
        for (number, at) in starts.iter().enumerate() {
            match start(alloc, board, &at.pages, &at.protects) {
                Ok(machine) => {
                    let origin = Origin::Start(number);
                    self.keep(alloc, board, &machine, GoodSet::empty(), origin)?;
                }
                Err(RunFault::Memory) => return Err(AllocError),
                Err(_) => {}
            }
        }
        Ok(())
    }

    /// The answers in a state that make a difference.
    fn answers_in(
        &mut self,
        alloc: Global,
        board: &Board,
        program: &Program,
        state: &State,
    ) -> Result<Vec<Answer>, AllocError> {
        let machine = &state.machine;
        let Some(instr) = program.at(machine.place) else {
            return Ok(Vec::new(alloc));
        };
        let message = message_of(alloc, board, instr, &machine.regs)?;
        self.chooser
            .answers_to(alloc, board, &machine.bus, message.as_ref())
    }

    /// Keeps the state behind a step, or tells that the step breaks a rule.
    fn breaks(
        &mut self,
        alloc: Global,
        board: &Board,
        program: &Program,
        state: &State,
        answer: &Answer,
        origin: Origin,
    ) -> Result<bool, AllocError>
        requires on_board { All (λ i. IsOnBoard (length board.now.targets) i) program.now }
        requires machine { IsMachine board.now program.now state.now.machine }
    {
        let mut watch = Monitor {
            good: state.good,
            found: None,
        };
        watch.see(alloc, board, program, &state.machine, answer, 0)?;
        if watch.found.is_some() {
            return Ok(true);
        }
        if let Some(next) = machine_after(alloc, board, program, &state.machine, answer)? {
            self.keep(alloc, board, &next, watch.good, origin)?;
        }
        Ok(false)
    }

    /// The state of a number.
    fn state_at(
        &self,
        alloc: Global,
        board: &Board,
        program: &Program,
        number: usize,
    ) -> Result<Option<State>, AllocError>
        ensures { IfOk result
            (λ found. IfSome found (λ state. IsMachine board.now program.now state.machine)) }
    {
        match self.trail.states.get_index(number) {
            Some((key, _)) => state_of(alloc, board, program, key),
            None => Ok(None),
        }
    }

    /// Looks at the state of a number: keeps what may come behind it, or tells that its instruction
    /// breaks a rule.
    fn is_harmful(
        &mut self,
        alloc: Global,
        board: &Board,
        program: &Program,
        number: usize,
    ) -> Result<bool, AllocError>
        requires { All (λ i. IsOnBoard (length board.now.targets) i) program.now }
    {
        let Some(state) = self.state_at(alloc, board, program, number)? else {
            return Ok(false);
        };
        let answers = self.answers_in(alloc, board, program, &state)?;
        self.tried = self.tried.saturating_add(answers.len());
        for (choice, answer) in answers.iter().enumerate() {
            let origin = Origin::Step(number, choice);
            if self.breaks(alloc, board, program, &state, answer, origin)? {
                return Ok(true);
            }
        }
        Ok(false)
    }

    /// The number of the first state that is found whose instruction breaks a rule. Each state that
    /// is kept is looked at once.
    fn find(
        &mut self,
        alloc: Global,
        board: &Board,
        program: &Program,
    ) -> Result<Option<usize>, AllocError>
        requires { All (λ i. IsOnBoard (length board.now.targets) i) program.now }
    {
        for _ in 0..self.most {
            let Some(number) = self.queue.next() else {
                return Ok(None);
            };
            if self.is_harmful(alloc, board, program, number)? {
                return Ok(Some(number));
            }
            if self.is_full() {
                return Ok(None);
            }
        }
        Ok(None)
    }

    /// The answer of a number in the state of a number.
    fn answer_at(
        &mut self,
        alloc: Global,
        board: &Board,
        program: &Program,
        number: usize,
        choice: usize,
    ) -> Result<Option<Answer>, AllocError> {
        let Some(state) = self.state_at(alloc, board, program, number)? else {
            return Ok(None);
        };
        let mut answers = self.answers_in(alloc, board, program, &state)?;
        if choice < answers.len() {
            Ok(Some(answers.swap_remove(choice)))
        } else {
            Ok(None)
        }
    }

    /// Adds the answer of a number in the state of a number.
    fn push_answer(
        &mut self,
        alloc: Global,
        board: &Board,
        program: &Program,
        answers: &mut Vec<Answer>,
        at: (usize, usize),
    ) -> Result<(), AllocError> {
        if let Some(answer) = self.answer_at(alloc, board, program, at.0, at.1)? {
            answers.push(answer)?;
        }
        Ok(())
    }

    /// The start and the answers of the way to a state, and one answer in it.
    fn way_to(
        &mut self,
        alloc: Global,
        board: &Board,
        program: &Program,
        number: usize,
    ) -> Result<(usize, Vec<Answer>), AllocError> {
        let (start, steps) = self.trail.way_to(alloc, number)?;
        let mut answers = Vec::new(alloc);
        for step in steps.iter().rev() {
            self.push_answer(alloc, board, program, &mut answers, *step)?;
        }
        self.push_answer(alloc, board, program, &mut answers, (number, 0))?;
        Ok((start, answers))
    }
}

/// The search before its first state.
fn search_toward(
    alloc: Global,
    program: &Program,
    toward: usize,
    most: usize,
) -> Result<Search, AllocError> {
    let tests = tests_of(alloc, program)?;
    Ok(Search {
        distances: distances_to(alloc, program, toward)?,
        live: live_at(alloc, program)?,
        chooser: Chooser::new(alloc, program, tests),
        trail: Trail::new(alloc),
        queue: Queue::new(alloc)?,
        most: most.min(MOST_STATES),
        tried: 0,
    })
}

/// Searches for a run of a program on its board that breaks a rule from K1 to K5, with what the
/// rails reported so far. Ways that lead to the place `toward` are tried first.
///
/// The search looks at states of the machine and of what is known, each once, and in each at the
/// answers that can make a difference: done with the values at which a test of the program turns,
/// refused, cut, lost, and with an alert. It gives up when it has kept `most` states, at most
/// 1,000,000, or tried 16 times as many answers, so that `None` doesn't say that there is no such
/// run. A run that is found ends with the answer to the instruction that breaks the rule; a program
/// with a table that keeps the rule book has none.
///
/// AllocError is answered where a growth was refused.
pub fn find_breach(
    alloc: Global,
    board: &Board,
    program: &Program,
    toward: usize,
    most: usize,
) -> Result<Option<Harm>, AllocError>
    requires on_board { All (λ i. IsOnBoard (length board.now.targets) i) program.now }
    ensures harm { IfOk result (λ found. IfSome found (IsHarm board.now program.now)) }
    ensures spares { IfOk result
        (λ found. (t : Table) → IsInductive board.now program.now t → found ≡ None) }
{
    let starts = starts_of(alloc, board)?;
    let mut search = search_toward(alloc, program, toward, most)?;
    search.keep_starts(alloc, board, &starts)?;
    let Some(number) = search.find(alloc, board, program)? else {
        return Ok(None);
    };
    let (start, answers) = search.way_to(alloc, board, program, number)?;
    match starts.get(start) {
        Some(start) => harm_of(alloc, board, program, start, answers),
        None => Ok(None),
    }
}
