//! What a run knows of its rails, and the rule that an instruction breaks there.

ghost use Rattle.std.specs.Prelude.{◌≡◌, ◌<◌, ◌||◌, ◌&&◌, ◌==◌, ℕ, IsTrue, IfOk, IfSome, List};
ghost use Rattle.std.specs.Prelude.{None, Some, length, option_map, slice_get};
ghost use Rattle.board.specs.Boards.{Board as AnyBoard};
ghost use Rattle.targets.specs.States.{Belongs};
ghost use Rattle.seq_program.specs.declared.instr.Instr.{Instr as AnyInstr};
ghost use Rattle.seq_program.specs.Messages.{message_of};
ghost use Rattle.seq_program.specs.Requests.{request_in};
ghost use Rattle.simulator.specs.declared.machine.Ending.TheVariants.{Running};
ghost use Rattle.simulator.specs.Machines.{IsMachine};
ghost use Rattle.facts.specs.domain.Sets.{rails_in};
ghost use Rattle.facts.specs.duties.Duties.{IsFirstFailing, duties};
ghost use Rattle.run_monitor.specs.Known.{IsBreach, known_row};
ghost use Rattle.run_monitor.specs.Monitors.{KnowsAfter};
ghost use Rattle.run_monitor.specs.Telling.{TellsAfter};

use crate::known::known_row;
use crate::reporting::is_good_after;
use board::{Board, board_is_valid};
use facts::{GoodSet, Rule, duty};
use seq_program::{Instr, Program, message_of, program_is_valid};
use simulator::{Ending, Machine, steps_are_seen};
use smbus::{Answer, Message, carried};
use std::alloc::{AllocError, Global};
use targets::BusState;

/// Whether a rail's last report is good after a step, if the board has the rail.
fn is_rail_good(
    board: &Board,
    state: &BusState,
    message: &Message,
    answer: &Answer,
    index: u8,
    was_good: bool,
) -> bool
    ensures tells { index < length board.now.rails
        → TellsAfter board.now state.now (Some message.now) answer.now index was_good result }
    ensures rail { IsTrue result → index < length board.now.rails }
{
    let rail = usize::from(index);
    rail < board.rails().len() && is_good_after(board, state, message, answer, rail, was_good)
}

/// The set, with a rail where that is good.
fn with_good(good: GoodSet, index: u8, is_good: bool) -> GoodSet
    requires { index < 64 }
    ensures { (d : ℕ) → rails_in result d ≡ (rails_in good d || (is_good && d == index)) }
{
    if is_good { good.with(index) } else { good }
}

/// The rails whose last report is good after a message.
fn good_after(
    board: &Board,
    state: &BusState,
    message: &Message,
    answer: &Answer,
    good: GoodSet,
) -> GoodSet
    ensures tells { (d : ℕ) → d < length board.now.rails
        → TellsAfter board.now state.now (Some message.now) answer.now d
        (rails_in good d) (rails_in result d) }
    ensures rails { (d : ℕ) → IsTrue (rails_in result d) → d < length board.now.rails }
{
    board_is_valid(board);
    let mut after = GoodSet::empty();
    for index in 0..64 {
        let was_good = good.contains(index);
        let is_good = is_rail_good(board, state, message, answer, index, was_good);
        after = with_good(after, index, is_good);
    }
    after
}

/// The same after a step, of which the wire carries this message or none.
fn good_with(
    board: &Board,
    state: &BusState,
    message: Option<&Message>,
    answer: &Answer,
    good: GoodSet,
) -> GoodSet
    ensures tells { (d : ℕ) → d < length board.now.rails
        → TellsAfter board.now state.now (option_map (λ m. m.now) message.entry) answer.now d
        (rails_in good d) (rails_in result d) }
    ensures rails { ((d : ℕ) → IsTrue (rails_in good d) → d < length board.now.rails)
        → (d : ℕ) → IsTrue (rails_in result d) → d < length board.now.rails }
{
    match message {
        Some(message) => good_after(board, state, message, answer, good),
        None => good,
    }
}

/// The instruction at the place of a machine.
fn instr_of<'a>(program: &'a Program, machine: &Machine) -> &'a Instr
    requires { machine.now.place < length program.now }
    ensures { slice_get program.now machine.now.place ≡ Some result.now }
{
    match program.at(machine.place) {
        Some(instr) => instr,
        None => unreachable!(),
    }
}

/// Whether an instruction sends nothing.
fn is_silent(instr: &Instr) -> bool
    ensures request { IsTrue result → request_in instr.now ≡ None }
    ensures message { IsTrue result
        → (b : AnyBoard) (registers : List ℕ) → message_of b instr.now registers ≡ None }
{
    match instr.request() {
        Some(_) => false,
        None => !matches!(instr, Instr::Alert { .. }),
    }
}

/// The first rule that an instruction breaks at a machine, where these rails are good. Memory is
/// answered where a growth was refused.
fn failing(
    alloc: Global,
    board: &Board,
    machine: &Machine,
    instr: &Instr,
    good: GoodSet,
) -> Result<Option<Rule>, AllocError>
    requires { Belongs board.now machine.now.bus }
    ensures { IfOk result
        (IsFirstFailing board.now (known_row machine.now (rails_in good)) instr.now
        duties) }
{
    let row = known_row(alloc, board, machine, good)?;
    Ok(duty(board, instr, &row))
}

/// The first of the rules K1 to K5 that the instruction at a machine's place breaks there, if it
/// does.
fn breach_at(
    alloc: Global,
    board: &Board,
    program: &Program,
    machine: &Machine,
    good: GoodSet,
) -> Result<Option<Rule>, AllocError>
    requires { IsMachine board.now program.now machine.now }
    ensures { IfOk result (λ found. (i : AnyInstr)
        → slice_get program.now machine.now.place ≡ Some i
        → IsBreach board.now (rails_in good) machine.now i found) }
{
    let instr = instr_of(program, machine);
    if is_silent(instr) {
        return Ok(None);
    }
    failing(alloc, board, machine, instr, good)
}

/// The rule that a machine's instruction breaks, if it runs.
pub(crate) fn rule_broken(
    alloc: Global,
    board: &Board,
    program: &Program,
    machine: &Machine,
    good: GoodSet,
) -> Result<Option<Rule>, AllocError>
    requires { IsMachine board.now program.now machine.now }
    ensures told { IfOk result (λ found. machine.now.ended ≡ Running → (i : AnyInstr)
        → slice_get program.now machine.now.place ≡ Some i
        → IsBreach board.now (rails_in good) machine.now i found) }
    ensures running { IfOk result (λ found. IfSome found (λ rule. machine.now.ended ≡ Running)) }
{
    match machine.ended {
        Ending::Running => breach_at(alloc, board, program, machine, good),
        Ending::Finished | Ending::Failed => Ok(None),
    }
}

/// The rails that are known to be good after the step that a machine makes under an answer. A
/// message that is lost to another controller tells nothing.
pub(crate) fn good_behind(
    alloc: Global,
    board: &Board,
    program: &Program,
    machine: &Machine,
    answer: &Answer,
    good: GoodSet,
) -> Result<GoodSet, AllocError>
    requires { IsMachine board.now program.now machine.now }
    ensures { IfOk result (λ behind. KnowsAfter board.now program.now machine.now answer.now
        (rails_in good) (rails_in behind)) }
{
    board_is_valid(board);
    program_is_valid(program);
    steps_are_seen();
    let instr = instr_of(program, machine);
    if is_silent(instr) {
        return Ok(good);
    }
    let message = message_of(alloc, board, instr, &machine.regs)?;
    let sent = carried(message.as_ref(), answer);
    Ok(good_with(board, &machine.bus, sent, answer, good))
}
