//! Where an instruction leads, and what it does to registers and counters.

ghost use Rattle.std.specs.Prelude.{◌≡◌, ◌<◌, ◌+◌, if◌then◌else◌};
ghost use Rattle.seq_program.specs.Requests.{other_result, result_in};
ghost use Rattle.simulator.specs.Moves.{after_message, silently};
ghost use Rattle.seq_program.specs.declared.program.TheConstants.{MOST_PLACES};

use crate::machine::{Ending, Machine};
use seq_program::{Instr, Register};
use targets::Outcome;

/// The register that what is read goes to, of an instruction that asks no target for anything.
fn other_result(instr: &Instr) -> Option<Register>
    ensures { result ≡ other_result instr.now }
{
    match instr {
        Instr::Alert { register, .. } => Some(*register),
        _ => None,
    }
}

/// The register that what is read goes to.
fn result_in(instr: &Instr) -> Option<Register>
    ensures { result ≡ result_in instr.now }
{
    match instr.request() {
        Some(request) => request.transaction.register,
        None => other_result(instr),
    }
}

/// Moves a machine on behind a message that ended so.
pub(crate) fn after_message(instr: &Instr, outcome: Outcome, machine: &mut Machine)
    requires { machine.old.place < MOST_PLACES }
    ensures machine { machine.new ≡ after_message instr.now outcome machine.old }
    ensures bus { machine.new.bus ≡ machine.old.bus }
{
    match outcome {
        Outcome::Done(value) => {
            if let Some(register) = result_in(instr) {
                machine.regs[register.index()] = value;
            }
            machine.place += 1;
        }
        Outcome::NotAcknowledged | Outcome::TimedOut | Outcome::Lost => {
            machine.place = instr.jump().unwrap_or(machine.place);
        }
    }
}

/// The jump where it is taken, else the next place.
fn jump_if(jumps: bool, jump: usize, place: usize) -> usize
    requires { place < MOST_PLACES }
    ensures { result ≡ (if jumps then jump else place + 1) }
{
    if jumps { jump } else { place + 1 }
}

/// Moves a machine on behind an instruction that sends nothing.
pub(crate) fn silently(instr: &Instr, machine: &mut Machine)
    requires { machine.old.place < MOST_PLACES }
    ensures machine { machine.new ≡ silently instr.now machine.old }
    ensures bus { machine.new.bus ≡ machine.old.bus }
{
    match instr {
        Instr::IfAlert { jump } => {
            machine.place = jump_if(machine.bus.alerting > 0, *jump, machine.place);
        }
        Instr::Set { register, value } => {
            machine.regs[register.index()] = *value;
            machine.place += 1;
        }
        Instr::Add { register, value } => {
            let sum = machine.regs[register.index()].saturating_add(*value);
            machine.regs[register.index()] = sum;
            machine.place += 1;
        }
        Instr::If {
            register,
            mask,
            value,
            jump,
        } => {
            let passes = machine.regs[register.index()] & *mask == *value;
            machine.place = jump_if(passes, *jump, machine.place);
        }
        Instr::Above {
            register,
            value,
            jump,
        } => {
            let is_above = machine.regs[register.index()] > *value;
            machine.place = jump_if(is_above, *jump, machine.place);
        }
        Instr::Count { counter, value } => {
            machine.counters[counter.index()] = *value;
            machine.place += 1;
        }
        Instr::Again { counter, jump } => {
            let count = machine.counters[counter.index()];
            machine.counters[counter.index()] = count.saturating_sub(1);
            machine.place = jump_if(count > 0, *jump, machine.place);
        }
        Instr::Wait { .. } => machine.place += 1,
        Instr::Goto { jump } => machine.place = *jump,
        Instr::End => machine.ended = Ending::Finished,
        Instr::Fail => machine.ended = Ending::Failed,
        _ => {}
    }
}
