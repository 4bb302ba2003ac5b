//! The lines in a step.

ghost use Rattle.std.specs.Prelude.{◌≡◌, ◌≤◌, ◌∷◌, IfOk, IfSome, OnOk, option_map};
ghost use Rattle.bit_bus.specs.Levels.{idle, levels};
ghost use Rattle.smbus.specs.OneFrame.{CanBeSent};
ghost use Rattle.smbus.specs.ContenderLaws.{CanStart};
ghost use Rattle.smbus.specs.Contenders.{contender_samples};
ghost use Rattle.smbus.specs.Winners.{winner};
ghost use Rattle.seq_program.specs.Valid.{IsInstr};
ghost use Rattle.smbus.specs.Slots.{samples_of};
ghost use Rattle.simulator.specs.Entries.{idle_samples};
ghost use Rattle.simulator.specs.Steps.{idle_ticks, samples_over, step_samples};
ghost use Rattle.simulator.specs.Standing.{CanStand};

use bit_bus::{Plan, drive_onto};
use seq_program::Instr;
use smbus::{
    Answer, Contender, Message, SmbusFault, contender_over, contender_slots,
    contenders_have_one_frame, frame_slots, slots_are_one_frame,
};
use std::alloc::{AllocError, Global};
use targets::BusState;
use wires::{Runs, Sample};

/// A free bus, with this level of SMBALERT#.
fn idle(alert: bool) -> Sample
    ensures { result ≡ idle alert }
{
    Sample {
        scl: true,
        sda: true,
        alert,
    }
}

/// Makes samples so many idle ones.
fn idle_samples(samples: &mut Runs, alert: bool, ticks: u32) -> Result<(), AllocError>
    ensures { OnOk result (samples.new ≡ idle_samples alert ticks) }
{
    samples.clear();
    samples.push(idle(alert), u64::from(ticks))
}

/// Makes samples an idle one and the levels of a plan.
fn driven(samples: &mut Runs, alert: bool, plan: &Plan) -> Result<(), AllocError>
    ensures { OnOk result (samples.new ≡ idle alert ∷ levels alert plan.now) }
{
    samples.clear();
    samples.push(idle(alert), 1)?;
    drive_onto(samples, plan, alert)?;
    Ok(())
}

/// Makes samples an idle one and the frame of another controller.
fn foreign_samples(
    alloc: Global,
    samples: &mut Runs,
    alert: bool,
    contender: &Contender,
) -> Result<(), AllocError>
    requires { CanStart contender.now }
    ensures { OnOk result (samples.new ≡ contender_samples alert contender.now) }
{
    contenders_have_one_frame();
    let slots = contender_slots(alloc, contender)?;
    let Some(plan) = Plan::new(slots, contender.holds.clone()?) else {
        unreachable!()
    };
    driven(samples, alert, &plan)
}

/// Makes samples an idle one and the frame of a message.
fn frame_samples(
    alloc: Global,
    samples: &mut Runs,
    alert: bool,
    message: &Message,
    answer: &Answer,
) -> Result<(), AllocError>
    requires { CanBeSent message.now answer.now }
    ensures { OnOk result (samples.new ≡ samples_of alert message.now answer.now) }
{
    slots_are_one_frame();
    let slots = match frame_slots(alloc, message, answer) {
        Ok(slots) => slots,
        Err(SmbusFault::Memory) => return Err(AllocError),
        Err(SmbusFault::BadBlock | SmbusFault::BadData) => unreachable!(),
    };
    let Some(plan) = Plan::new(slots, answer.holds.clone()?) else {
        unreachable!()
    };
    driven(samples, alert, &plan)
}

/// Makes samples an idle one and the frame of a message, or of the controller that wins over it.
fn message_samples(
    alloc: Global,
    samples: &mut Runs,
    state: &BusState,
    message: &Message,
    answer: &Answer,
) -> Result<(), AllocError>
    requires { CanStand (winner message.now answer.now) message.now answer.now }
    ensures { OnOk result (samples.new
        ≡ samples_over (winner message.now answer.now) state.now message.now answer.now) }
{
    let alert = state.alerting == 0;
    match contender_over(message, answer) {
        Some(contender) => foreign_samples(alloc, samples, alert, contender),
        None => frame_samples(alloc, samples, alert, message, answer),
    }
}

/// For how many ticks more than one an instruction waits.
fn idle_ticks(instr: &Instr) -> u32
    requires { IsInstr instr.now }
    ensures value { result ≡ idle_ticks instr.now }
    ensures small { result ≤ 10000000 }
{
    match instr {
        Instr::Wait { ticks } => *ticks,
        _ => 0,
    }
}

/// Makes samples the lines in a step of an instruction that sends this message, or none.
pub(crate) fn step_samples(
    alloc: Global,
    samples: &mut Runs,
    state: &BusState,
    instr: &Instr,
    message: Option<&Message>,
    answer: &Answer,
) -> Result<(), AllocError>
    requires instr { IsInstr instr.now }
    requires sendable { IfSome (option_map (λ m. m.now) message)
        (λ m. CanStand (winner m answer.now) m answer.now) }
    ensures { OnOk result (samples.new
        ≡ step_samples state.now instr.now (option_map (λ m. m.now) message.entry) answer.now) }
{
    match message {
        Some(message) => message_samples(alloc, samples, state, message, answer),
        None => idle_samples(samples, state.alerting == 0, idle_ticks(instr) + 1),
    }
}
