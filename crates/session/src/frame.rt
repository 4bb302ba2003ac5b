ghost use Rattle.std.specs.Prelude.{◌≡◌, ◌≤◌, ◌<◌, [], ◌∷◌, true, All, IfOk};
ghost use Rattle.std.specs.Prelude.{length, string_bytes};
ghost use Rattle.wires.specs.Events.{events_of};
ghost use Rattle.wires.specs.Runs.{most_samples};
ghost use Rattle.bit_bus.specs.Levels.{idle};
ghost use Rattle.smbus.specs.Slots.{slots_of};
ghost use Rattle.smbus.specs.Frames.{AreFrames};
ghost use Rattle.smbus.specs.OneFrame.{CanBeSent, IsOnlyFrame};
ghost use Rattle.smbus.specs.Shown.{Shown};
ghost use Rattle.smbus.specs.Text.{text_of};
ghost use Rattle.session.specs.FrameReplies.{IsFrameText, IsFrameReply};
ghost use Rattle.session.specs.Outcomes.{told_reply};
ghost use Rattle.session.specs.declared.fault.InputFault.TheVariants.{Frame};
ghost use Rattle.bit_bus.specs.declared.plan.TheConstants.{LONGEST_HOLD};

use crate::ending::outcome_line;
use bit_bus::{Plan, Slot, drive};
use smbus::{
    Answer, Message, SmbusFault, frame_slots, frame_text, only_frame_in, slots_are_one_frame,
};
use std::alloc::{AllocError, Global};
use wires::{Runs, Sample};

/// The lines of a free bus.
const IDLE: Sample = Sample {
    scl: true,
    sda: true,
    alert: true,
};

/// These samples behind an idle one.
fn behind_idle(alloc: Global, samples: &Runs) -> Result<Runs, AllocError>
    requires { length samples.now < most_samples }
    ensures { IfOk result (λ all. all ≡ idle true ∷ samples.now) }
{
    let mut before = Runs::new(alloc);
    before.push(IDLE, 1)?;
    Runs::joined(alloc, &before, samples)
}

/// The text of the one frame that is read from these samples behind an idle one.
fn seen_text(alloc: Global, samples: &Runs) -> Result<String, AllocError>
    requires few { length samples.now < most_samples }
    requires one { (f : Shown) × IsOnlyFrame (events_of (idle true ∷ samples.now)) f }
    ensures { IfOk result (λ text. (f : Shown)
        × AreFrames (events_of (idle true ∷ samples.now)) (f ∷ [])
        × (string_bytes text ≡ text_of f)) }
{
    let samples = behind_idle(alloc, samples)?;
    let Some(frame) = only_frame_in(alloc, &samples)? else {
        unreachable!()
    };
    frame_text(alloc, &frame)
}

/// The lines of a message that can be sent.
fn shown(
    alloc: Global,
    slots: Vec<Slot>,
    message: &Message,
    answer: &Answer,
) -> Result<String, AllocError>
    requires slots { slots.items ≡ slots_of message.now answer.now }
    requires sendable { CanBeSent message.now answer.now }
    ensures { IfOk result (λ text. IsFrameText message.now answer.now (string_bytes text)) }
{
    slots_are_one_frame();
    let Some(plan) = Plan::new(slots, answer.holds.clone()?) else {
        unreachable!()
    };
    let driven = drive(alloc, &plan, true)?;
    let frame = seen_text(alloc, &driven.samples)?;
    let count = driven.samples.total();
    let outcome = outcome_line(alloc, message, answer, driven.cut)?;
    format!(in alloc; "{frame}\nsamples {count}\n{outcome}\n")
}

/// What is seen on the wire of a message and its answer, or why they have no frame.
pub(crate) fn frame_of(
    alloc: Global,
    message: &Message,
    answer: &Answer,
) -> Result<Result<String, SmbusFault>, AllocError>
    requires { All (λ hold. hold ≤ LONGEST_HOLD) answer.now.holds }
    ensures { IfOk result
        (λ told. IsFrameReply message.now answer.now (told_reply Frame told)) }
{
    match frame_slots(alloc, message, answer) {
        Ok(slots) => Ok(Ok(shown(alloc, slots, message, answer)?)),
        Err(SmbusFault::Memory) => Err(AllocError),
        Err(fault) => Ok(Err(fault)),
    }
}
