//! The frame of events that are those of one.

ghost use Rattle.std.specs.Prelude.{IfOk, IfSome, IfNone};
ghost use Rattle.wires.specs.Events.{events_of};
ghost use Rattle.smbus.specs.Clocks.{events_in};
ghost use Rattle.smbus.specs.OneFrame.{IsOnlyFrame};
ghost use Rattle.smbus.specs.Shown.{Shown};

use crate::fault::ObserveFault;
use crate::frame::Frame;
use crate::observing::{frames_in, observe};
use std::alloc::{AllocError, Global};
use wires::{Event, Run, Runs};

/// The frame of which these are the events, if they are those of exactly one. Fails only for want
/// of memory.
#[inline(never)]
pub fn only_frame(alloc: Global, events: &[Event]) -> Result<Option<Frame>, AllocError>
    ensures some { IfOk result (λ found. IfSome found (IsOnlyFrame events.now)) }
    ensures none { IfOk result
        (λ found. IfNone found ((frame : Shown) → IsOnlyFrame events.now frame → ⊥)) }
{
    let mut frames = match observe(alloc, events) {
        Ok(frames) => frames,
        Err(ObserveFault::Memory) => return Err(AllocError),
        Err(ObserveFault::NotFrames(_)) => return Ok(None),
    };
    if frames.len() == 1 {
        Ok(frames.pop())
    } else {
        Ok(None)
    }
}

/// The frame whose events happen in runs, if they are those of exactly one.
#[inline(always)]
fn frame_in(alloc: Global, runs: &[Run]) -> Result<Option<Frame>, AllocError>
    ensures some { IfOk result (λ found. IfSome found (IsOnlyFrame (events_in runs.now))) }
    ensures none { IfOk result
        (λ found. IfNone found ((frame : Shown) → IsOnlyFrame (events_in runs.now) frame → ⊥)) }
{
    let Some(mut frames) = frames_in(alloc, runs)? else {
        return Ok(None);
    };
    if frames.len() != 1 {
        return Ok(None);
    }
    Ok(frames.pop())
}

/// The frame whose events happen in samples, if they are those of exactly one: as `only_frame` of
/// their events, of which no list is made. Fails only for want of memory.
#[inline(never)]
pub fn only_frame_in(alloc: Global, samples: &Runs) -> Result<Option<Frame>, AllocError>
    ensures some { IfOk result (λ found. IfSome found (IsOnlyFrame (events_of samples.now))) }
    ensures none { IfOk result (λ found. IfNone found
        ((frame : Shown) → IsOnlyFrame (events_of samples.now) frame → ⊥)) }
{
    frame_in(alloc, samples.runs())
}
