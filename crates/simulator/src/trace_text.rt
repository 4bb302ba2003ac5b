//! The text of a trace.

ghost use Rattle.std.specs.Prelude.{◌≡◌, IfOk, OnOk, string_bytes};
ghost use Rattle.simulator.specs.Traces.{HasItsFrame};
ghost use Rattle.simulator.specs.TraceTexts.{outcome_text, ending_text, last_line, IsLineMore};

use crate::machine::{Ending, Entry};
use smbus::{frame_text, only_frame_in};
use std::alloc::{AllocError, Global};
use targets::Outcome;
use texts::push_word;

/// How a message ended, as text: `done` with what it returned, `nak`, `timeout` or `lost`. Fails
/// only for want of memory.
pub fn outcome_text(alloc: Global, outcome: Outcome) -> Result<String, AllocError>
    ensures { IfOk result (λ text. string_bytes text ≡ outcome_text outcome) }
{
    match outcome {
        Outcome::Done(value) => {
            let mut text = String::from_str(alloc, "done ")?;
            push_word(&mut text, value)?;
            Ok(text)
        }
        Outcome::NotAcknowledged => String::from_str(alloc, "nak"),
        Outcome::TimedOut => String::from_str(alloc, "timeout"),
        Outcome::Lost => String::from_str(alloc, "lost"),
    }
}

/// Appends the line of a step: its place, its ticks, the frame that is read from its samples and
/// how the message ended, `-` and `-` without one. Fails only for want of memory, and then a
/// beginning of the line may stand there.
pub fn push_line(alloc: Global, text: &mut String, entry: &Entry) -> Result<(), AllocError>
    requires { HasItsFrame entry.now }
    ensures { OnOk result (IsLineMore entry.now (string_bytes text.old) (string_bytes text.new)) }
{
    let place = entry.place;
    let ticks = entry.ticks;
    let Some(outcome) = entry.outcome else {
        return write!(text, "{place} {ticks} - -\n");
    };
    let Some(frame) = only_frame_in(alloc, &entry.samples)? else {
        unreachable!()
    };
    let frame = frame_text(alloc, &frame)?;
    let outcome = outcome_text(alloc, outcome)?;
    write!(text, "{place} {ticks} {frame} {outcome}\n")
}

fn ending_text(ended: Ending) -> &'static str
    ensures { result.now ≡ ending_text ended }
{
    match ended {
        Ending::Running => "running",
        Ending::Finished => "end",
        Ending::Failed => "fail",
    }
}

/// The last line of a trace: how the run ended and all its ticks. Fails only for want of memory.
pub fn last_line(alloc: Global, ended: Ending, ticks: u64) -> Result<String, AllocError>
    ensures { IfOk result (λ text. string_bytes text ≡ last_line ended ticks) }
{
    let ended = ending_text(ended);
    format!(in alloc; "{ended} ticks {ticks}\n")
}
