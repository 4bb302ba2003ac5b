ghost use Rattle.std.specs.Prelude.{◌≡◌, ◌≤◌, All, IfOk, IfErr, OnOk, string_bytes};
ghost use Rattle.simulator.specs.Faults.{most_ticks};
ghost use Rattle.simulator.specs.Steps.{total_ticks};
ghost use Rattle.simulator.specs.Traces.{HasItsFrame};
ghost use Rattle.simulator.specs.TraceTexts.{AreLines, IsTraceText, IsWritten, IsBegun};
ghost use Rattle.simulator.specs.declared.trace.WriteFault.TheVariants.{Memory};
ghost use Rattle.simulator.specs.declared.trace.WriteFault.TheVariants.{Write as WriteFailed};

use crate::machine::Entry;
use crate::running::Trace;
use crate::trace_text::{last_line, push_line};
use std::alloc::{AllocError, Global};
use std::io::Write;
use texts::{CutShort, send};
use thiserror::Error;

/// Why a trace wasn't written.
#[derive(Clone, Copy, Debug, PartialEq, Eq, Error)]
pub enum WriteFault {
    #[error("out of memory")]
    Memory,
    /// The writer failed, or took nothing of a nonempty rest.
    #[error("the writer failed")]
    Write,
}

impl From<AllocError> for WriteFault {
    ghost from_gives = { λ _ e. e ≡ Memory };

    fn from(_e: AllocError) -> WriteFault {
        WriteFault::Memory
    }
}

/// The lines of steps in order.
fn lines_of(alloc: Global, entries: &[Entry]) -> Result<String, AllocError>
    requires { All HasItsFrame entries.now }
    ensures { IfOk result (λ text. AreLines entries.now (string_bytes text)) }
{
    let mut text = String::new(alloc);
    for entry in entries {
        push_line(alloc, &mut text, entry)?;
    }
    Ok(text)
}

/// How many ticks steps take together.
fn total_ticks(entries: &[Entry]) -> u64
    requires { total_ticks entries.now ≤ most_ticks }
    ensures { result ≡ total_ticks entries.now }
{
    let mut ticks = 0;
    for entry in entries {
        ticks += entry.ticks;
    }
    ticks
}

/// The text of a trace.
fn trace_text(alloc: Global, trace: &Trace) -> Result<String, AllocError>
    ensures { IfOk result (λ text. IsTraceText trace.now (string_bytes text)) }
{
    let mut text = lines_of(alloc, &trace.entries)?;
    let last = last_line(alloc, trace.last.ended, total_ticks(&trace.entries))?;
    text.push_str(&last)?;
    Ok(text)
}

/// Writes the text of a trace: a line for each step, with its place, its ticks, the frame that is
/// read from its samples and how the message ended, `-` and `-` without one; and a last line with
/// how the run ended and all its ticks. Where the writer fails, a beginning of the text may have
/// been written; where a growth was refused, nothing has.
pub fn write_trace<W: Write>(alloc: Global, trace: &Trace, writer: &mut W) -> Result<(), WriteFault>
    ensures written { OnOk result
        (IsWritten trace.now (W.contents writer.old) (W.contents writer.new)) }
    ensures begun { IfErr result
        (λ e. e ≡ WriteFailed → IsBegun trace.now (W.contents writer.old) (W.contents writer.new)) }
    // Where memory failed, nothing was written.
    ensures silent { IfErr result (λ e. e ≡ Memory → writer.new ≡ writer.old) }
{
    let text = trace_text(alloc, trace)?;
    match send(writer, text.as_bytes()) {
        Ok(()) => Ok(()),
        Err(CutShort) => Err(WriteFault::Write),
    }
}
