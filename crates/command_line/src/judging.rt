//! Judges files as the bundle of them is judged.

ghost use Rattle.std.specs.Prelude.{◌≡◌, ◌≢◌, map, IfOk, IfErr, Some};
ghost use Rattle.bundles.specs.Composed.{composed};
ghost use Rattle.diagnostics.specs.Told.{IsTold};
ghost use Rattle.session.specs.Promises.{IsKeptPromise};
ghost use Rattle.session.specs.Sessions.{IsAnswered, IsBegun};
ghost use Rattle.session.specs.declared.answering.DeviceFault.TheVariants.{Writer};

use bundles::{Command, compose};
use diagnostics::{Answered, Beside, answer};
use session::DeviceFault;
use std::alloc::Global;
use std::io::Write;

/// Does what a command asks for on files, one for each of its sections, as the bundle of them is
/// answered: the whole reply is written. Gives its status and the notes, which tell sections. Fails
/// where memory or the writer does, and tells which.
pub(crate) fn judge<W: Write>(
    alloc: Global,
    command: Command,
    files: &[Vec<u8>],
    writer: &mut W,
    beside: Beside,
) -> Result<Answered, DeviceFault>
    ensures answered { IfOk result (λ answered.
        IsAnswered (composed command (map (λ f. f.items) files.now))
        (W.contents writer.old) (W.contents writer.new) answered.status) }
    // What is accepted is safe.
    ensures accepted { IfOk result (λ answered.
        IsKeptPromise (composed command (map (λ f. f.items) files.now))
        (W.contents writer.old) (W.contents writer.new) answered.status) }
    // The status and the notes tell one outcome, which is true of the input.
    ensures told { IfOk result (λ answered.
        IsTold (composed command (map (λ f. f.items) files.now))
        beside answered.status answered.notes) }
    ensures begun { IfErr result (λ fault. fault ≡ Writer
        → IsBegun (composed command (map (λ f. f.items) files.now))
        (W.contents writer.old) (W.contents writer.new)) }
    // Where memory failed, nothing was written.
    ensures silent { IfErr result (λ fault. fault ≢ Writer → writer.new ≡ writer.old) }
{
    let bundle = compose(alloc, command, files)?;
    answer(alloc, &mut bundle.as_slice(), writer, beside)
}
