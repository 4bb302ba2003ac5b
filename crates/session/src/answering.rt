ghost use Rattle.std.specs.Prelude.{◌≡◌, ◌≢◌, ◌⊎◌, List, ℕ, IfOk, IfErr, OnErr, IfSome};
ghost use Rattle.session.specs.Replies.{reply_view};
ghost use Rattle.session.specs.Sessions.{IsReplyTo, IsAnswered, IsBegun};
ghost use Rattle.session.specs.Sessions.{IsCutShort};
ghost use Rattle.session.specs.Promises.{GivesUpOnLoopsAlone, IsKeptPromise};
ghost use Rattle.session.specs.Devices.{device_of};
ghost use Rattle.session.specs.declared.answering.DeviceFault.TheVariants.{Memory, Writer};

use crate::intake::{ReadFault, read_input};
use crate::judging::judge;
use crate::reply::{Reply, Status};
use crate::replying::reply_of;
use std::alloc::{AllocError, Global};
use std::io::{Read, Write};
use texts::{CutShort, send};
use thiserror::Error;

/// Why an input got no whole reply.
#[derive(Clone, Copy, Debug, PartialEq, Eq, Error)]
pub enum DeviceFault {
    #[error("memory ran out, and nothing was written")]
    Memory,
    #[error("the input wasn't read to its end, and nothing was judged")]
    Reader,
    #[error("the output wasn't taken whole")]
    Writer,
}

impl From<AllocError> for DeviceFault {
    ghost from_gives = { λ _ e. e ≡ Memory };

    fn from(_e: AllocError) -> DeviceFault {
        DeviceFault::Memory
    }
}

impl From<ReadFault> for DeviceFault {
    ghost from_gives = { λ fault e. e ≡ device_of fault };

    fn from(fault: ReadFault) -> DeviceFault {
        match fault {
            ReadFault::Memory => DeviceFault::Memory,
            ReadFault::Reader => DeviceFault::Reader,
        }
    }
}

/// Writes a whole reply, and tells its status; or the writer failed.
pub fn deliver<W: Write>(writer: &mut W, reply: &Reply) -> Result<Status, DeviceFault>
    ensures status { IfOk result (λ status. status ≡ reply.now.status) }
    // The input whose reply it is was answered.
    ensures answered { IfOk result
        (λ status. (input : List ℕ) → IsReplyTo input (reply_view reply.now)
        → IsAnswered input (W.contents writer.old) (W.contents writer.new) status) }
    // What is accepted is safe.
    ensures accepted { IfOk result
        (λ status. (input : List ℕ) → IsReplyTo input (reply_view reply.now)
        → IsKeptPromise input (W.contents writer.old) (W.contents writer.new) status) }
    // Where each jump of a program leads on, the search doesn't give up.
    ensures gave_up { IfOk result
        (λ _. (input : List ℕ) → IsReplyTo input (reply_view reply.now)
        → GivesUpOnLoopsAlone input (W.contents writer.old) (W.contents writer.new)) }
    ensures begun { OnErr result
        ((input : List ℕ) → IsReplyTo input (reply_view reply.now)
        → IsBegun input (W.contents writer.old) (W.contents writer.new)) }
    ensures err { IfErr result (λ fault. fault ≡ Writer) }
{
    match send(writer, &reply.text) {
        Ok(()) => Ok(reply.status),
        Err(CutShort) => Err(DeviceFault::Writer),
    }
}

/// Answers an input: the whole reply to it is written. Fails where memory, the reader or the writer
/// does, and tells which.
pub fn serve<R: Read, W: Write>(
    alloc: Global,
    reader: &mut R,
    writer: &mut W,
) -> Result<Status, DeviceFault>
    ensures answered { IfOk result (λ status. IfSome (R.remaining reader.old) (λ input.
        IsAnswered input (W.contents writer.old) (W.contents writer.new) status)) }
    ensures accepted { IfOk result (λ status. IfSome (R.remaining reader.old) (λ input.
        IsKeptPromise input (W.contents writer.old) (W.contents writer.new) status)) }
    ensures gave_up { IfOk result (λ _. IfSome (R.remaining reader.old) (λ input.
        GivesUpOnLoopsAlone input (W.contents writer.old) (W.contents writer.new))) }
    ensures whole { IfOk result (λ status. status ≢ Status.DeviceFault) }
    // Where the writer failed, all was read, and a beginning of the reply was written.
    ensures begun { IfErr result (λ fault. fault ≡ Writer
        → IsCutShort (R.remaining reader.old) (R.remaining reader.new)
        (W.contents writer.old) (W.contents writer.new)) }
    // Where memory or the reader failed, nothing was written.
    ensures silent { IfErr result (λ fault. fault ≢ Writer → writer.new ≡ writer.old) }
{
    let input = read_input(alloc, reader)?;
    let case = judge(alloc, &input)?;
    let reply = reply_of(alloc, case)?;
    deliver(writer, &reply)
}

/// Answers an input: the whole reply to it is written, or a device failed.
pub fn session<R: Read, W: Write>(alloc: Global, reader: &mut R, writer: &mut W) -> Status
    ensures answered { result ≢ Status.DeviceFault → IfSome (R.remaining reader.old) (λ input.
        IsAnswered input (W.contents writer.old) (W.contents writer.new) result) }

    // What is accepted is safe: where the input asks for a check or to verify and its reply
    // accepts, every run of the program on its board is safe within the bound that is written.
    ensures accepted { result ≢ Status.DeviceFault → IfSome (R.remaining reader.old) (λ input.
        IsKeptPromise input (W.contents writer.old) (W.contents writer.new) result) }

    // Where each jump of a program leads on, the search doesn't give up.
    ensures gave_up { result ≢ Status.DeviceFault → IfSome (R.remaining reader.old) (λ input.
        GivesUpOnLoopsAlone input (W.contents writer.old) (W.contents writer.new)) }

    // A device failed: nothing was written, or all was read and a beginning of the reply was
    // written. `serve` tells which device it was.
    ensures failed { result ≡ Status.DeviceFault → (writer.new ≡ writer.old)
        ⊎ IsCutShort (R.remaining reader.old) (R.remaining reader.new)
        (W.contents writer.old) (W.contents writer.new) }
{
    match serve(alloc, reader, writer) {
        Ok(status) => status,
        Err(_) => Status::DeviceFault,
    }
}
