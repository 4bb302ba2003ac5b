ghost use Rattle.std.specs.Prelude.{◌≡◌, ◌≢◌, IfOk};
ghost use Rattle.session.specs.Replies.{code_of, reply_view, refusal};

use crate::fault::{InputFault, fault_line};
use std::alloc::{AllocError, Global};

/// How a session ended.
#[derive(Clone, Copy, Debug, PartialEq, Eq)]
pub enum Status {
    Accepted,
    Refused,
    InputFault,
    DeviceFault,
}

impl Status {
    /// The exit status.
    pub fn code(self) -> u8
        ensures { result ≡ code_of self }
    {
        match self {
            Status::Accepted => 0,
            Status::Refused => 1,
            Status::InputFault => 2,
            Status::DeviceFault => 3,
        }
    }
}

/// A whole reply, before anything is written.
#[derive(Debug, Drop)]
pub struct Reply {
    pub status: Status,
    pub text: Vec<u8>,
}

/// The reply to an input with a fault.
pub fn refused(alloc: Global, fault: InputFault) -> Result<Reply, AllocError>
    ensures replies { IfOk result (λ reply. reply_view reply ≡ refusal fault) }
    ensures whole { IfOk result (λ reply. reply.status ≢ Status.DeviceFault) }
{
    let text = fault_line(alloc, fault)?;
    Ok(Reply {
        status: Status::InputFault,
        text: text.into_bytes(),
    })
}
