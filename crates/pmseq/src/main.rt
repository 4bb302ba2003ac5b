//! Reads a bundle from standard input and answers it on standard output. Where it is refused or has
//! a fault, a note on standard error says what to mend; warnings say where a board or an accepted
//! program is suspicious, and where a run does what a checked program never does.
#![tactic(auto)]

use diagnostics::{Beside, answer};
use session::Status;
use std::io::Write;
use std::process::ExitCode;

fn main(rt: HostRuntime) -> ExitCode {
    let status = match answer(
        rt.alloc(),
        &mut rt.stdin(),
        &mut rt.stdout(),
        Beside::Nothing,
    ) {
        Ok(answered) => {
            // what becomes of the notes changes nothing
            let _written = write!(&mut rt.stderr(), "{}", answered.notes);
            let status = answered.status;
            // by a call, since the proof has a path for each part that may be there to drop
            drop(answered);
            status
        }
        Err(fault) => {
            let _told = eprintln!(rt; "pmseq: {fault}");
            Status::DeviceFault
        }
    };
    ExitCode::from(status.code())
}
