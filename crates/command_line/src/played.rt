//! Runs that are played in the place of answers that a file gives.

use crate::judging::judge;
use crate::stop::Stop;
use bundles::Command;
use diagnostics::{Answered, Beside};
use session::{DeviceFault, Status};
use std::alloc::Global;

/// What came of playing a run.
#[derive(Drop)]
pub(crate) enum Played {
    /// Its answers.
    Answers(Vec<u8>),
    /// A fault of the files or of the seed: the reply, and what is told of it.
    Refused(Vec<u8>, Answered),
}

/// What came of playing a run whose reply was answered so. What isn't told is dropped by a call,
/// since the proof has a path for each part that may be there to drop.
fn play_of(reply: Vec<u8>, answered: Answered) -> Played {
    if answered.status == Status::Accepted {
        drop(answered);
        Played::Answers(reply)
    } else {
        Played::Refused(reply, answered)
    }
}

/// Plays the run of a board, a program and a seed.
pub(crate) fn play(alloc: Global, texts: &[Vec<u8>]) -> Result<Played, Stop> {
    let mut reply = Vec::new(alloc);
    match judge(alloc, Command::Play, texts, &mut reply, Beside::Nothing) {
        Ok(answered) => Ok(play_of(reply, answered)),
        // a vector takes all that there is memory for
        Err(_) => Err(Stop::Device(DeviceFault::Memory)),
    }
}
