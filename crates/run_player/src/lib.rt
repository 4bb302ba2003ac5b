//! Plays runs of a program: chooses how the targets start and what they answer, within what the
//! board lets them.
#![tactic(auto)]

mod answering;
mod chance;
mod contending;
mod playing;
mod reading;
mod starting;

pub use playing::{MOST_STEPS, Played, play};
