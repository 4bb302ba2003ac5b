//! Notes on runs and frames: answers that don't fit, and messages that have no frame.
#![tactic(auto)]

mod alert;
mod bad_start;
mod contended;
mod counted;
mod frame;
mod law;
mod misfit;
mod returned;
mod run_answer;
mod step;

pub use frame::frame_note;
pub use law::answers_are_found;
pub use run_answer::answer_note;
use std::alloc::AllocError;

/// What can fail for want of memory.
pub(crate) type Result<T> = std::result::Result<T, AllocError>;
