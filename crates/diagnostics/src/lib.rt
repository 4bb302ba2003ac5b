//! What a person needs to mend an input that has a fault, or may have meant otherwise: notes on
//! what became of it, beside its reply.
#![tactic(auto)]

mod answering;
mod bound;
mod bundle;
mod drafted;
mod input;
mod other_errors;
mod warning;

pub use answering::{Answered, Notes, answer};
pub use bound::{Beside, bound_on};
pub use bundle::bundle_note;
pub use input::note_on;
pub use other_errors::{OtherErrors, Untold, other_errors_on};
use std::alloc::AllocError;
pub use warning::{Warnings, warnings_on};

/// What can fail for want of memory, or by another error where one is named.
pub(crate) type Result<T, E = AllocError> = std::result::Result<T, E>;
