//! Sentences: what notes say, before it is written, and what may help.
#![tactic(auto)]

mod advice;
mod kept;
mod on_line;
mod rails;
mod sentence;
mod word;

pub use advice::{Advice, Remark};
pub use kept::Kept;
pub use on_line::{marked, note_in, note_on};
pub use rails::rail_names;
pub use sentence::{Sentence, told};
use std::alloc::AllocError;
pub use word::{Figure, Word, listed_bytes, quoted_names};

/// What can fail for want of memory.
pub(crate) type Result<T> = std::result::Result<T, AllocError>;
