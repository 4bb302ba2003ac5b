//! Notes on programs: on those that are refused, on runs that break a rule, and on the bound of
//! those that are accepted.
#![tactic(auto)]

mod bound;
mod branch;
mod breach;
mod cause;
mod detail;
mod edge_detail;
mod entry_words;
mod facts_here;
mod happened;
mod kept;
mod meeting;
mod origin;
mod reason;
mod refusal;
mod roads;
mod route;
mod shown;
mod table_detail;
mod turns;
mod uncounted;
mod way;
mod widened;

pub use bound::bound_note;
pub use breach::breach_note;
pub use refusal::{RefusalKind, check_note, gave_up_note, refusal_note, verify_note};
pub use roads::Tried;
use std::alloc::AllocError;

/// What can fail for want of memory.
pub(crate) type Result<T> = std::result::Result<T, AllocError>;
