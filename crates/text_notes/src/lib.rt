//! Notes on texts that can't be read: board files, programs, plans and bundles; and on lints of
//! boards.
#![tactic(auto)]

mod boards;
mod bundle;
mod column;
mod form;
mod plan;
mod program;

pub use boards::{board_note, lint_notes, site_note};
pub use bundle::{bundle_line_note, flaw_note};
pub use plan::plan_note;
pub use program::{Written, program_note};
use std::alloc::AllocError;

/// What can fail for want of memory, or by another error where one is named.
pub(crate) type Result<T, E = AllocError> = std::result::Result<T, E>;
