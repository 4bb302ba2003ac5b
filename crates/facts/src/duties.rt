//! What an instruction must keep where only so much is known, the rule that it breaks, and what is
//! to blame.

pub(crate) mod allowing;
pub(crate) mod judging;
pub(crate) mod rule;
pub(crate) mod violation;
