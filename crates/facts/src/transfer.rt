//! The rows behind an instruction: its edges, and what each of them tells.

pub(crate) mod branching;
pub(crate) mod changes;
pub(crate) mod clearing;
pub(crate) mod edging;
pub(crate) mod effect;
pub(crate) mod going_on;
pub(crate) mod learning;
pub(crate) mod loading;
pub(crate) mod moves;
pub(crate) mod reporting;
pub(crate) mod sending;
pub(crate) mod test;
pub(crate) mod ticks;
pub(crate) mod ways;
pub(crate) mod withdrawing;
