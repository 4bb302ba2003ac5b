//! The first step of a run that breaks a rule.

use facts::{Row, Rule};

/// A rule that an instruction breaks where a run reaches it.
#[derive(Clone, Copy, Debug, PartialEq, Eq)]
pub struct Breach {
    /// The index of the answer to the instruction.
    pub index: usize,
    pub place: usize,
    pub rule: Rule,
}

/// A breach, and what was known where the run reached it.
#[derive(Drop)]
pub struct Reached {
    pub breach: Breach,
    pub row: Row,
}
