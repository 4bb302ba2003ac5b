//! Why a line of a plan is bad.

/// A plan's first bad line, and why it is bad.
#[derive(Clone, Copy, Debug, PartialEq, Eq)]
pub struct PlanFault {
    /// The number of the line, counted from 1 over all lines.
    pub line: usize,
    pub why: LineFault,
}

/// Why a line is no wish for a board, or can't stand below the lines above it. A word is told by
/// its index in the line, in which the word that the wish begins with is 0.
#[derive(Clone, Copy, Debug, PartialEq, Eq)]
pub enum LineFault {
    /// No wish begins with the first word.
    NoWish,
    /// So many words can't stand behind the first one.
    WordCount,
    /// The word is no name of a rail of the board.
    NoRail(usize),
    /// The word is no name of a target of the board.
    NoTarget(usize),
    /// The word is no voltage that the rail's target can be commanded.
    NoVoltage(usize),
    /// The word isn't how many times is tried again.
    NoRetries(usize),
    /// The word isn't how long is waited.
    NoTicks(usize),
    /// The word isn't how many times is asked.
    NoCount(usize),
    /// The word is no value that WRITE_PROTECT may have.
    NoProtection(usize),
    /// A rail is put before itself.
    SameRail,
    /// A line above wishes the same.
    Twice,
}
