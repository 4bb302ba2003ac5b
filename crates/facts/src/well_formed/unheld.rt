/// What of the starts of a board a row doesn't hold.
#[derive(Clone, Copy, Debug, PartialEq, Eq)]
pub enum Unheld {
    /// A value that a target's PAGE or WRITE_PROTECT may have at the start.
    Target(usize),
    /// A rail is known to be good, and none is at the start.
    Good(usize),
    /// A register is 0 at the start.
    Register(usize),
    /// What a register equals isn't known at the start.
    Source(usize),
    /// A counter is 0 at the start.
    Counter(usize),
    /// No arbitration was lost at the start.
    Lost,
    /// The arbitrations that may still be lost are paid for, and aren't at the start.
    LostTicks,
}
