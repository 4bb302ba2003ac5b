/// What of a row isn't a board's.
#[derive(Clone, Copy, Debug, PartialEq, Eq)]
pub enum Misfit {
    /// It hasn't a set of pages and one of protections for each target.
    Sets,
    /// What a target may store in PAGE is nothing, or not only pages of it and FFh.
    Pages(usize),
    /// What a target may store in WRITE_PROTECT is nothing.
    Protects(usize),
    /// A rail is known to be good that the board hasn't.
    Good(usize),
    /// The values of a register end before they begin.
    Register(usize),
    /// What a register equals is of a rail or a target that the board hasn't.
    Source(usize),
    /// The values of a counter end before they begin.
    Counter(usize),
    /// The numbers of lost arbitrations end before they begin.
    Lost,
    /// More arbitrations may have been lost than the board's `contentions`.
    Contentions,
    /// A counter may be over 1000.
    Turns(usize),
    /// A number of ticks is over 2^40.
    Ticks,
}
