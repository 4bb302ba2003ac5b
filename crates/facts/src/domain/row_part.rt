/// A part of a row, by the target, the rail, the register or the counter of which it speaks.
#[derive(Clone, Copy, Debug, PartialEq, Eq)]
pub enum RowPart {
    /// What a target may store in PAGE.
    Pages(usize),
    /// What a target may store in WRITE_PROTECT.
    Protects(usize),
    /// Whether a rail's last report is good.
    Good(usize),
    /// The values of a register.
    Register(usize),
    /// What the value of a register equals.
    Source(usize),
    /// The values of a counter.
    Counter(usize),
    /// How many arbitrations were lost.
    Lost,
}
