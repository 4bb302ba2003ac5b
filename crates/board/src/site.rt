use crate::key::Key;

/// A table of a board file. Targets, the entries of a target and rails are counted from 0.
#[derive(Clone, Copy, Debug, PartialEq, Eq)]
pub enum Place {
    Board,
    Target(usize),
    Entry { target: usize, entry: usize },
    Rail(usize),
}

/// What of a table of a board file.
#[derive(Clone, Copy, Debug, PartialEq, Eq)]
pub enum At {
    /// The table as a whole.
    Table,
    /// A key that the table may have.
    Key(Key),
    /// An item of the list at a key, counted from 0.
    Item(Key, usize),
    /// A key that the table can't have: its place among the table's keys, in the order in which
    /// the table gives them.
    Unknown(usize),
}

/// Where in a board file a fault is.
#[derive(Clone, Copy, Debug, PartialEq, Eq)]
pub struct Site {
    pub table: Place,
    pub at: At,
}
