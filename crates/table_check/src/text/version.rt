//! The forms of a table's text.

/// The second form counts lost arbitrations, and says so in its first line.
#[derive(Clone, Copy)]
pub(crate) enum Version {
    First,
    Second,
}
