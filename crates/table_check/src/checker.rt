//! Whether a table keeps the rule book.

pub(crate) mod breach;
pub(crate) mod checking;
pub(crate) mod forming;
pub(crate) mod leading;
pub(crate) mod paying;
pub(crate) mod verdict;
