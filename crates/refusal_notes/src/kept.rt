//! What is known of PAGE and WRITE_PROTECT, which each target keeps.

use facts::Row;
use sentences::{Kept, Word};

/// Both of them.
pub(crate) const KEPT: [Kept; 2] = [Kept::Page, Kept::Protect];

/// Whether a target may keep a value where this is known.
pub(crate) fn may_keep(row: &Row, kept: Kept, target: usize, value: u8) -> bool {
    match kept {
        Kept::Page => row
            .pages
            .get(target)
            .is_some_and(|pages| pages.contains(value)),
        Kept::Protect => row
            .protects
            .get(target)
            .is_some_and(|set| set.contains(value)),
    }
}

/// The values that a target may keep where this is known.
pub(crate) fn kept_values(row: &Row, kept: Kept, target: usize) -> Option<Word<'_>> {
    match kept {
        Kept::Page => Some(Word::Pages(row.pages.get(target)?)),
        Kept::Protect => Some(Word::Protects(row.protects.get(target)?)),
    }
}
