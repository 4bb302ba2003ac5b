//! Parts of a row, by the index of a target.

ghost use Rattle.std.specs.Prelude.{◌≡◌};
ghost use Rattle.facts.specs.domain.Sets.{pages_in, protects_in};
ghost use Rattle.facts.specs.domain.Rows.{row_view, set_at};

use crate::domain::page_set::PageSet;
use crate::domain::protect_set::ProtectSet;
use crate::domain::row::Row;

/// What a target may store in PAGE.
pub(crate) fn pages_at(row: &Row, target: usize) -> PageSet
    ensures { pages_in result ≡ set_at (row_view row.now).pages target }
{
    match row.pages.get(target) {
        Some(set) => *set,
        None => PageSet::empty(),
    }
}

/// What a target may store in WRITE_PROTECT.
pub(crate) fn protects_at(row: &Row, target: usize) -> ProtectSet
    ensures { protects_in result ≡ set_at (row_view row.now).protects target }
{
    match row.protects.get(target) {
        Some(set) => *set,
        None => ProtectSet::empty(),
    }
}
