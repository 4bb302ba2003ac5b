//! What is known more where a register is as a test asks.

ghost use Rattle.std.specs.Prelude.{◌≡◌, ◌<◌, length};
ghost use Rattle.facts.specs.domain.Rows.{row_view};
ghost use Rattle.facts.specs.transfer.Tests.{asked, keep_page, keep_protect, with_good};

use crate::domain::byte_set::passing;
use crate::domain::parts::{pages_at, protects_at};
use crate::domain::row::Row;
use crate::transfer::test::Test;

/// A target stores one of those pages that are as the test asks.
pub(crate) fn keep_page(mut row: Row, target: usize, test: Test) -> Row
    requires { target < length row.pages.items }
    ensures { row_view result ≡ keep_page (row_view row) target (asked test) }
{
    let kept = passing(pages_at(&row, target), test);
    row.pages[target] = kept;
    row
}

/// A target stores one of those protections that are as the test asks.
pub(crate) fn keep_protect(mut row: Row, target: usize, test: Test) -> Row
    requires { target < length row.protects.items }
    ensures { row_view result ≡ keep_protect (row_view row) target (asked test) }
{
    let kept = passing(protects_at(&row, target), test);
    row.protects[target] = kept;
    row
}

/// A rail is good.
pub(crate) fn with_good(mut row: Row, rail: usize) -> Row
    requires { rail < 64 }
    ensures { row_view result ≡ with_good (row_view row) rail }
{
    row.good = row.good.with(rail as u8);
    row
}
