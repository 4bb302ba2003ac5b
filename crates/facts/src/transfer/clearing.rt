//! What is no longer known after a message.

ghost use Rattle.std.specs.Prelude.{◌≡◌, ◌<◌, length};
ghost use Rattle.facts.specs.domain.Sets.{pages_in, protects_in};
ghost use Rattle.facts.specs.domain.Rows.{row_view};
ghost use Rattle.facts.specs.transfer.Edges.{clear, forget, is_page_of, is_protect_of};
ghost use Rattle.facts.specs.transfer.Edges.{with_page, with_protect};

use crate::domain::page_set::PageSet;
use crate::domain::protect_set::ProtectSet;
use crate::domain::row::Row;
use crate::domain::source::Source;

/// The source, or none where it is PAGE of a target.
fn without_page(source: Source, target: usize) -> Source
    ensures { result ≡ forget (is_page_of target) source }
{
    match source {
        Source::Page(other) if other == target => Source::None,
        _ => source,
    }
}

/// The source, or none where it is WRITE_PROTECT of a target.
fn without_protect(source: Source, target: usize) -> Source
    ensures { result ≡ forget (is_protect_of target) source }
{
    match source {
        Source::Protect(other) if other == target => Source::None,
        _ => source,
    }
}

/// The sources but PAGE of a target.
fn clear_page(mut sources: [Source; 8], target: usize) -> [Source; 8]
    ensures { result ≡ clear (is_page_of target) sources }
{
    for index in 0..8 {
        sources[index] = without_page(sources[index], target);
    }
    sources
}

/// The sources but WRITE_PROTECT of a target.
fn clear_protect(mut sources: [Source; 8], target: usize) -> [Source; 8]
    ensures { result ≡ clear (is_protect_of target) sources }
{
    for index in 0..8 {
        sources[index] = without_protect(sources[index], target);
    }
    sources
}

/// PAGE of a target is one of these.
pub(crate) fn with_page(mut row: Row, target: usize, set: PageSet) -> Row
    requires { target < length row.pages.items }
    ensures { row_view result ≡ with_page (row_view row) target (pages_in set) }
{
    row.sources = clear_page(row.sources, target);
    row.pages[target] = set;
    row
}

/// WRITE_PROTECT of a target is one of these.
pub(crate) fn with_protect(mut row: Row, target: usize, set: ProtectSet) -> Row
    requires { target < length row.protects.items }
    ensures { row_view result ≡ with_protect (row_view row) target (protects_in set) }
{
    row.sources = clear_protect(row.sources, target);
    row.protects[target] = set;
    row
}
