//! What is no longer known of the rails that an OPERATION may have touched.

ghost use Rattle.std.specs.Prelude.{◌≡◌, ◌<◌, ◌&&◌, ◌||◌, ◌==◌, not, ℕ};
ghost use Rattle.facts.specs.domain.Sets.{keeps, rails_in};
ghost use Rattle.facts.specs.domain.Rows.{row_view};
ghost use Rattle.facts.specs.transfer.Edges.{clear, forget, is_status_of, without_touched};
ghost use Rattle.facts.specs.duties.Touching.{touched_in};

use crate::domain::good_set::GoodSet;
use crate::domain::page_set::PageSet;
use crate::domain::parts::pages_at;
use crate::domain::row::Row;
use crate::domain::source::Source;
use crate::duties::judging::touches;
use board::Board;

/// Whether the rail of an index is touched at a target.
fn is_touched(board: &Board, pages: PageSet, target: usize, rail: usize) -> bool
    ensures { result ≡ touched_in board.now pages target rail }
{
    match board.rail(rail) {
        Some(rail) => touches(pages, target, rail),
        None => false,
    }
}

/// The source, or none where it is the last report of a rail that is touched.
fn without_status(source: Source, board: &Board, pages: PageSet, target: usize) -> Source
    ensures { result ≡ forget (is_status_of (touched_in board.now pages target)) source }
{
    match source {
        Source::Status(rail) if is_touched(board, pages, target, rail) => Source::None,
        _ => source,
    }
}

/// The sources but the last reports of the rails that are touched.
fn clear_status(
    mut sources: [Source; 8],
    board: &Board,
    pages: PageSet,
    target: usize,
) -> [Source; 8]
    ensures { result ≡ clear (is_status_of (touched_in board.now pages target)) sources }
{
    for index in 0..8 {
        sources[index] = without_status(sources[index], board, pages, target);
    }
    sources
}

/// The set without a rail, where that is touched.
fn without_touched_rail(
    good: GoodSet,
    board: &Board,
    pages: PageSet,
    target: usize,
    rail: u8,
) -> GoodSet
    requires { rail < 64 }
    ensures { (d : ℕ)
        → rails_in result d
        ≡ (rails_in good d && (not (touched_in board.now pages target d) || not (d == rail))) }
{
    if is_touched(board, pages, target, usize::from(rail)) {
        good.without(rail)
    } else {
        good
    }
}

/// The good rails but those that are touched.
fn good_left(good: GoodSet, board: &Board, pages: PageSet, target: usize) -> GoodSet
    ensures { rails_in result
        ≡ keeps (rails_in good) (λ d. not (touched_in board.now pages target d)) }
{
    let mut left = good;
    for rail in 0..64 {
        left = without_touched_rail(left, board, pages, target, rail);
    }
    left
}

/// The rails that may be touched are no longer good, and their reports are forgotten.
pub(crate) fn without_touched(mut row: Row, board: &Board, target: usize) -> Row
    ensures { row_view result ≡ without_touched board.now (row_view row) target }
{
    let pages = pages_at(&row, target);
    row.good = good_left(row.good, board, pages, target);
    row.sources = clear_status(row.sources, board, pages, target);
    row
}
