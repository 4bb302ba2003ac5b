//! Which rail a status word reports of.

ghost use Rattle.std.specs.Prelude.{◌≡◌, ◌==◌, ◌&&◌};
ghost use Rattle.facts.specs.domain.Rows.{row_view};
ghost use Rattle.facts.specs.transfer.Edges.{rail_on, status_source};

use crate::domain::byte_set::bounds;
use crate::domain::parts::pages_at;
use crate::domain::row::Row;
use crate::domain::source::Source;
use board::{Board, Rail};

/// Whether a rail is on a page of a target.
fn is_on(rail: &Rail, target: usize, page: u16) -> bool
    ensures { result ≡ ((rail.now.target == target) && (rail.now.page == page)) }
{
    rail.target() == target && u16::from(rail.page()) == page
}

/// The rail on a page of a target, if there is one.
fn rail_on(board: &Board, target: usize, page: u16) -> Option<usize>
    ensures { result ≡ rail_on board.now target page }
{
    board
        .rails()
        .iter()
        .position(|rail| is_on(rail, target, page))
}

/// What a status word of a target reports of.
#[tactic(auto, unfolding(crate::specs::transfer::Edges::status_source))]
pub(crate) fn status_source(board: &Board, row: &Row, target: usize) -> Source
    ensures { result ≡ status_source board.now (row_view row.now) target }
{
    let pages = bounds(pages_at(row, target));
    if pages.lo != pages.hi {
        return Source::None;
    }
    match rail_on(board, target, pages.lo) {
        Some(rail) => Source::Status(rail),
        None => Source::None,
    }
}
