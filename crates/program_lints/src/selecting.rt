//! Rails that PAGE of a target may select, or selects surely.

ghost use Rattle.std.specs.Prelude.{◌≡◌, ◌<◌, ◌==◌, ◌&&◌, ◌||◌, ℕ, IsTrue};
ghost use Rattle.simulator.specs.Reports.{selects};
ghost use Rattle.facts.specs.domain.Rows.{row_view, set_at};
ghost use Rattle.facts.specs.domain.Sets.{pages_in, rails_in};
ghost use Rattle.facts.specs.duties.Duties.{may_select, is_touched};
ghost use Rattle.program_lints.specs.Changes.{IsSelected};

use crate::flow::with_rail;
use board::{Board, board_is_valid};
use facts::{GoodSet, PageSet, Part, Row};
use pmbus_table::code::ALL_PAGES;

/// What a target may store in PAGE.
pub(crate) fn pages_at(row: &Row, target: usize) -> PageSet
    ensures { pages_in result ≡ set_at (row_view row.now).pages target }
{
    match row.pages.get(target) {
        Some(set) => *set,
        None => PageSet::empty(),
    }
}

/// Whether some page of a set selects a page.
pub(crate) fn may_select(pages: PageSet, page: u8) -> bool
    ensures { result ≡ may_select (pages_in pages) page }
{
    pages.contains(page) || pages.contains(ALL_PAGES)
}

/// Whether every page of a set selects a page.
fn all_select(pages: PageSet, page: u8) -> bool
    ensures { IsTrue result
        → (stored : ℕ) → IsTrue (pages_in pages stored) → IsTrue (selects stored page) }
{
    page < 32 && PageSet::empty().with(page).with(ALL_PAGES).covers(&pages)
}

/// Whether the rail of an index is one of a target, and may be touched there.
pub(crate) fn is_touched(board: &Board, row: &Row, target: usize, rail: usize) -> bool
    ensures { result ≡ is_touched board.now (row_view row.now) target rail }
{
    match board.rail(rail) {
        Some(rail) => rail.target() == target && may_select(pages_at(row, target), rail.page()),
        None => false,
    }
}

/// Whether the rail of an index is one of a target, and surely selected there.
fn is_selected(board: &Board, row: &Row, target: usize, rail: usize) -> bool
    ensures { IsTrue result → IsSelected board.now (row_view row.now) target rail }
{
    match board.rail(rail) {
        Some(rail) => rail.target() == target && all_select(pages_at(row, target), rail.page()),
        None => false,
    }
}

/// Whether the rail of an index is in a set.
pub(crate) fn contains(rails: GoodSet, rail: usize) -> bool
    ensures { result ≡ rails_in rails rail }
{
    match u8::try_from(rail) {
        Ok(rail) => rails.contains(rail),
        Err(_) => false,
    }
}

/// The rails of a target that a message may touch.
pub(crate) fn touched_rails(board: &Board, row: &Row, target: usize) -> GoodSet
    ensures { (d : ℕ) → IsTrue (is_touched board.now (row_view row.now) target d)
        → IsTrue (rails_in result d) }
{
    board_is_valid(board);
    let mut touched = GoodSet::empty();
    for rail in 0..64 {
        let is_in = is_touched(board, row, target, usize::from(rail));
        touched = with_rail(touched, rail, is_in);
    }
    touched
}

/// The rails of a target that every page selects which it may store.
pub(crate) fn selected_rails(board: &Board, row: &Row, target: usize) -> GoodSet
    ensures { (d : ℕ) → IsTrue (rails_in result d)
        → IsSelected board.now (row_view row.now) target d }
{
    let mut selected = GoodSet::empty();
    for rail in 0..64 {
        let is_in = is_selected(board, row, target, usize::from(rail));
        selected = with_rail(selected, rail, is_in);
    }
    selected
}
