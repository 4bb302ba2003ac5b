//! Whether a row is one of the board, and its parts are.

ghost use Rattle.std.specs.Prelude.{◌≡◌, ◌<◌, ◌≤◌, ◌↔◌, ℕ, IsTrue, All, length};
ghost use Rattle.board.specs.Valid.{is_page_value};
ghost use Rattle.pmbus_table.specs.Protect.{is_protection};
ghost use Rattle.facts.specs.domain.Sets.{rails_in, HasValue};
ghost use Rattle.facts.specs.domain.Rows.{row_view, set_at, IsSource, IsSetOf, IsRow, most_ticks};
ghost use Rattle.facts.specs.well_formed.Shapes.{IsSizedRow};

use crate::domain::good_set::GoodSet;
use crate::domain::page_set::PageSet;
use crate::domain::part::Part;
use crate::domain::parts::{pages_at, protects_at};
use crate::domain::row::Row;
use crate::domain::source::Source;
use board::{Board, Target};
use simulator::MOST_TICKS;

/// Whether a target may store a value in PAGE.
pub(crate) fn has_page(row: &Row, target: usize, value: u8) -> bool
    ensures { result ≡ set_at (row_view row.now).pages target value }
{
    pages_at(row, target).contains(value)
}

/// Whether a target may store a value in WRITE_PROTECT.
pub(crate) fn has_protect(row: &Row, target: usize, value: u8) -> bool
    ensures { result ≡ set_at (row_view row.now).protects target value }
{
    protects_at(row, target).contains(value)
}

/// Whether no rail from an index on is in the set.
pub(crate) fn has_none_from(good: GoodSet, first: u8) -> bool
    ensures { IsTrue result ↔ ((d : ℕ) → first ≤ d → IsTrue (rails_in good d) → ⊥) }
{
    for rail in first..64 {
        if good.contains(rail) {
            return false;
        }
    }
    true
}

/// Whether no rail that the board hasn't is in the set.
fn has_none_beyond(board: &Board, good: GoodSet) -> bool
    ensures { IsTrue result
        ↔ ((d : ℕ) → length board.now.rails ≤ d → IsTrue (rails_in good d) → ⊥) }
{
    has_none_from(good, board.rails().len() as u8)
}

impl GoodSet {
    /// Whether all rails of the set are rails of the board.
    pub fn is_of(&self, board: &Board) -> bool
        ensures { IsTrue result
            ↔ ((d : ℕ) → IsTrue (rails_in self.now d) → d < length board.now.rails) }
    {
        has_none_beyond(board, *self)
    }
}

impl Source {
    /// Whether what it names is a rail or a target of the board.
    pub fn is_of(&self, board: &Board) -> bool
        ensures { IsTrue result ↔ IsSource board.now self.now }
    {
        match self {
            Source::None => true,
            Source::Status(rail) => *rail < board.rails().len(),
            Source::Page(target) | Source::Protect(target) => *target < board.targets().len(),
        }
    }
}

/// Whether a target may store some value in PAGE.
fn has_some_page(row: &Row, target: usize) -> bool
    ensures { IsTrue result ↔ HasValue (set_at (row_view row.now).pages target) }
{
    pages_at(row, target).has_some()
}

/// Whether each value that a target may store in PAGE is one of so many pages, or FFh.
fn has_pages_below(row: &Row, target: usize, pages: u8) -> bool
    ensures { IsTrue result ↔ ((v : ℕ) → IsTrue (set_at (row_view row.now).pages target v)
        → IsTrue (is_page_value pages v)) }
{
    PageSet::values_of(pages).covers(&pages_at(row, target))
}

/// Whether a target may store some value in WRITE_PROTECT.
fn has_some_protect(row: &Row, target: usize) -> bool
    ensures { IsTrue result ↔ HasValue (set_at (row_view row.now).protects target) }
{
    protects_at(row, target).has_some()
}

/// Whether what a target may store in PAGE is a set of its pages' values.
#[tactic(auto, unfolding(crate::specs::domain::Sets::HasValue))]
pub(crate) fn has_page_set(row: &Row, index: usize, target: &Target) -> bool
    ensures { IsTrue result ↔ IsSetOf (λ v. IsTrue (is_page_value target.now.pages v))
        (set_at (row_view row.now).pages index) }
{
    has_some_page(row, index) && has_pages_below(row, index, target.pages())
}

/// Whether what a target may store in WRITE_PROTECT is a set of protections.
pub(crate) fn has_protect_set(row: &Row, index: usize) -> bool
    ensures { IsTrue result ↔ IsSetOf (λ v. IsTrue (is_protection v))
        (set_at (row_view row.now).protects index) }
{
    has_some_protect(row, index)
}

/// Whether each coefficient is at most the most ticks.
pub(crate) fn are_coeffs(coeffs: &[u64]) -> bool
    ensures { IsTrue result ↔ All (λ k. k ≤ most_ticks) coeffs.now }
{
    coeffs.iter().all(|coeff| *coeff <= MOST_TICKS)
}

impl Row {
    /// What every row keeps to: its arrays have their lengths.
    pub fn is_sized(&self)
        ensures { IsSizedRow self.now }
    {}

    /// Whether it is a row of the board: with a set of each kind for each target, which has a value
    /// and only values of the target; rails and targets of the board; spans with a number, counters
    /// up to 1000, lost arbitrations up to the board's; and base and coefficients of at most 2^40
    /// ticks.
    pub fn is_of(&self, board: &Board) -> bool
        ensures { IsTrue result ↔ IsRow board.now (row_view self.now) }
    {
        self.misfit(board).is_none()
    }
}
