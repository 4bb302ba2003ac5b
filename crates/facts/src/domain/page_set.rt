ghost use Rattle.std.specs.Prelude.{◌≡◌, ◌&&◌};
ghost use Rattle.board.specs.Valid.{is_page_value};
ghost use Rattle.facts.specs.domain.Sets.{is_page, pages_in};

use crate::domain::byte_set::ByteSet;
use crate::domain::kind::{Choice, Kind};
use pmbus_table::code::ALL_PAGES;

/// The values of PAGE: the pages 0 to 31, and FFh, which stands for all.
#[derive(Clone, Copy, Debug, PartialEq, Eq)]
pub struct Pages;

/// A set of values of PAGE. Contracts see a number with a bit for each page, and bit 32 for FFh.
pub type PageSet = ByteSet<Pages>;

impl Kind for Pages {
    ghost use Rattle.facts.specs.domain.Sets.{is_page, page_bit, page_at};
    ghost use Rattle.std.proofs.Common.{arith};
    ghost use Rattle.std.proofs.lemmas.Bool.Decides.{nat_tests};

    ghost is_value = { is_page };

    ghost place = { page_bit };

    ghost value_at = { page_at };

    ghost places = { 33 };

    ghost few = { Prim.grind (arith, nat_tests) };

    ghost small = { λ v t. Prim.grind (arith, nat_tests) };

    ghost back = { λ v t. Prim.grind (arith, nat_tests) };

    ghost valid = { λ n lt. Prim.grind (arith, nat_tests) };

    ghost kept = { λ n lt. Prim.grind (arith, nat_tests) };

    fn is_value(value: u8) -> bool {
        value < 32 || value == ALL_PAGES
    }

    fn place(value: u8) -> u8 {
        if value == ALL_PAGES { 32 } else { value }
    }
}

impl Choice for Pages {}

impl PageSet {
    /// All values of PAGE of a target with so many pages: these, and FFh.
    pub(crate) fn values_of(pages: u8) -> PageSet
        ensures { pages_in result ≡ λ v. is_page v && is_page_value pages v }
    {
        PageSet::first(pages.min(32)).with(ALL_PAGES)
    }
}
