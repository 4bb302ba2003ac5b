use crate::domain::byte_set::ByteSet;
use crate::domain::kind::Kind;
use crate::domain::part::Part;
use std::alloc::{AllocError, Global};

/// The indices of rails: 0 to 63.
#[derive(Clone, Copy, Debug, PartialEq, Eq)]
pub struct Rails;

/// A set of rails, by their indices. Contracts see a number with a bit for each.
pub type GoodSet = ByteSet<Rails>;

impl Kind for Rails {
    ghost use Rattle.facts.specs.domain.Sets.{is_rail};
    ghost use Rattle.std.proofs.Common.{arith};
    ghost use Rattle.std.proofs.lemmas.Bool.Decides.{nat_tests};

    ghost is_value = { is_rail };

    ghost place = { λ d. d };

    ghost value_at = { λ d. d };

    ghost places = { 64 };

    ghost few = { Prim.grind (arith, nat_tests) };

    ghost small = { λ v t. Prim.grind (arith, nat_tests) };

    ghost back = { λ v t. Prim.grind (arith, nat_tests) };

    ghost valid = { λ n lt. Prim.grind (arith, nat_tests) };

    ghost kept = { λ n lt. Prim.grind (arith, nat_tests) };

    fn is_value(value: u8) -> bool {
        value < 64
    }

    fn place(value: u8) -> u8 {
        value
    }
}

/// More rails that are known to be good say more: sets of them cover the other way round.
impl Part for GoodSet {
    ghost use Rattle.facts.specs.domain.Sets.{Set, rails_in};
    ghost use Rattle.facts.specs.domain.Rows.{SetCovers};

    // which rails are good
    ghost Point = { Set };

    ghost Admits = { λ s good. SetCovers good (rails_in s) };

    ghost Covers = { λ s u. SetCovers (rails_in u) (rails_in s) };

    ghost Alike = { λ s u. Unit {0} };

    fn covers(&self, other: &Self) -> bool {
        other.has_all_of(*self)
    }

    fn join(&self, _alloc: Global, other: &Self) -> Result<Self, AllocError> {
        Ok(self.common(*other))
    }
}
