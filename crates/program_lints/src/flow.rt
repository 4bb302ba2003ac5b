//! How what is sure of rails flows from a place to another.

ghost use Rattle.std.specs.Prelude.{◌≡◌, ◌<◌, ◌==◌, ◌||◌, ◌&&◌, ℕ};
ghost use Rattle.facts.specs.domain.Rows.{set_at};
ghost use Rattle.facts.specs.domain.Sets.{rails_in};
ghost use Rattle.program_lints.specs.Flows.{arrow_of, flow_after};
ghost use Rattle.program_lints.specs.PowerStates.{sets_in};

use facts::GoodSet;

/// What becomes of the rails of which something is sure, on the way from a place to another.
#[derive(Clone, Copy)]
pub(crate) struct Flow {
    pub(crate) from: usize,
    pub(crate) to: usize,
    /// The rails of which it becomes sure.
    pub(crate) gains: GoodSet,
    /// The rails of which it is no longer sure.
    pub(crate) loses: GoodSet,
}

/// The rails of which something is sure at a place.
pub(crate) fn set_at(sets: &[GoodSet], place: usize) -> GoodSet
    ensures { rails_in result ≡ set_at (sets_in sets.now) place }
{
    match sets.get(place) {
        Some(set) => *set,
        None => GoodSet::empty(),
    }
}

/// The set, with a rail where that is to be.
pub(crate) fn with_rail(set: GoodSet, rail: u8, is_in: bool) -> GoodSet
    requires { rail < 64 }
    ensures { (d : ℕ) → rails_in result d ≡ (rails_in set d || (is_in && d == rail)) }
{
    if is_in { set.with(rail) } else { set }
}

/// The way on which all of it stays sure.
pub(crate) fn unchanged(from: usize, to: usize) -> Flow
    ensures { arrow_of result ≡ (from, to) }
{
    Flow {
        from,
        to,
        gains: GoodSet::empty(),
        loses: GoodSet::empty(),
    }
}

impl Flow {
    /// Whether it is sure of a rail after the way.
    fn is_sure(&self, before: GoodSet, rail: u8) -> bool
        ensures { result ≡ flow_after self.now (rails_in before) rail }
    {
        (before.contains(rail) || self.gains.contains(rail)) && !self.loses.contains(rail)
    }

    /// The rails of which it is sure after the way, from those before it.
    pub(crate) fn after(&self, before: GoodSet) -> GoodSet
        ensures { (d : ℕ) → rails_in result d ≡ flow_after self.now (rails_in before) d }
    {
        let mut after = GoodSet::empty();
        for rail in 0..64 {
            let is_in = self.is_sure(before, rail);
            after = with_rail(after, rail, is_in);
        }
        after
    }
}
