//! Sets of rails of which something is sure at each place, checked along all ways.

ghost use Rattle.std.specs.Prelude.{◌↔◌, All, IfOk, IsTrue};
ghost use Rattle.facts.specs.domain.Rows.{SetCovers, set_at};
ghost use Rattle.facts.specs.domain.Sets.{rails_in};
ghost use Rattle.program_lints.specs.Flows.{IsKept};
ghost use Rattle.program_lints.specs.PowerStates.{sets_in};

use crate::flow::{Flow, set_at};
use crate::settling::settle;
use facts::{GoodSet, Part};
use std::alloc::{AllocError, Global};

/// Whether what is sure at the end of a way is sure after it.
fn is_kept(sets: &[GoodSet], flow: &Flow) -> bool
    ensures { IsTrue result ↔ IsKept (sets_in sets.now) flow.now }
{
    let end = set_at(sets, flow.to);
    let after = flow.after(set_at(sets, flow.from));
    end.covers(&after)
}

/// Whether that holds of each way.
fn are_kept(sets: &[GoodSet], flows: &[Flow]) -> bool
    ensures { IsTrue result ↔ All (IsKept (sets_in sets.now)) flows.now }
{
    flows.iter().all(|flow| is_kept(sets, flow))
}

/// Whether what is sure at the first place is sure at the start.
fn is_at_start(sets: &[GoodSet], start: GoodSet) -> bool
    ensures { IsTrue result ↔ SetCovers (rails_in start) (set_at (sets_in sets.now) 0) }
{
    set_at(sets, 0).covers(&start)
}

/// Whether both hold.
fn are_sure(sets: &[GoodSet], flows: &[Flow], start: GoodSet) -> bool
    ensures kept { IsTrue result → All (IsKept (sets_in sets.now)) flows.now }
    ensures starts { IsTrue result → SetCovers (rails_in start) (set_at (sets_in sets.now) 0) }
{
    is_at_start(sets, start) && are_kept(sets, flows)
}

/// What is sure at each place of a program, from what is sure at the start, and nothing where that
/// isn't so along some way.
pub(crate) fn sure_sets(
    alloc: Global,
    flows: &[Flow],
    places: usize,
    start: GoodSet,
) -> Result<Vec<GoodSet>, AllocError>
    ensures kept { IfOk result (λ sets. All (IsKept (sets_in sets.items)) flows.now) }
    ensures starts { IfOk result
        (λ sets. SetCovers (rails_in start) (set_at (sets_in sets.items) 0)) }
{
    let sets = settle(alloc, flows, places, start)?;
    if are_sure(&sets, flows, start) {
        Ok(sets)
    } else {
        Ok(Vec::new(alloc))
    }
}
