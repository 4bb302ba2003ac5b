//! What is sure of rails at each place, found by going over the ways until nothing changes.

use crate::flow::{Flow, set_at};
use facts::{GoodSet, Part};
use std::alloc::{AllocError, Global};

/// All rails.
pub(crate) fn all_rails() -> GoodSet {
    let mut all = GoodSet::empty();
    for rail in 0..64 {
        all = all.with(rail);
    }
    all
}

/// Keeps at the end of a way what is sure after it, and tells whether that is less than before.
fn pass(alloc: Global, sets: &mut [GoodSet], flow: &Flow) -> Result<bool, AllocError> {
    let after = flow.after(set_at(sets, flow.from));
    let Some(set) = sets.get_mut(flow.to) else {
        return Ok(false);
    };
    let kept = set.join(alloc, &after)?;
    let is_less = kept != *set;
    *set = kept;
    Ok(is_less)
}

/// Goes over all ways once, and tells whether anything changed.
fn sweep(alloc: Global, sets: &mut [GoodSet], flows: &[Flow]) -> Result<bool, AllocError> {
    let mut is_less = false;
    for flow in flows {
        let changed = pass(alloc, sets, flow)?;
        is_less = is_less || changed;
    }
    Ok(is_less)
}

/// What is sure at each place, from what is sure at the first.
pub(crate) fn settle(
    alloc: Global,
    flows: &[Flow],
    places: usize,
    start: GoodSet,
) -> Result<Vec<GoodSet>, AllocError> {
    let mut sets = Vec::with_capacity(alloc, places)?;
    sets.push(start)?;
    for _ in 1..places {
        sets.push(all_rails())?;
    }
    // What changes goes on by a place in each sweep, so there are no more of them than places.
    for _ in 0..places {
        if !sweep(alloc, &mut sets, flows)? {
            break;
        }
    }
    Ok(sets)
}
