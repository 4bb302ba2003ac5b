//! Where facts of several ways meet, and what each of them says alone is lost.

use crate::Result;
use crate::roads::{Edge, Judged};
use facts::Rule;
use std::alloc::Global;

/// Where instructions of a way have two edges to the next place, so many lists of edges are gone
/// on from at most.
const MOST_LISTS: usize = 16;

/// Adds the edges from a place, by what is known on each of some edges to it.
fn push_edges(
    alloc: Global,
    next: &mut Vec<Vec<Edge>>,
    judged: Judged<'_>,
    place: usize,
    edges: &[Edge],
) -> Result<()> {
    for (to, row, _) in edges {
        if *to == place {
            next.push(judged.edges_at(alloc, place, row)?)?;
        }
    }
    Ok(())
}

/// The edges from a place, by what is known on each edge to it.
fn edges_beyond(
    alloc: Global,
    judged: Judged<'_>,
    place: usize,
    lists: &[Vec<Edge>],
) -> Result<Vec<Vec<Edge>>> {
    let mut next = Vec::new(alloc);
    for edges in lists.iter().take(MOST_LISTS) {
        push_edges(alloc, &mut next, judged, place, edges)?;
    }
    Ok(next)
}

/// Whether a rule fails at a place, by what is known on one of some edges to it.
fn breaks(judged: Judged<'_>, place: usize, rule: Rule, edges: &[Edge]) -> bool {
    edges.iter().any(|(to, row, _)| *to == place && judged.broken_at(place, row) == Some(rule))
}

/// Whether a rule fails at the end of a way, by what a table says of its first place and the edges
/// from there on.
fn fails_along(alloc: Global, judged: Judged<'_>, way: &[usize], rule: Rule) -> Result<bool> {
    let [first, inner @ .., last] = way else {
        return Ok(true);
    };
    let mut lists = vec![in alloc; judged.edges(alloc, *first)?]?;
    for place in inner {
        lists = edges_beyond(alloc, judged, *place, &lists)?;
    }
    Ok(lists.iter().any(|edges| breaks(judged, *last, rule, edges)))
}

/// The place of a way, to one where a rule fails, at which what matters is lost: from what a table
/// says there the rule fails along the way, and from what it says of the place before it doesn't.
/// Where it fails from one place on, it fails from each later one, since a table's row covers the
/// edges to its place; so each turn leaves the half of the way in which that place lies.
pub(crate) fn meeting_place(
    alloc: Global,
    judged: Judged<'_>,
    way: &[usize],
    rule: Rule,
) -> Result<Option<usize>> {
    let mut low = 0usize;
    let mut high = way.len().saturating_sub(1);
    for _ in 0..usize::BITS {
        if low >= high {
            break;
        }
        let middle = low.midpoint(high);
        let rest = way.get(middle..).unwrap_or(&[]);
        if fails_along(alloc, judged, rest, rule)? {
            high = middle;
        } else {
            low = middle.saturating_add(1);
        }
    }
    Ok(way.get(high).copied())
}
