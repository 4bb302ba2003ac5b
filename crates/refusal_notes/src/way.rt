//! The shortest way to a place, and the shortest loop through one.

use crate::Result;
use crate::roads::Roads;
use std::alloc::Global;

/// The places that were reached from one, the nearest first.
#[derive(Drop)]
struct Search {
    /// Of each place, from where it was reached, if it was.
    from: Vec<Option<usize>>,
    order: Vec<usize>,
}

impl Search {
    /// Only the first place is reached.
    fn new(alloc: Global, places: usize, first: usize) -> Result<Search> {
        let mut from = vec![in alloc; None; places]?;
        if let Some(reached) = from.get_mut(first) {
            *reached = Some(first);
        }
        let order = vec![in alloc; first]?;
        Ok(Search { from, order })
    }

    /// Reaches a place, if it wasn't before.
    fn reach(&mut self, place: usize, from: usize) -> Result<()> {
        if let Some(reached) = self.from.get_mut(place) {
            if reached.is_none() {
                *reached = Some(from);
                self.order.push(place)?;
            }
        }
        Ok(())
    }

    fn reach_all(&mut self, places: &[usize], from: usize) -> Result<()> {
        for place in places {
            self.reach(*place, from)?;
        }
        Ok(())
    }

    /// The place from where another was first reached.
    fn place_before(&self, place: usize) -> Option<usize> {
        let before = self.from.get(place).copied().flatten();
        before.filter(|before| *before != place)
    }

    /// The places from the first to one that was reached, both included.
    fn way_to(&self, alloc: Global, place: usize) -> Result<Vec<usize>> {
        let mut way = vec![in alloc; place]?;
        let mut here = place;
        for _ in 0..self.order.len() {
            let Some(before) = self.place_before(here) else {
                break;
            };
            way.push(before)?;
            here = before;
        }
        way.reverse();
        Ok(way)
    }
}

/// Where a search ends.
#[derive(Clone, Copy)]
enum Goal {
    /// At this place.
    At(usize),
    /// At a place that leads there.
    LeadingTo(usize),
}

impl Goal {
    fn is_met(self, place: usize, nexts: &[usize]) -> bool {
        match self {
            Goal::At(goal) => place == goal,
            Goal::LeadingTo(goal) => nexts.contains(&goal),
        }
    }
}

/// The places of a shortest way from a place to a goal, both included, where each leads to these.
fn shortest(
    alloc: Global,
    all: &[Vec<usize>],
    first: usize,
    goal: Goal,
) -> Result<Option<Vec<usize>>> {
    let mut search = Search::new(alloc, all.len(), first)?;
    for turn in 0..all.len() {
        let Some(here) = search.order.get(turn).copied() else {
            break;
        };
        let Some(nexts) = all.get(here) else {
            break;
        };
        if goal.is_met(here, nexts) {
            return Ok(Some(search.way_to(alloc, here)?));
        }
        search.reach_all(nexts, here)?;
    }
    Ok(None)
}

/// The places of a shortest way from place 0, where one leads to a place.
pub(crate) fn way_to(alloc: Global, roads: Roads<'_>, place: usize) -> Result<Option<Vec<usize>>> {
    shortest(alloc, &roads.all(alloc)?, 0, Goal::At(place))
}

/// The places of a shortest way between two places, both included, where each leads to these.
pub(crate) fn way_between(
    alloc: Global,
    all: &[Vec<usize>],
    first: usize,
    last: usize,
) -> Result<Option<Vec<usize>>> {
    shortest(alloc, all, first, Goal::At(last))
}

/// The places of a shortest loop that begins at a place, where there is one.
pub(crate) fn loop_through(
    alloc: Global,
    roads: Roads<'_>,
    place: usize,
) -> Result<Option<Vec<usize>>> {
    shortest(alloc, &roads.all(alloc)?, place, Goal::LeadingTo(place))
}
