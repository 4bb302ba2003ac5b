//! The strongly connected components of a graph: places each of which leads to each other one
//! (Tarjan, 1972, here without recursion).
//!
//! Where 0 leads to 1, 1 to 2, and 2 back to 1 and on to 3, they are {0}, {1, 2} and {3}. The order
//! is 3, then 1 and 2, then 0: each component behind those to which it leads.

use crate::graph::{Cut, Graph, Way};
use std::alloc::{AllocError, Global};

/// Of a place that isn't met yet.
const UNMET: usize = 0;

/// Of a place whose component is found.
const FOUND: usize = usize::MAX;

/// The components of a graph, over its open ways.
#[derive(Drop)]
pub(crate) struct Components {
    /// The number of each place's component.
    pub(crate) of: Vec<usize>,
    /// All places, those of a component together, after those to which it leads.
    pub(crate) order: Vec<usize>,
    pub(crate) count: usize,
}

/// A place on the path that is walked.
#[derive(Clone, Copy)]
struct Visit {
    place: usize,
    /// The way that is looked at next.
    next: usize,
    /// How many places were met until here, itself included.
    met: usize,
}

/// A walk over a graph, in depth first.
#[derive(Drop)]
struct Walk {
    /// Of each place the least number that is known of a place to which it leads.
    low: Vec<usize>,
    /// The places that were met and whose component isn't found yet.
    open: Vec<usize>,
    path: Vec<Visit>,
    met: usize,
    found: Components,
}

fn low_of(low: &[usize], place: usize) -> usize {
    low.get(place).copied().unwrap_or(FOUND)
}

fn set(numbers: &mut [usize], place: usize, number: usize) {
    if let Some(entry) = numbers.get_mut(place) {
        *entry = number;
    }
}

impl Walk {
    /// A place is met for the first time.
    fn enter(&mut self, place: usize) -> Result<(), AllocError> {
        self.met = self.met.saturating_add(1);
        set(&mut self.low, place, self.met);
        self.open.push(place)?;
        self.path.push(Visit {
            place,
            next: 0,
            met: self.met,
        })?;
        Ok(())
    }

    /// A place leads to one with this number.
    fn lower(&mut self, place: usize, low: usize) {
        let least = low_of(&self.low, place).min(low);
        set(&mut self.low, place, least);
    }

    /// The last open places, up to the given one, are a component.
    fn take_component(&mut self, place: usize) -> Result<(), AllocError> {
        while let Some(last) = self.open.pop() {
            set(&mut self.low, last, FOUND);
            set(&mut self.found.of, last, self.found.count);
            self.found.order.push(last)?;
            if last == place {
                break;
            }
        }
        self.found.count = self.found.count.saturating_add(1);
        Ok(())
    }

    /// All ways of a place were looked at.
    fn leave(&mut self, visit: &Visit) -> Result<(), AllocError> {
        let low = low_of(&self.low, visit.place);
        if low == visit.met {
            self.take_component(visit.place)?;
        } else if let Some(before) = self.path.last() {
            let place = before.place;
            self.lower(place, low);
        }
        Ok(())
    }

    /// A way of the place that was visited last.
    fn follow(&mut self, visit: &Visit, way: &Way) -> Result<(), AllocError> {
        self.path.push(Visit {
            place: visit.place,
            next: visit.next.saturating_add(1),
            met: visit.met,
        })?;
        if way.cut != Cut::Open {
            return Ok(());
        }
        match low_of(&self.low, way.to) {
            UNMET => self.enter(way.to),
            low => {
                self.lower(visit.place, low);
                Ok(())
            }
        }
    }

    /// One step: a way is followed, or a place is left. False where the path is at its end.
    fn step(&mut self, graph: &Graph) -> Result<bool, AllocError> {
        let Some(visit) = self.path.pop() else {
            return Ok(false);
        };
        match graph.ways_of(visit.place).get(visit.next).copied() {
            Some(way) => self.follow(&visit, &way)?,
            None => self.leave(&visit)?,
        }
        Ok(true)
    }

    /// All that a place leads to is met.
    fn walk_from(&mut self, graph: &Graph, place: usize) -> Result<(), AllocError> {
        self.enter(place)?;
        let steps = graph.nodes.len().saturating_add(graph.ways.len());
        for _ in 0..steps.saturating_add(1) {
            if !self.step(graph)? {
                break;
            }
        }
        Ok(())
    }
}

/// A list of the same number for each place.
pub(crate) fn numbers(
    alloc: Global,
    number: usize,
    places: usize,
) -> Result<Vec<usize>, AllocError> {
    vec![in alloc; number; places]
}

/// The components of a graph, over its open ways.
pub(crate) fn components_of(alloc: Global, graph: &Graph) -> Result<Components, AllocError> {
    let places = graph.nodes.len();
    let mut walk = Walk {
        low: numbers(alloc, UNMET, places)?,
        open: Vec::new(alloc),
        path: Vec::new(alloc),
        met: 0,
        found: Components {
            of: numbers(alloc, 0, places)?,
            order: Vec::new(alloc),
            count: 0,
        },
    };
    for place in 0..places {
        if low_of(&walk.low, place) == UNMET {
            walk.walk_from(graph, place)?;
        }
    }
    let Walk {
        found,
        low: _,
        open: _,
        path: _,
        met: _,
    } = walk;
    Ok(found)
}
