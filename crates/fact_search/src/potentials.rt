//! The potentials of counters between the loops that they bound: what a loop leaves of its counter
//! a later one may take. Two passes, against the ways and along them, until nothing changes.
//!
//!     0  count c0 9
//!     1  read core STATUS_WORD r0 else 4
//!     2  again c0 1
//!     3  goto 6
//!     4  read core STATUS_WORD r0 else 6
//!     5  again c0 4
//!     6  end
//!
//! Where a turn of the second loop costs 90 ticks, c0 has a potential of 90 at each place before
//! it: at place 1 too, from which a way leads to place 4 before c0 is set.

use crate::graph::Graph;
use crate::loop_forest::{Loop, LoopForest, loop_at};
use crate::loops::Ticks;
use std::alloc::{AllocError, Global};

/// What is known of the counters at a place.
#[derive(Clone, Copy, PartialEq, Eq)]
struct Potential {
    /// The most that a turn of the counter has to pay for here, or where the place leads before it
    /// is set.
    needed: [u64; 4],
    /// The counter pays for something here, or at a place that leads here before it is set.
    available: [bool; 4],
    /// The counter is set in a loop around the place whose turns are paid for.
    settled: [bool; 4],
}

impl Potential {
    /// The place leads to another before `sets` is set.
    fn backward(&mut self, there: &Potential, sets: Option<usize>) {
        for c in 0..4 {
            if !self.settled[c] && sets != Some(c) {
                self.needed[c] = self.needed[c].max(there.needed[c]);
            }
        }
    }

    /// Another place leads here before `sets` is set.
    fn forward(&mut self, there: &Potential, sets: Option<usize>) {
        for c in 0..4 {
            if !self.settled[c] && sets != Some(c) && there.available[c] {
                self.available[c] = true;
            }
        }
    }
}

/// What a loop leaves is known at its places alone at first.
fn first_potential(ticks: &Ticks, inside: Option<&Loop>) -> Potential {
    Potential {
        needed: ticks.coeffs,
        available: ticks.coeffs.map(|coeff| coeff > 0),
        settled: match inside {
            Some(found) => found.sets,
            None => [false; 4],
        },
    }
}

/// The loop of a place, if there is one.
fn loop_around<'a>(loops: &'a [Loop], inside: &[Option<usize>], place: usize) -> Option<&'a Loop> {
    loops.get(loop_at(inside, place)?)
}

fn first_potentials(
    alloc: Global,
    loops: &[Loop],
    inside: &[Option<usize>],
    ticks: &[Ticks],
) -> Result<Vec<Potential>, AllocError> {
    let mut potentials = Vec::new(alloc);
    for (place, ticks) in ticks.iter().enumerate() {
        potentials.push(first_potential(ticks, loop_around(loops, inside, place)))?;
    }
    Ok(potentials)
}

/// A place's potential, with that of the places to which it leads.
fn backward_at(graph: &Graph, potentials: &[Potential], place: usize) -> Option<Potential> {
    let mut here = *potentials.get(place)?;
    let node = graph.nodes.get(place)?;
    for way in graph.ways_of(place) {
        if let Some(there) = potentials.get(way.to) {
            here.backward(there, node.sets);
        }
    }
    Some(here)
}

/// A place's potential changes. False where it doesn't.
fn change(potentials: &mut [Potential], place: usize, potential: Potential) -> bool {
    match potentials.get_mut(place) {
        Some(entry) => {
            let changes = *entry != potential;
            *entry = potential;
            changes
        }
        None => false,
    }
}

/// Against the ways: each place learns from those to which it leads. False where nothing changes.
fn pass_backward(graph: &Graph, potentials: &mut [Potential], order: &[usize]) -> bool {
    let mut changed = false;
    for place in order {
        if let Some(potential) = backward_at(graph, potentials, *place) {
            if change(potentials, *place, potential) {
                changed = true;
            }
        }
    }
    changed
}

/// The places to which a place leads learn from it. False where nothing changes.
fn forward_from(graph: &Graph, potentials: &mut [Potential], place: usize) -> bool {
    let Some(node) = graph.nodes.get(place) else {
        return false;
    };
    let Some(here) = potentials.get(place).copied() else {
        return false;
    };
    let mut changed = false;
    for way in graph.ways_of(place) {
        if let Some(mut told) = potentials.get(way.to).copied() {
            told.forward(&here, node.sets);
            if change(potentials, way.to, told) {
                changed = true;
            }
        }
    }
    changed
}

/// Along the ways: each place tells those to which it leads. False where nothing changes.
fn pass_forward(graph: &Graph, potentials: &mut [Potential], order: &[usize]) -> bool {
    let mut changed = false;
    for place in order.iter().rev() {
        if forward_from(graph, potentials, *place) {
            changed = true;
        }
    }
    changed
}

/// Both passes, until nothing changes.
fn iterate(graph: &Graph, potentials: &mut [Potential], order: &[usize]) {
    for _ in 0..order.len() {
        let learned = pass_backward(graph, potentials, order);
        let told = pass_forward(graph, potentials, order);
        if !learned && !told {
            break;
        }
    }
}

/// The coefficients of a place where a counter is left for a loop ahead.
fn raise(ticks: &mut Ticks, potential: &Potential) {
    for c in 0..4 {
        if potential.available[c] {
            ticks.coeffs[c] = ticks.coeffs[c].max(potential.needed[c]);
        }
    }
}

/// Where the turns of all loops at a depth are paid for, their counters keep their potentials
/// between loops. `inside` has the loop of each place at this depth.
pub(crate) fn carry_potentials(
    alloc: Global,
    graph: &Graph,
    forest: &LoopForest,
    inside: &[Option<usize>],
    ticks: &mut [Ticks],
) -> Result<(), AllocError> {
    let mut potentials = first_potentials(alloc, &forest.loops, inside, ticks)?;
    iterate(graph, &mut potentials, &forest.order);
    for (ticks, potential) in ticks.iter_mut().zip(potentials.iter()) {
        raise(ticks, potential);
    }
    Ok(())
}
