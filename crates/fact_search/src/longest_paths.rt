//! The dearest ways, to a loop's next turn and to the program's end: longest paths, by relaxation
//! (Bellman and Ford).
//!
//! Where a read takes 143 ticks, then an `if` 1, a `wait 200` 201 and the `again` back to the read
//! 1, the loop's next turn is 346 ticks away from the read, and that is what a turn costs.

use crate::graph::{Cut, Graph, Way};
use crate::loop_forest::loop_of;
use crate::loops::Ticks;

/// What is left at a turn counts from here on, since before it less may be left than after it. 0 is
/// left at a place that isn't known to lead to a turn.
pub(crate) const TURN: u64 = 1 << 62;

/// Where paths lead that are measured.
#[derive(Drop)]
pub(crate) enum Destination<'a> {
    /// To an end of the program.
    End,
    /// To the next turn of the loop at this depth that a place is in.
    Turn {
        depth: usize,
        inside: &'a [Option<usize>],
    },
}

/// The longest paths of a graph at whose places the coefficients are known.
#[derive(Drop)]
pub(crate) struct LongestPaths<'a> {
    pub(crate) graph: &'a Graph,
    pub(crate) ticks: &'a [Ticks],
    pub(crate) to: Destination<'a>,
}

/// What is left at a place.
pub(crate) fn value_at(values: &[u64], place: usize) -> u64 {
    values.get(place).copied().unwrap_or(0)
}

fn coeffs_at(ticks: &[Ticks], place: usize) -> [u64; 4] {
    match ticks.get(place) {
        Some(ticks) => ticks.coeffs,
        None => [0; 4],
    }
}

/// What has to be left before a way, where `rest` is left after it: the way's ticks, and for each
/// counter what it is worth less before than after, at most.
fn before(way: &Way, here: [u64; 4], there: [u64; 4], rest: u64) -> u64 {
    let mut owed = way.ticks.saturating_add(rest);
    let mut had = 0u64;
    for c in 0..4 {
        let grows = there[c].saturating_sub(here[c]);
        let falls = here[c].saturating_sub(there[c]);
        owed = owed.saturating_add(grows.saturating_mul(u64::from(way.counters[c].hi)));
        had = had.saturating_add(falls.saturating_mul(u64::from(way.counters[c].lo)));
        if way.takes == Some(c) {
            had = had.saturating_add(here[c]);
        }
    }
    owed.saturating_sub(had)
}

/// What is left after a way inside a loop at a depth, on the way to the loop's next turn. Turns of
/// loops around it aren't taken.
fn rest_to_turn(cut: Cut, depth: usize, there: u64) -> Option<u64> {
    match cut {
        Cut::Open => Some(there),
        Cut::Paid(at) => {
            if at < depth {
                None
            } else if at == depth {
                Some(TURN)
            } else {
                Some(there)
            }
        }
        Cut::Unpaid => None,
    }
}

impl LongestPaths<'_> {
    /// What is left after a way, if it is measured.
    fn rest(&self, values: &[u64], way: &Way) -> Option<u64> {
        let there = value_at(values, way.to);
        match &self.to {
            Destination::End => {
                if way.cut == Cut::Unpaid {
                    None
                } else {
                    Some(there)
                }
            }
            Destination::Turn { depth, inside } => {
                let _stays = loop_of(inside, way)?;
                rest_to_turn(way.cut, *depth, there).filter(|rest| *rest > 0)
            }
        }
    }

    /// What has to be left before a way.
    fn owed(&self, values: &[u64], way: &Way) -> u64 {
        match self.rest(values, way) {
            Some(rest) => {
                let here = coeffs_at(self.ticks, way.from);
                let there = coeffs_at(self.ticks, way.to);
                before(way, here, there, rest)
            }
            None => 0,
        }
    }

    /// The most that has to be left at a place.
    fn owed_at(&self, values: &[u64], place: usize) -> u64 {
        let mut most = value_at(values, place);
        for way in self.graph.ways_of(place) {
            most = most.max(self.owed(values, way));
        }
        most
    }

    /// What is left grows at each place to what its ways owe. False where nothing grows.
    fn relax_once(&self, values: &mut [u64], order: &[usize]) -> bool {
        let mut grew = false;
        for place in order {
            let owed = self.owed_at(values, *place);
            if let Some(value) = values.get_mut(*place) {
                if *value < owed {
                    *value = owed;
                    grew = true;
                }
            }
        }
        grew
    }

    /// What is left grows until each place has what its ways owe. The order has the places after
    /// those to which they lead but for turns, and a dearest way takes a turn at a place once at
    /// most, so there are no more passes than places.
    pub(crate) fn relax(&self, values: &mut [u64], order: &[usize]) {
        for _ in 0..order.len() {
            if !self.relax_once(values, order) {
                break;
            }
        }
    }
}
