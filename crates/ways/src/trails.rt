//! Places with the facts of one way to each, and from where they were reached.

ghost use Rattle.std.specs.Prelude.{◌≡◌, ◌<◌, [], IfOk, OnOk, length, option_map};
ghost use Rattle.ways.specs.Trails.{AddsTrail, AddsTrails, AreOrdered, FollowsTo};
ghost use Rattle.ways.specs.Trails.{step_at};

use crate::step::Step;
use facts::{Part, Row, Span};
use std::alloc::{AllocError, Global};
use std::collections::VecDeque;

/// A trail is compared with so many of those at its place at most, the last ones: one that brings
/// no more than another is mostly met soon after it, and where it isn't, the search takes longer.
const MOST_COMPARED: usize = 256;

/// A step that was reached, and the number of the trail that it was reached from; none at a start.
#[derive(Drop)]
pub(crate) struct Trail {
    pub step: Step,
    pub before: Option<usize>,
}

/// All trails, the shortest first.
#[derive(Drop)]
pub(crate) struct Trails {
    pub trails: Vec<Trail>,
    /// Of each place, the numbers of the trails that lead there.
    met: Vec<Vec<usize>>,
}

/// Whether each span covers the one at its place.
fn spans_cover(spans: &[Span], others: &[Span]) -> bool {
    spans
        .iter()
        .zip(others)
        .all(|(span, other)| span.covers(other))
}

/// Whether a row covers another: in loops it is most often a counter or a register that isn't
/// covered, so they come first.
fn covers(row: &Row, other: &Row) -> bool {
    spans_cover(&row.counters, &other.counters)
        && spans_cover(&row.regs, &other.regs)
        && row.covers(other)
}

impl Trails {
    /// None yet, in a program with so many places.
    pub(crate) fn new(alloc: Global, places: usize) -> Result<Trails, AllocError>
        ensures { IfOk result (λ trails. trails.trails.items ≡ []) }
    {
        let mut met = Vec::new(alloc);
        for _ in 0..places {
            met.push(Vec::new(alloc))?;
        }
        Ok(Trails {
            trails: Vec::new(alloc),
            met,
        })
    }

    /// Whether a row is covered by that of a trail.
    fn covers(&self, number: usize, row: &Row) -> bool {
        match self.trails.get(number) {
            Some(trail) => covers(&trail.step.row, row),
            None => false,
        }
    }

    /// Whether what is known at a step isn't known at its place yet.
    fn is_new(&self, step: &Step) -> bool {
        let Some(met) = self.met.get(step.place) else {
            return false;
        };
        for number in met.iter().rev().take(MOST_COMPARED) {
            if self.covers(*number, &step.row) {
                return false;
            }
        }
        true
    }

    /// Adds a trail, unless it brings nothing new.
    fn add(&mut self, trail: Trail) -> Result<(), AllocError>
        ensures { OnOk result (AddsTrail trail self.old.trails.items self.new.trails.items) }
    {
        if !self.is_new(&trail.step) {
            return Ok(());
        }
        if let Some(met) = self.met.get_mut(trail.step.place) {
            met.push(self.trails.len())?;
        }
        self.trails.push(trail)?;
        Ok(())
    }

    /// Goes on from a trail along its edges, or begins with the edges to the first place.
    pub(crate) fn go_on(
        &mut self,
        before: Option<usize>,
        list: Vec<(usize, Row, u64)>,
    ) -> Result<(), AllocError>
        ensures { OnOk result
            (AddsTrails before list.items self.old.trails.items self.new.trails.items) }
    {
        let edges = list.len();
        for (edge, (place, row, _)) in list.into_iter().enumerate() {
            let step = Step {
                place,
                row,
                edge,
                edges,
            };
            self.add(Trail { step, before })?;
        }
        Ok(())
    }

    /// The step of a trail.
    pub(crate) fn step(&self, number: usize) -> Option<&Step>
        ensures { option_map (λ s. s.now) result ≡ step_at self.now.trails.items number }
    {
        let trail = self.trails.get(number)?;
        Some(&trail.step)
    }

    /// The way to a trail, from its start on.
    pub(crate) fn into_way(self, alloc: Global, number: usize) -> Result<Vec<Step>, AllocError>
        requires there { number < length self.trails.items }
        requires ordered { AreOrdered self.trails.items }
        ensures { IfOk result (λ way. FollowsTo number self.trails.items way.items) }
    {
        let mut trails = self.trails;
        let mut way = VecDeque::new(alloc);
        let mut next = Some(number);
        while let Some(number) = next {
            trails.truncate(number + 1);
            let Some(Trail { step, before }) = trails.pop() else {
                break;
            };
            way.push_front(step)?;
            next = before;
        }
        Ok(way.into_vec())
    }
}
