//! States that are still to be looked at, the nearest first.

use crate::distance::UNREACHED;
use std::alloc::{AllocError, Global};

/// The numbers of states by their distance, in the order in which they came.
#[derive(Drop)]
pub(crate) struct Queue {
    lanes: Vec<Lane>,
    /// No lane before this has one left.
    first: usize,
}

#[derive(Drop)]
struct Lane {
    states: Vec<usize>,
    taken: usize,
}

impl Lane {
    fn next(&mut self) -> Option<usize> {
        let state = *self.states.get(self.taken)?;
        self.taken = self.taken.saturating_add(1);
        Some(state)
    }
}

impl Queue {
    pub(crate) fn new(alloc: Global) -> Result<Queue, AllocError> {
        let mut lanes = Vec::new(alloc);
        for _ in 0..=UNREACHED {
            lanes.push(Lane {
                states: Vec::new(alloc),
                taken: 0,
            })?;
        }
        Ok(Queue { lanes, first: 0 })
    }

    pub(crate) fn push(&mut self, distance: usize, state: usize) -> Result<(), AllocError> {
        let lane = distance.min(UNREACHED);
        self.first = self.first.min(lane);
        match self.lanes.get_mut(lane) {
            Some(lane) => Ok(lane.states.push(state)?),
            None => Ok(()),
        }
    }

    /// Takes the nearest.
    pub(crate) fn next(&mut self) -> Option<usize> {
        for index in self.first..self.lanes.len() {
            let state = self.lanes.get_mut(index)?.next();
            self.first = index;
            if state.is_some() {
                return state;
            }
        }
        None
    }
}
