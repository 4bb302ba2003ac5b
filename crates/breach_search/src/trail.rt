//! The states that a search has come to, and the way to each.

use indexmap::IndexMap;
use std::alloc::{AllocError, Global};

/// How a state was come to.
#[derive(Clone, Copy)]
pub(crate) enum Origin {
    /// By the start of this number.
    Start(usize),
    /// From the state of a number, by the answer of a number.
    Step(usize, usize),
}

/// The states by their keys, in the order in which they were found.
#[derive(Drop)]
pub(crate) struct Trail {
    pub states: IndexMap<Vec<u8>, Origin>,
}

impl Trail {
    pub(crate) fn new(alloc: Global) -> Trail {
        Trail {
            states: IndexMap::new(alloc),
        }
    }

    /// Keeps a state, and tells its number if it is new.
    pub(crate) fn add(
        &mut self,
        key: Vec<u8>,
        origin: Origin,
    ) -> Result<Option<usize>, AllocError> {
        let number = self.states.len();
        if self.states.contains_key(key.as_slice()) {
            return Ok(None);
        }
        self.states.insert(key, origin)?;
        Ok(Some(number))
    }

    /// The number of the start from which a state was come to, and from the last to the first the
    /// numbers of the answers, each with that of the state before it.
    pub(crate) fn way_to(
        &self,
        alloc: Global,
        number: usize,
    ) -> Result<(usize, Vec<(usize, usize)>), AllocError> {
        let mut steps = Vec::new(alloc);
        let mut at = number;
        for _ in 0..self.states.len() {
            match self.states.get_index(at) {
                Some((_, Origin::Step(before, choice))) => {
                    steps.push((*before, *choice))?;
                    at = *before;
                }
                Some((_, Origin::Start(start))) => return Ok((*start, steps)),
                None => break,
            }
        }
        Ok((0, steps))
    }
}
