//! What choices are made by.

ghost use Rattle.std.specs.Prelude.{◌<◌, ◌≤◌};

use rand_pcg::Pcg32;
use rand_pcg::rand_core::{Rng, SeedableRng};

/// A generator of numbers, or always the first of all choices.
#[derive(Drop)]
pub(crate) enum Chance {
    Plain,
    Drawn(Pcg32),
}

impl Chance {
    /// That of a seed: of seed 0 the first of all choices.
    pub(crate) fn of_seed(seed: u64) -> Chance {
        if seed == 0 {
            Chance::Plain
        } else {
            Chance::Drawn(Pcg32::seed_from_u64(seed))
        }
    }

    pub(crate) fn is_plain(&self) -> bool {
        matches!(self, Chance::Plain)
    }

    /// One of so many choices, counted from 0.
    pub(crate) fn one_of(&mut self, count: u32) -> u32
        ensures { 0 < count → result < count }
    {
        match self {
            Chance::Plain => 0,
            Chance::Drawn(generator) => generator.next_u32() % count.max(1),
        }
    }

    /// Whether comes what comes once in so many times; never in the plain run.
    pub(crate) fn once_in(&mut self, count: u32) -> bool {
        !self.is_plain() && self.one_of(count) == 0
    }

    /// A number from the first to the second.
    pub(crate) fn between(&mut self, low: u16, high: u16) -> u16 {
        let count = u32::from(high.saturating_sub(low)) + 1;
        low.saturating_add(self.one_of(count) as u16)
    }

    /// One of some bytes; 0 where there is none.
    pub(crate) fn byte_of(&mut self, bytes: &[u8]) -> u8 {
        let index = self.one_of(bytes.len().min(256) as u32) as usize;
        match bytes.get(index) {
            Some(byte) => *byte,
            None => 0,
        }
    }
}
