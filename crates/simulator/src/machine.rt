ghost use Rattle.std.specs.Prelude.{◌≡◌, ◌<◌, All, IfOk};

use std::alloc::{AllocError, Global};
use std::marker::Model;
use targets::{BusState, Outcome};
use wires::Runs;

/// Whether a program goes on.
#[derive(Clone, Copy, Debug, PartialEq, Eq)]
pub enum Ending {
    Running,
    /// By `end`.
    Finished,
    /// By `fail`.
    Failed,
}

/// A program that runs on a board, between two steps.
#[derive(Debug, Drop)]
pub struct Machine {
    /// The place of the next instruction.
    pub place: usize,
    /// r0 to r7.
    pub regs: [u16; 8],
    /// c0 to c3.
    pub counters: [u16; 4],
    pub bus: BusState,
    pub ended: Ending,
}

impl Model for Machine {
    ghost use Rattle.simulator.specs.Machines.{Machine};

    ghost Value = { Machine };

    ghost view = { λ m. record {
      place = m.place;
      regs = m.regs;
      counters = m.counters;
      bus = m.bus;
      ended = m.ended;
    } };
}

/// What one step leaves to be seen.
#[derive(Debug, Drop)]
pub struct Entry {
    /// The place of the instruction.
    pub place: usize,
    /// What the targets kept before the step.
    pub before: BusState,
    /// The lines, one sample a tick of 5 µs: an idle one first.
    pub samples: Runs,
    /// How the message ended; None for an instruction that sends nothing.
    pub outcome: Option<Outcome>,
    /// The number of samples.
    pub ticks: u64,
}

impl Model for Entry {
    ghost use Rattle.simulator.specs.Machines.{Entry};

    ghost Value = { Entry };

    ghost view = { λ e. record {
      place = e.place;
      before = e.before;
      samples = e.samples;
      outcome = e.outcome;
      ticks = e.ticks;
    } };
}

impl Entry {
    ghost use Rattle.std.specs.Prelude.{◌≡◌, [], None};

    /// What no step leaves, which takes no memory.
    pub fn empty(alloc: Global) -> Entry
        ensures { result ≡ record {
          place = 0;
          before = record { page = []; protect = []; alerting = 0; lost = 0 };
          samples = [];
          outcome = None;
          ticks = 0;
        } }
    {
        Entry {
            place: 0,
            before: BusState::empty(alloc),
            samples: Runs::new(alloc),
            outcome: None,
            ticks: 0,
        }
    }
}

impl Machine {
    ghost use Rattle.std.specs.Prelude.{◌≡◌, IfOk};

    /// The same machine once more.
    pub(crate) fn copied(&self) -> Result<Machine, AllocError>
        ensures { IfOk result (λ copy. copy ≡ self.now) }
    {
        Ok(self.over(self.bus.clone()?))
    }

    /// The same machine over another state of the targets.
    pub(crate) fn over(&self, bus: BusState) -> Machine
        ensures { result ≡ record self.now { bus = bus } }
    {
        Machine {
            place: self.place,
            regs: self.regs,
            counters: self.counters,
            bus,
            ended: self.ended,
        }
    }
}

/// Registers hold words. Nothing is done: this is what their type says.
pub(crate) fn registers_are_words(registers: &[u16])
    ensures { All (λ word. word < 65536) registers.now }
{}
