ghost use Rattle.std.specs.Prelude.{◌≡◌, ◌∷◌, ◌++◌, [], List, IfOk, OnOk, string_bytes};
ghost use Rattle.simulator.specs.Machines.{Entry as Step};
ghost use Rattle.simulator.specs.Steps.{total_ticks};
ghost use Rattle.simulator.specs.Traces.{Trace, HasItsFrame};
ghost use Rattle.session.specs.Reports.{IsReport, HasRoom, TellsAll};

use simulator::{Ending, Entry, last_line, push_line, runs_go_on};
use std::alloc::{AllocError, Global};
use wires::Wave;

/// How a run is told.
#[derive(Clone, Copy, Debug, PartialEq, Eq)]
pub enum Telling {
    /// By the lines of its trace.
    Lines,
    /// By the levels of the bus.
    Levels,
}

/// What is told of a run, step by step.
#[derive(Drop)]
pub enum Report {
    Lines(String),
    Wave(Wave),
}

impl Report {
    /// The report of no steps.
    pub fn new(alloc: Global, telling: Telling) -> Result<Report, AllocError>
        ensures { IfOk result (IsReport telling []) }
    {
        match telling {
            Telling::Lines => Ok(Report::Lines(String::new(alloc))),
            Telling::Levels => Ok(Report::Wave(Wave::new(alloc)?)),
        }
    }

    /// Adds a step. Fails only for want of memory, and then the report is of no more use.
    pub fn add(&mut self, alloc: Global, entry: &Entry) -> Result<(), AllocError>
        requires seen { HasItsFrame entry.now }
        requires room { HasRoom self.old entry.now }
        ensures { OnOk result ((telling : Telling) → (entries : List Step)
            → IsReport telling entries self.old
            → IsReport telling (entries ++ entry.now ∷ []) self.new) }
    {
        match self {
            Report::Lines(text) => {
                push_line(alloc, text, entry)?;
                Ok(())
            }
            Report::Wave(wave) => {
                runs_go_on();
                wave.push(entry.place, &entry.samples)?;
                Ok(())
            }
        }
    }

    /// The text of a run that ended so, after so many ticks.
    pub fn whole(self, alloc: Global, ended: Ending, ticks: u64) -> Result<String, AllocError>
        ensures { IfOk result (λ text. (telling : Telling) → (trace : Trace)
            → IsReport telling trace.entries self → ended ≡ trace.last.ended
            → ticks ≡ total_ticks trace.entries → TellsAll telling trace (string_bytes text)) }
    {
        match self {
            Report::Lines(mut text) => {
                let last = last_line(alloc, ended, ticks)?;
                text.push_str(&last)?;
                Ok(text)
            }
            Report::Wave(wave) => Ok(wave.into_text()),
        }
    }
}
