//! Lists of samples, kept as runs of equal ones.

mod appending;

ghost use Rattle.std.specs.Prelude.{◌≡◌, ◌≤◌, ◌<◌, ◌+◌, [], ◌++◌, length, replicate, OnOk, OnErr};
ghost use Rattle.std.specs.Prelude.{IsOk, IfOk, vec_len, vec_capacity, slice_get};
ghost use Rattle.wires.specs.Events.{events_of};
ghost use Rattle.wires.specs.Runs.{AreRuns, levels_in, most_samples, samples_of};

use crate::event::{Event, event_between};
use crate::lines::Sample;
pub use appending::Appending;
use std::alloc::{AllocError, Global};
use std::marker::Model;

/// The most samples, one a tick: 2^40 ticks of 5 µs are 63 days.
pub const MOST_SAMPLES: u64 = 1 << 40;

/// Equal samples in a row.
#[derive(Clone, Copy, Debug, PartialEq, Eq)]
pub struct Run {
    pub sample: Sample,
    /// The number of samples up to the end of this run, from the first run on.
    pub end: u64,
}

/// A list of samples, one sample a tick, kept as runs of equal ones: it takes memory for each
/// change of a line, and none for the ticks between. There are at most 2^40 samples.
#[derive(Debug, Drop)]
pub struct Runs {
    runs: Vec<Run>,
}

impl Model for Runs {
    ghost use Rattle.std.specs.Prelude.{List};
    ghost use Rattle.wires.specs.declared.lines.Sample.{Sample};

    ghost Value = { List Sample };

    ghost use Rattle.wires.specs.Runs.{AreRuns, samples_of};

    ghost view = { λ r. samples_of r.runs.items };

    ghost invariant = { λ r. AreRuns r.runs.items };
}

/// How many samples runs have.
fn end_of(runs: &[Run]) -> u64
    requires { AreRuns runs.now }
    ensures { result ≡ length (samples_of runs.now) }
{
    match runs.last() {
        Some(last) => last.end,
        None => 0,
    }
}

/// Appends equal samples to runs: to the last run where the sample is the same. Fails only for
/// want of memory.
fn push_run(runs: &mut Vec<Run>, sample: Sample, count: u64) -> Result<(), AllocError>
    requires runs { AreRuns runs.old.items }
    requires few { length (samples_of runs.old.items) + count ≤ most_samples }
    ensures runs { AreRuns runs.new.items }
    ensures ok { OnOk result (samples_of runs.new.items
        ≡ samples_of runs.old.items ++ replicate count sample) }
    ensures err { OnErr result (runs.new.items ≡ runs.old.items) }
    // At most one run more is taken, and where there is room for it nothing fails.
    ensures room { vec_len runs.old < vec_capacity runs.old → IsOk result }
    ensures longer { vec_len runs.new ≤ vec_len runs.old + 1 }
    ensures capacity { vec_capacity runs.old ≤ vec_capacity runs.new }
{
    if count == 0 {
        return Ok(());
    }
    let Some(last) = runs.last_mut() else {
        runs.push(Run { sample, end: count })?;
        return Ok(());
    };
    let end = last.end + count;
    if last.sample == sample {
        last.end = end;
    } else {
        runs.push(Run { sample, end })?;
    }
    Ok(())
}

/// Appends runs to runs. Fails only for want of memory.
fn push_runs(runs: &mut Vec<Run>, later: &[Run]) -> Result<(), AllocError>
    requires runs { AreRuns runs.old.items }
    requires later { AreRuns later.now }
    requires few { length (samples_of runs.old.items) + length (samples_of later.now)
        ≤ most_samples }
    ensures runs { OnOk result (AreRuns runs.new.items) }
    ensures ok { OnOk result (samples_of runs.new.items
        ≡ samples_of runs.old.items ++ samples_of later.now) }
{
    let mut before = 0;
    for run in later {
        push_run(runs, run.sample, run.end - before)?;
        before = run.end;
    }
    Ok(())
}

impl Runs {
    /// The list of no samples. Takes no memory.
    pub fn new(alloc: Global) -> Runs
        ensures { result ≡ [] }
    {
        Runs {
            runs: Vec::new(alloc),
        }
    }

    /// Takes all samples away. The memory is kept for others.
    pub fn clear(&mut self)
        ensures { self.new ≡ [] }
    {
        self.runs.clear();
    }

    /// Appends so many equal samples. Fails only for want of memory, and then the list is
    /// unchanged.
    pub fn push(&mut self, sample: Sample, count: u64) -> Result<(), AllocError>
        requires { length self.old + count ≤ most_samples }
        ensures ok { OnOk result (self.new ≡ self.old ++ replicate count sample) }
        ensures err { OnErr result (self.new ≡ self.old) }
    {
        push_run(&mut self.runs, sample, count)
    }

    /// The samples of one list, and then those of another. Fails only for want of memory.
    pub fn joined(alloc: Global, first: &Runs, later: &Runs) -> Result<Runs, AllocError>
        requires { length first.now + length later.now ≤ most_samples }
        ensures { IfOk result (λ both. both ≡ first.now ++ later.now) }
    {
        let mut runs = Vec::new(alloc);
        push_runs(&mut runs, &first.runs)?;
        push_runs(&mut runs, &later.runs)?;
        Ok(Runs { runs })
    }

    /// The number of samples.
    pub fn total(&self) -> u64
        ensures total { result ≡ length self.now }
        ensures few { length self.now ≤ most_samples }
    {
        end_of(&self.runs)
    }

    /// The sample at a place, from 0 on, or None where there are no more than so many samples.
    /// It takes steps as a search in the sorted ends of the runs does.
    pub fn sample_at(&self, index: u64) -> Option<Sample>
        ensures { result ≡ slice_get self.now index }
    {
        let place = self.runs.partition_point(|run| run.end <= index);
        match self.runs.get(place) {
            Some(run) => Some(run.sample),
            None => None,
        }
    }

    /// The runs in order: each has at least one sample, and neighbours differ.
    pub fn runs(&self) -> &[Run]
        ensures samples { samples_of result.now ≡ self.now }
        ensures runs { AreRuns result.now }
        ensures events { events_of (levels_in result.now) ≡ events_of self.now }
    {
        &self.runs
    }
}

/// Appends the events of clocks, in each of which SCL falls and then rises, up to the first run
/// that is followed by none; what is left begins with that run.
#[inline(always)]
fn push_rises<'a>(events: &mut Vec<Event>, runs: &'a [Run]) -> &'a [Run]
    requires room { vec_len events.old + length runs.now ≤ vec_capacity events.old }
    ensures events { events.new.items ++ events_of (levels_in result.now)
        ≡ events.old.items ++ events_of (levels_in runs.now) }
    ensures room { vec_len events.new + length result.now ≤ vec_capacity events.new }
    ensures fewer { length result.now ≤ length runs.now }
{
    let mut rest = runs;
    while let [before, low, high, ..] = rest {
        if !before.sample.scl || low.sample.scl || !high.sample.scl {
            break;
        }
        events.push_reserved(Event::Rise(high.sample.sda));
        rest = &rest[2..];
    }
    rest
}

/// Appends the events between runs.
#[inline(always)]
fn push_events(events: &mut Vec<Event>, runs: &[Run])
    requires room { vec_len events.old + length runs.now ≤ vec_capacity events.old }
    ensures { events.new.items ≡ events.old.items ++ events_of (levels_in runs.now) }
{
    let mut rest = runs;
    while let [before, after, ..] = rest {
        if let Some(event) = event_between(before.sample, after.sample) {
            events.push_reserved(event);
        }
        rest = push_rises(events, &rest[1..]);
    }
}

/// The events of a list of samples, one sample a tick, in order. It takes steps for the runs, and
/// none for the ticks within. Fails only for want of memory.
#[inline(never)]
pub fn events_of(alloc: Global, runs: &Runs) -> Result<Vec<Event>, AllocError>
    ensures { IfOk result (λ events. events.items ≡ events_of runs.now) }
{
    let runs = runs.runs();
    let mut events = Vec::with_capacity(alloc, runs.len())?;
    push_events(&mut events, runs);
    Ok(events)
}
