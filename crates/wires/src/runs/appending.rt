//! Samples that grow by many runs, where room for all of them is made first.

ghost use Rattle.std.specs.Prelude.{◌≡◌, ◌≤◌, ◌<◌, ◌+◌, ◌-◌, ◌∷◌, ◌++◌, [], true, false, length};
ghost use Rattle.std.specs.Prelude.{replicate, vec_len, vec_capacity, IfOk, OnOk, OnErr};
ghost use Rattle.wires.specs.Drawing.{levels_behind};
ghost use Rattle.wires.specs.Marks.{free_bus};
ghost use Rattle.wires.specs.Runs.{AreRuns, most_samples, samples_of};

use crate::lines::Sample;
use crate::runs::{Run, Runs, end_of};
use crate::wave::levels_behind;
use std::alloc::AllocError;
use std::marker::Model;
use std::mem;

/// Samples that are appended to, with room for some runs more, which takes no memory then.
#[derive(Debug, Drop)]
pub struct Appending {
    runs: Vec<Run>,
    /// The number of samples.
    end: u64,
    /// Whether SCL is high in the last of them.
    is_high: bool,
}

impl Model for Appending {
    ghost use Rattle.std.specs.Prelude.{◌≡◌, ◌-◌, length, vec_len, vec_capacity};
    ghost use Rattle.wires.specs.Runs.{Appended};

    ghost Value = { Appended };

    ghost use Rattle.wires.specs.Drawing.{levels_behind};
    ghost use Rattle.wires.specs.Marks.{free_bus};
    ghost use Rattle.wires.specs.Runs.{AreRuns, samples_of};

    ghost view = { λ a. record {
      samples = samples_of a.runs.items;
      room = vec_capacity a.runs - vec_len a.runs;
    } };

    ghost invariant = { λ a. AreRuns a.runs.items
        × (a.end ≡ length (samples_of a.runs.items))
        × (a.is_high ≡ (levels_behind free_bus a.runs.items).scl) };
}

/// Appends a run, for which there is room.
#[inline(always)]
fn begin_run(runs: &mut Vec<Run>, sample: Sample, end: u64)
    requires { vec_len runs.old < vec_capacity runs.old }
    ensures items { runs.new.items
        ≡ runs.old.items ++ record { sample = sample; end = end } ∷ [] }
    ensures longer { vec_len runs.new ≡ vec_len runs.old + 1 }
    ensures capacity { vec_capacity runs.new ≡ vec_capacity runs.old }
{
    runs.push_reserved(Run { sample, end });
}

/// Appends equal samples up to this number of samples in all: to the last run where the sample is
/// the same.
#[inline(always)]
fn push_up_to(runs: &mut Vec<Run>, sample: Sample, end: u64)
    requires runs { AreRuns runs.old.items }
    requires room { vec_len runs.old < vec_capacity runs.old }
    requires more { length (samples_of runs.old.items) < end }
    requires few { end ≤ most_samples }
    ensures runs { AreRuns runs.new.items }
    ensures samples { samples_of runs.new.items ≡ samples_of runs.old.items
        ++ replicate (end - length (samples_of runs.old.items)) sample }
    ensures last { (levels : Sample) → levels_behind levels runs.new.items ≡ sample }
    ensures longer { vec_len runs.new ≤ vec_len runs.old + 1 }
    ensures capacity { vec_capacity runs.new ≡ vec_capacity runs.old }
{
    let Some(last) = runs.last_mut() else {
        begin_run(runs, sample, end);
        return;
    };
    if last.sample == sample {
        last.end = end;
    } else {
        begin_run(runs, sample, end);
    }
}

/// The same for a sample with SCL low, which begins a run where SCL was high.
#[inline(always)]
fn push_low(runs: &mut Vec<Run>, is_high: bool, low: Sample, end: u64)
    requires high { is_high ≡ (levels_behind free_bus runs.old.items).scl }
    requires low { low.scl ≡ false }
    requires runs { AreRuns runs.old.items }
    requires room { vec_len runs.old < vec_capacity runs.old }
    requires more { length (samples_of runs.old.items) < end }
    requires few { end ≤ most_samples }
    ensures runs { AreRuns runs.new.items }
    ensures samples { samples_of runs.new.items ≡ samples_of runs.old.items
        ++ replicate (end - length (samples_of runs.old.items)) low }
    ensures last { (levels : Sample) → levels_behind levels runs.new.items ≡ low }
    ensures longer { vec_len runs.new ≤ vec_len runs.old + 1 }
    ensures capacity { vec_capacity runs.new ≡ vec_capacity runs.old }
{
    if is_high {
        begin_run(runs, low, end);
    } else {
        push_up_to(runs, low, end);
    }
}

impl Runs {
    /// Takes the samples out, to append to them, with room for so many runs more. Fails only for
    /// want of memory, and then the list is unchanged.
    pub fn take_with_room(&mut self, room: usize) -> Result<Appending, AllocError>
        ensures samples { IfOk result (λ taken. taken.samples ≡ self.old) }
        ensures room { IfOk result (λ taken. room ≤ taken.room) }
        ensures taken { OnOk result (self.new ≡ []) }
        ensures err { OnErr result (self.new ≡ self.old) }
    {
        self.runs.reserve(room)?;
        let end = end_of(&self.runs);
        let idle = Sample {
            scl: true,
            sda: true,
            alert: true,
        };
        let is_high = levels_behind(idle, &self.runs).scl;
        let alloc = *self.runs.allocator();
        let runs = mem::replace(&mut self.runs, Vec::new(alloc));
        Ok(Appending { runs, end, is_high })
    }
}

impl Appending {
    /// Appends so many equal samples, at least one.
    #[inline(always)]
    pub fn push(&mut self, sample: Sample, count: u64)
        requires some { 0 < count }
        requires few { length self.old.samples + count ≤ most_samples }
        requires room { 0 < self.old.room }
        ensures samples { self.new.samples ≡ self.old.samples ++ replicate count sample }
        ensures room { self.old.room ≤ self.new.room + 1 }
    {
        let end = self.end + count;
        push_up_to(&mut self.runs, sample, end);
        self.end = end;
        self.is_high = sample.scl;
    }

    /// Appends one clock: so many samples with SCL low, at least one, and then one with it high,
    /// with the same levels of SDA and SMBALERT# throughout.
    #[inline(always)]
    pub fn push_clock(&mut self, sda: bool, alert: bool, low: u64)
        requires some { 0 < low }
        requires few { length self.old.samples + low + 1 ≤ most_samples }
        requires room { 1 < self.old.room }
        ensures samples { self.new.samples ≡ self.old.samples
            ++ (replicate low (record { scl = false; sda = sda; alert = alert })
            ++ record { scl = true; sda = sda; alert = alert } ∷ []) }
        ensures room { self.old.room ≤ self.new.room + 2 }
    {
        let end = self.end + low;
        let low = Sample {
            scl: false,
            sda,
            alert,
        };
        push_low(&mut self.runs, self.is_high, low, end);
        // It differs from the one before, so it begins a run.
        let high = Sample {
            scl: true,
            sda,
            alert,
        };
        let end = end + 1;
        begin_run(&mut self.runs, high, end);
        self.end = end;
        self.is_high = true;
    }

    /// The samples.
    #[inline(always)]
    pub fn into_runs(self) -> Runs
        ensures { result ≡ self.samples }
    {
        Runs { runs: self.runs }
    }
}
