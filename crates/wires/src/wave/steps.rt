ghost use Rattle.std.specs.Prelude.{◌≡◌, ◌≤◌, ◌+◌, ◌++◌, All, IfOk, OnOk, string_bytes};
ghost use Rattle.wires.specs.Runs.{most_samples};
ghost use Rattle.wires.specs.Marks.{marks_text};
ghost use Rattle.wires.specs.Drawing.{run_marks, step_marks, levels_behind};

use crate::lines::Sample;
use crate::runs::Run;
use crate::wave::drawing::{place_line, push_changes, push_stamp};
use std::alloc::{AllocError, Global};

/// Appends the lines of runs that follow so many ticks and these levels.
fn push_runs(
    alloc: Global,
    text: &mut String,
    start: u64,
    levels: Sample,
    runs: &[Run],
) -> Result<(), AllocError>
    requires { All (λ run. start + run.end ≤ most_samples) runs.now }
    ensures { OnOk result (string_bytes text.new
        ≡ string_bytes text.old ++ marks_text (run_marks start levels runs.now)) }
{
    let mut before = levels;
    for run in runs {
        push_changes(text, before, run.sample)?;
        push_stamp(alloc, text, start + run.end)?;
        before = run.sample;
    }
    Ok(())
}

/// The lines of a step that follows so many ticks and these levels.
pub(crate) fn step_text(
    alloc: Global,
    place: usize,
    start: u64,
    levels: Sample,
    runs: &[Run],
) -> Result<String, AllocError>
    requires { All (λ run. start + run.end ≤ most_samples) runs.now }
    ensures { IfOk result (λ text. string_bytes text
        ≡ marks_text (step_marks start levels place runs.now)) }
{
    let mut text = place_line(alloc, place)?;
    push_runs(alloc, &mut text, start, levels, runs)?;
    Ok(text)
}

/// The levels in the last of these runs, and without one those before.
pub(crate) fn levels_behind(levels: Sample, runs: &[Run]) -> Sample
    ensures { result ≡ levels_behind levels runs.now }
{
    match runs.last() {
        Some(last) => last.sample,
        None => levels,
    }
}
