//! The levels of the lines over a run as a Value Change Dump (IEEE 1364-2005, section 18), the
//! file of waveforms that viewers open.

mod drawing;
mod steps;

ghost use Rattle.std.specs.Prelude.{◌≡◌, ◌≤◌, ◌+◌, [], ◌∷◌, ◌++◌, List, length, IfOk, OnOk, OnErr};
ghost use Rattle.std.specs.Prelude.{string_bytes};
ghost use Rattle.wires.specs.Runs.{most_samples};
ghost use Rattle.wires.specs.Waves.{Step, IsWave};

use crate::lines::Sample;
use crate::runs::Runs;
use crate::wave::drawing::header;
pub(crate) use crate::wave::steps::levels_behind;
use crate::wave::steps::step_text;
use std::alloc::{AllocError, Global};
use std::marker::Model;

/// The levels of the lines over the steps of a run so far, as the text of a Value Change Dump
/// (IEEE 1364-2005, 18.2). Its times are in microseconds, and a variable of its own tells the
/// place of each step.
#[derive(Debug, Drop)]
pub struct Wave {
    text: String,
    ticks: u64,
    levels: Sample,
}

impl Model for Wave {
    ghost use Rattle.std.specs.Prelude.{string_bytes};
    ghost use Rattle.wires.specs.Waves.{Drawn};

    ghost Value = { Drawn };

    ghost view = { λ w.
        record { text = string_bytes w.text; ticks = w.ticks; levels = w.levels } };
}

impl Wave {
    /// The waveform of no steps: all lines are high, and no tick is over. Fails only for want of
    /// memory.
    pub fn new(alloc: Global) -> Result<Wave, AllocError>
        ensures wave { IfOk result (λ wave. IsWave [] wave) }
        ensures ticks { IfOk result (λ wave. wave.ticks ≡ 0) }
    {
        Ok(Wave {
            text: header(alloc)?,
            ticks: 0,
            levels: Sample {
                scl: true,
                sda: true,
                alert: true,
            },
        })
    }

    /// Appends one step: its place in the program, and the levels in each of its ticks. Fails only
    /// for want of memory, and then the waveform is unchanged.
    pub fn push(&mut self, place: usize, samples: &Runs) -> Result<(), AllocError>
        requires { self.old.ticks + length samples.now ≤ most_samples }
        ensures ok { OnOk result ((steps : List Step) → IsWave steps self.old
            → IsWave (steps ++ (place, samples.now) ∷ []) self.new) }
        ensures ticks { OnOk result (self.new.ticks ≡ self.old.ticks + length samples.now) }
        ensures err { OnErr result (self.new ≡ self.old) }
    {
        // The step's text is made apart, so that where memory is short nothing of it is appended.
        let alloc = *self.text.allocator();
        let runs = samples.runs();
        let step = step_text(alloc, place, self.ticks, self.levels, runs)?;
        self.text.push_str(&step)?;
        self.levels = levels_behind(self.levels, runs);
        self.ticks += samples.total();
        Ok(())
    }

    /// The text of the dump.
    pub fn into_text(self) -> String
        ensures { string_bytes result ≡ self.text }
    {
        self.text
    }
}
