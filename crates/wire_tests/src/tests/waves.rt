//! Waveforms: the whole text of a dump, step by step.

use super::expected::{made, same};
use super::samples::{IDLE, LOW, Ticks, lines, runs_of};
use std::alloc::Global;
use std::process::Abort;
use std::test::*;
use wires::{Sample, Wave};

/// The declarations, and the levels at first.
const HEADER: &str = "$timescale 1 us $end
$scope module bus $end
$var wire 1 ! SCL $end
$var wire 1 \" SDA $end
$var wire 1 # SMBALERT $end
$var real 64 $ place $end
$upscope $end
$enddefinitions $end
#0
$dumpvars
1!
1\"
1#
$end
";

/// Tries what is dumped behind the header.
fn draws(rt: &impl Abort, wave: Wave, steps: &str) {
    same(rt, wave.into_text().strip_prefix(HEADER), Some(steps));
}

#[test]
fn a_dump_of_no_steps(rt: HostRuntime) {
    draws(&rt, made(&rt, Wave::new(rt.alloc())), "");
}

/// The place of a step, and its samples.
type Step<'a> = (usize, &'a [Ticks]);

/// Tries the dump of two short steps.
fn draws_both(rt: &impl Abort, alloc: Global, first: Step<'_>, later: Step<'_>, steps: &str) {
    let before = runs_of(rt, alloc, first.1);
    let after = runs_of(rt, alloc, later.1);
    assert!(rt; before.total().max(after.total()) < 1000);
    let Ok(mut wave) = Wave::new(alloc) else {
        panic!(rt; "no memory");
    };
    let Ok(()) = wave.push(first.0, &before) else {
        panic!(rt; "no memory");
    };
    made(rt, wave.push(later.0, &after));
    draws(rt, wave, steps);
}

/// A START, SCL low, and an alert meanwhile.
#[test]
fn changes_and_stamps(rt: HostRuntime) {
    let alert = false;
    let alerted = Sample { alert, ..LOW };
    let start = [(IDLE, 1), (lines(true, false), 5), (alerted, 2)];
    let steps = "r0 $\n#15\nr7 $\n#20\n0\"\n#45\n0!\n0#\n#55\n";
    draws_both(&rt, rt.alloc(), (0, &[(IDLE, 3)]), (7, &start), steps);
}

/// SCL alone low.
#[test]
fn levels_are_kept_between_steps(rt: HostRuntime) {
    let low = [(lines(false, true), 2)];
    let steps = "r7 $\n0!\n#10\nr8 $\n#20\n";
    draws_both(&rt, rt.alloc(), (7, &low), (8, &low), steps);
}
