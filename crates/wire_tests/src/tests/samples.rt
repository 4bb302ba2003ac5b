//! Levels, runs of levels, events, waveforms. Arbitration is tested in `examples/rows/wires.rows`.

use super::expected::{holds, made, same};
use std::alloc::Global;
use std::process::Abort;
use std::test::*;
use wires::{Event, Runs, Sample, event_between, events, events_of, wired};

pub(super) fn lines(scl: bool, sda: bool) -> Sample {
    let alert = true;
    Sample { scl, sda, alert }
}

pub(super) const IDLE: Sample = Sample {
    scl: true,
    sda: true,
    alert: true,
};

pub(super) const LOW: Sample = Sample {
    scl: false,
    sda: false,
    alert: true,
};

#[test]
fn a_line_is_low_where_one_pulls(rt: HostRuntime) {
    same(&rt, wired(&[]), IDLE);
    let pulled = wired(&[lines(false, true), IDLE, lines(true, false)]);
    same(&rt, pulled, LOW);
    let alert = false;
    let alerted = Sample { alert, ..IDLE };
    same(&rt, wired(&[IDLE, alerted]), alerted);
}

// A frame that is cut in its first slot has these events.
#[test]
fn start_and_stop(rt: HostRuntime) {
    let (start, clocked) = (lines(true, false), lines(false, true));
    let samples = [IDLE, start, clocked, LOW, start, IDLE];
    let wanted = [Event::Start, Event::Rise(false), Event::Stop];
    holds(&rt, events(rt.alloc(), &samples), &wanted);
    same(&rt, event_between(IDLE, start), Some(Event::Start));
    same(&rt, event_between(IDLE, LOW), None);
}

/// A sample, and for how many ticks it holds.
pub(super) type Ticks = (Sample, u64);

/// A few short runs, one after the other.
pub(super) fn runs_of(rt: &impl Abort, alloc: Global, parts: &[Ticks]) -> Runs {
    let mut runs = Runs::new(alloc);
    for (sample, ticks) in parts {
        assert!(rt; runs.total().max(*ticks) < 1000);
        made(rt, runs.push(*sample, *ticks));
    }
    runs
}

/// Tries the number of samples and of runs, and the events.
fn compare(rt: &impl Abort, alloc: Global, runs: &Runs, counts: (u64, usize), want: &[Event]) {
    same(rt, (runs.total(), runs.runs().len()), counts);
    holds(rt, events_of(alloc, runs), want);
}

/// SCL low for ten ticks between idle ones.
static HELD_LOW: [Ticks; 5] = [(IDLE, 3), (LOW, 10), (IDLE, 0), (IDLE, 1), (IDLE, 2)];

/// Places, and the samples that are held low there.
static HELD_SAMPLES: [(u64, Option<Sample>); 7] = [
    (0, Some(IDLE)),
    (2, Some(IDLE)),
    (3, Some(LOW)),
    (12, Some(LOW)),
    (13, Some(IDLE)),
    (15, Some(IDLE)),
    (16, None),
];

#[test]
fn equal_samples_are_one_run(rt: HostRuntime) {
    let samples = runs_of(&rt, rt.alloc(), &HELD_LOW);
    compare(&rt, rt.alloc(), &samples, (16, 3), &[Event::Rise(true)]);
    for (place, want) in &HELD_SAMPLES {
        same(&rt, (*place, samples.sample_at(*place)), (*place, *want));
    }
}

/// A START and a bit after idle samples, appended where there is room for them.
fn appended(rt: &impl Abort, alloc: Global) -> Runs {
    let mut idle = runs_of(rt, alloc, &[(IDLE, 3)]);
    assert!(rt; idle.total() < 1000);
    let Ok(mut levels) = idle.take_with_room(3) else {
        panic!(rt; "no memory");
    };
    levels.push(lines(true, false), 1);
    levels.push_clock(true, true, 2);
    levels.into_runs()
}

#[test]
fn a_clock_is_appended(rt: HostRuntime) {
    let samples = appended(&rt, rt.alloc());
    let want = [Event::Start, Event::Rise(true)];
    compare(&rt, rt.alloc(), &samples, (7, 4), &want);
}

#[test]
fn runs_are_joined(rt: HostRuntime) {
    let alloc = rt.alloc();
    let first = runs_of(&rt, alloc, &[(lines(true, false), 1), (IDLE, 1)]);
    let later = runs_of(&rt, alloc, &[(IDLE, 4)]);
    assert!(rt; first.total().max(later.total()) < 1000);
    let both = made(&rt, Runs::joined(alloc, &first, &later));
    compare(&rt, alloc, &both, (6, 2), &[Event::Stop]);
}

#[test]
fn new_runs_have_no_samples(rt: HostRuntime) {
    let runs = Runs::new(rt.alloc());
    same(&rt, (runs.total(), runs.sample_at(0)), (0, None));
}

#[test]
fn cleared_runs_have_no_samples(rt: HostRuntime) {
    let mut samples = runs_of(&rt, rt.alloc(), &HELD_LOW);
    samples.clear();
    same(&rt, (samples.total(), samples.runs().len()), (0, 0));
    made(&rt, samples.push(IDLE, 2));
    let last = samples.sample_at(1);
    same(&rt, (samples.total(), last), (2, Some(IDLE)));
}
