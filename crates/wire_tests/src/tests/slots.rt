//! What is driven onto the lines. Limits of plans are tested in `examples/rows/bit_bus.rows`.

use super::expected::{found, holds, made, same};
use bit_bus::{Plan, Slot, drive, drive_onto};
use std::alloc::Global;
use std::process::Abort;
use std::test::*;
use wires::{Event, Runs, Sample, events_of};

fn plan_of(rt: &impl Abort, alloc: Global, slots: &[Slot], holds: &[u16]) -> Option<Plan> {
    let slots = made(rt, slots.to_vec(alloc));
    Plan::new(slots, made(rt, holds.to_vec(alloc)))
}

/// Slots that aren't those of a frame, which ends once.
static NO_PLANS: [&[Slot]; 3] = [&[], &[Slot::Again], &[Slot::End, Slot::End]];

#[test]
fn plans_end_once(rt: HostRuntime) {
    for slots in &NO_PLANS {
        let plan = plan_of(&rt, rt.alloc(), slots, &[]);
        same(&rt, plan.is_some(), false);
    }
}

const HIGH: Sample = Sample {
    scl: true,
    sda: true,
    alert: false,
};

/// The hold of a STOP, the number of samples, and the slot that is cut.
type Held = (u16, u64, Option<usize>);

static HOLDS: [Held; 4] = [
    (0, 4, None),
    (4999, 5003, None),
    (5000, 5004, Some(0)),
    (6999, 7003, Some(0)),
];

/// An idle sample and then a frame without bytes whose STOP is held so long.
fn stop_held(rt: &impl Abort, alloc: Global, (hold, _, cut): Held) -> Runs {
    let plan = found(rt, plan_of(rt, alloc, &[Slot::End], &[hold]));
    let driven = made(rt, drive(alloc, &plan, false));
    same(rt, (hold, driven.cut), (hold, cut));
    let mut before = Runs::new(alloc);
    made(rt, before.push(HIGH, 1));
    assert!(rt; before.total().max(driven.samples.total()) < 10_000);
    made(rt, Runs::joined(alloc, &before, &driven.samples))
}

static BARE: [Event; 3] = [Event::Start, Event::Rise(false), Event::Stop];

/// Tries the events of a frame without bytes, and that all is high after it.
fn is_bare(rt: &impl Abort, alloc: Global, samples: &Runs, count: u64) {
    let last = (samples.total().checked_sub(1), samples.sample_at(count));
    same(rt, last, (Some(count), Some(HIGH)));
    holds(rt, events_of(alloc, samples), &BARE);
    for run in samples.runs() {
        assert!(rt; !run.sample.alert);
    }
}

#[test]
fn at_the_timeout(rt: HostRuntime) {
    for held in &HOLDS {
        let samples = stop_held(&rt, rt.alloc(), *held);
        is_bare(&rt, rt.alloc(), &samples, held.1);
    }
}

/// Nine bits and a STOP take 22 samples.
#[test]
fn a_byte_is_driven_onto_samples(rt: HostRuntime) {
    let bit = Slot::Bit(true);
    let slots = [bit, bit, bit, bit, bit, bit, bit, bit, bit, Slot::End];
    let plan = found(&rt, plan_of(&rt, rt.alloc(), &slots, &[]));
    let mut samples = Runs::new(rt.alloc());
    let cut = made(&rt, drive_onto(&mut samples, &plan, false));
    same(&rt, (samples.total(), cut), (22, None));
}
