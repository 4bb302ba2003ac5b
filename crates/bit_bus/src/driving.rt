ghost use Rattle.std.specs.Prelude.{◌≡◌, ◌≤◌, ◌<◌, ◌+◌, ◌*◌, ◌^◌, ◌∷◌, ◌++◌, [], Bool, true};
ghost use Rattle.std.specs.Prelude.{IfOk, OnOk};
ghost use Rattle.std.specs.Prelude.{length};
ghost use Rattle.wires.specs.Events.{events_of};
ghost use Rattle.wires.specs.Runs.{most_samples};
ghost use Rattle.bit_bus.specs.Planned.{IsPlan, planned};
ghost use Rattle.bit_bus.specs.Levels.{level, idle, low_run, whole_levels, cut_levels};
ghost use Rattle.bit_bus.specs.Levels.{slot_levels, levels, first_cut, is_cut};
ghost use Rattle.bit_bus.specs.Levels.{EndsHigh};
ghost use Rattle.bit_bus.specs.SampleCounts.{most_driven};
ghost use Rattle.bit_bus.specs.Word.{event_word};

use crate::plan::{Plan, Slot, hold_at};
use std::alloc::{AllocError, Global};
use wires::{Appending, Runs, Sample};

/// The samples of a frame, one a tick of 5 µs, and the slot in which it was cut, if any.
#[derive(Debug, Drop)]
pub struct Driven {
    pub samples: Runs,
    pub cut: Option<usize>,
}

/// Levels of SDA.
const HIGH: bool = true;

const LOW: bool = false;

/// The longest low period of the clock, in ticks, that isn't a timeout: 25 ms (SMBus 3.2,
/// t_TIMEOUT).
pub const LONGEST_LOW: u16 = 5000;

/// Whether a slot with this hold is cut: its low period, which has one tick more, is a timeout.
pub fn is_cut(hold: u16) -> bool
    ensures { result ≡ is_cut hold }
{
    hold >= LONGEST_LOW
}

/// One sample with SCL high.
#[inline(always)]
fn push_high(levels: &mut Appending, sda: bool, alert: bool)
    requires few { length levels.old.samples < most_samples }
    requires room { 0 < levels.old.room }
    ensures high { levels.new.samples ≡ levels.old.samples ++ level alert true sda ∷ [] }
    ensures room { levels.old.room ≤ levels.new.room + 1 }
{
    let high = Sample {
        scl: true,
        sda,
        alert,
    };
    levels.push(high, 1);
}

/// So many samples with SCL low.
fn push_low(levels: &mut Appending, sda: bool, alert: bool, ticks: u16)
    requires some { 0 < ticks }
    requires few { length levels.old.samples + ticks ≤ most_samples }
    requires room { 0 < levels.old.room }
    ensures low { levels.new.samples ≡ levels.old.samples ++ low_run alert sda ticks }
    ensures count { length levels.new.samples ≡ length levels.old.samples + ticks }
    ensures room { levels.old.room ≤ levels.new.room + 1 }
{
    let low = Sample {
        scl: false,
        sda,
        alert,
    };
    levels.push(low, u64::from(ticks));
}

/// The low period of a slot that isn't cut, and the sample with SCL high behind it.
#[inline(always)]
fn push_clock(levels: &mut Appending, sda: bool, alert: bool, hold: u16)
    requires few { length levels.old.samples + 2 + hold ≤ most_samples }
    requires room { 1 < levels.old.room }
    ensures clock { levels.new.samples ≡ levels.old.samples
        ++ (low_run alert sda (hold + 1) ++ level alert true sda ∷ []) }
    ensures count { length levels.new.samples ≡ length levels.old.samples + 2 + hold }
    ensures room { levels.old.room ≤ levels.new.room + 2 }
{
    levels.push_clock(sda, alert, u64::from(hold) + 1);
}

#[inline(always)]
fn push_whole(levels: &mut Appending, slot: Slot, hold: u16, alert: bool)
    requires few { length levels.old.samples + 3 + hold ≤ most_samples }
    requires room { 2 < levels.old.room }
    ensures samples { levels.new.samples ≡ levels.old.samples ++ whole_levels alert slot hold }
    ensures count { length levels.new.samples ≤ length levels.old.samples + 3 + hold }
    ensures room { levels.old.room ≤ levels.new.room + 3 }
{
    match slot {
        Slot::Bit(sda) => push_clock(levels, sda, alert, hold),
        Slot::Again => {
            push_clock(levels, HIGH, alert, hold);
            push_high(levels, LOW, alert);
        }
        Slot::End => {
            push_clock(levels, LOW, alert, hold);
            push_high(levels, HIGH, alert);
        }
    }
}

#[inline(always)]
fn push_cut(levels: &mut Appending, slot: Slot, hold: u16, alert: bool)
    requires cut { 5000 ≤ hold }
    requires few { length levels.old.samples + 3 + hold ≤ most_samples }
    requires room { 3 < levels.old.room }
    ensures samples { levels.new.samples ≡ levels.old.samples ++ cut_levels alert slot hold }
    ensures room { levels.old.room ≤ levels.new.room + 4 }
{
    let sda = match slot {
        Slot::Bit(sda) => sda,
        Slot::Again => HIGH,
        Slot::End => LOW,
    };
    push_low(levels, sda, alert, LONGEST_LOW);
    push_low(levels, LOW, alert, hold - (LONGEST_LOW - 1));
    push_high(levels, LOW, alert);
    push_high(levels, HIGH, alert);
}

/// Appends the levels of bits that aren't held, four at a time, and gives the slots that are left.
#[inline(always)]
fn push_bits<'a>(levels: &mut Appending, slots: &'a [Slot], alert: bool) -> &'a [Slot]
    requires few { length levels.old.samples + 3 * length slots.now ≤ most_samples }
    requires room { 3 * length slots.now < levels.old.room }
    ensures samples { levels.new.samples ++ slot_levels alert (planned result.now [])
        ≡ levels.old.samples ++ slot_levels alert (planned slots.now []) }
    ensures few { length levels.new.samples + 3 * length result.now ≤ most_samples }
    ensures room { 3 * length result.now < levels.new.room }
    ensures fewer { length result.now ≤ length slots.now }
{
    let mut rest = slots;
    while let [
        Slot::Bit(first),
        Slot::Bit(second),
        Slot::Bit(third),
        Slot::Bit(fourth),
        later @ ..,
    ] = rest
    {
        push_clock(levels, *first, alert, 0);
        push_clock(levels, *second, alert, 0);
        push_clock(levels, *third, alert, 0);
        push_clock(levels, *fourth, alert, 0);
        rest = later;
    }
    rest
}

/// Appends the levels of slots that aren't held.
#[inline(always)]
fn push_unheld(levels: &mut Appending, slots: &[Slot], alert: bool)
    requires few { length levels.old.samples + 3 * length slots.now ≤ most_samples }
    requires room { 3 * length slots.now < levels.old.room }
    ensures { levels.new.samples
        ≡ levels.old.samples ++ slot_levels alert (planned slots.now []) }
{
    let mut rest = push_bits(levels, slots, alert);
    while let [slot, later @ ..] = rest {
        push_whole(levels, *slot, 0, alert);
        rest = push_bits(levels, later, alert);
    }
}

/// Appends the levels of slots with these holds, and tells the slot in which they are cut, if any.
/// Each takes at most three runs, and one that is cut four.
#[inline(always)]
fn push_slots(levels: &mut Appending, slots: &[Slot], holds: &[u16], alert: bool) -> Option<usize>
    requires valid { IsPlan (planned slots.now holds.now) }
    requires few { length levels.old.samples ≤ 2 ^ 39 }
    requires room { 3 * length slots.now < levels.old.room }
    ensures samples { levels.new.samples
        ≡ levels.old.samples ++ slot_levels alert (planned slots.now holds.now) }
    ensures cut { result ≡ first_cut (planned slots.now holds.now) }
{
    for (place, slot) in slots.iter().enumerate() {
        let hold = hold_at(holds, place);
        if is_cut(hold) {
            push_cut(levels, *slot, hold, alert);
            return Some(place);
        }
        push_whole(levels, *slot, hold, alert);
    }
    None
}

/// Drives SCL and SDA through a plan behind samples that are there, as `drive` does, and tells the
/// slot in which it was cut, if any. Fewer than 2^39 samples may be there. Fails only for want of
/// memory, and then the samples are of no more use.
#[inline(never)]
pub fn drive_onto(samples: &mut Runs, plan: &Plan, alert: bool) -> Result<Option<usize>, AllocError>
    requires { length samples.old < 2 ^ 39 }
    ensures samples { OnOk result (samples.new ≡ samples.old ++ levels alert plan.now) }
    ensures cut { IfOk result (λ cut. cut ≡ first_cut plan.now) }
    ensures valid { IsPlan plan.now }
{
    let (slots, holds) = plan.parts();
    // Room for all runs is made first, so that nothing fails behind this.
    let mut levels = samples.take_with_room(3 * slots.len() + 2)?;
    push_high(&mut levels, LOW, alert);
    // Most frames aren't held, and those are driven faster.
    let cut = if holds.is_empty() {
        push_unheld(&mut levels, slots, alert);
        None
    } else {
        push_slots(&mut levels, slots, holds, alert)
    };
    *samples = levels.into_runs();
    Ok(cut)
}

/// Drives SCL and SDA through a plan, with this level of the alert line throughout: a START, and
/// then the slots in order. Where a slot's low period is over 5000 ticks it is cut by a STOP, and
/// nothing follows. Fails only for want of memory.
pub fn drive(alloc: Global, plan: &Plan, alert: bool) -> Result<Driven, AllocError>
    ensures samples { IfOk result (λ driven. driven.samples ≡ levels alert plan.now) }
    ensures cut { IfOk result (λ driven. driven.cut ≡ first_cut plan.now) }
    // After an idle sample they are read as the event word of the slots.
    ensures word { IfOk result (λ driven. (before : Bool)
        → events_of (idle before ∷ driven.samples) ≡ event_word plan.now) }
    ensures free { IfOk result (λ driven. EndsHigh driven.samples) }
    ensures few { IfOk result (λ driven. length driven.samples ≤ most_driven) }
{
    let mut samples = Runs::new(alloc);
    let cut = drive_onto(&mut samples, plan, alert)?;
    Ok(Driven { samples, cut })
}
