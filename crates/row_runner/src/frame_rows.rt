//! Rows of frames: messages as they are seen on the lines, events that are frames or none, plans.

use crate::cells::{bytes, or_dash, shown, word};
use crate::row::{Flaw, Outcome, Row};
use crate::step_cells::exchange;
use bit_bus::{Plan, Slot, drive, is_cut};
use smbus::{
    Answer, ObserveFault, SmbusFault, carries_code, form_named, frame_slots, frame_text,
    is_numbered, observe, only_frame,
};
use std::alloc::{AllocError, Global};
use texts::{ReadError, words_of};
use wires::{Event, Runs, Sample, arbitrate, events, events_of, wired};

/// The events of letters: S, 0 or 1 for SDA where SCL rises, P.
fn events_in(alloc: Global, letters: &str) -> Outcome<Vec<Event>> {
    let mut events = Vec::new(alloc);
    for letter in letters.chars() {
        events.push(match letter {
            'S' => Event::Start,
            '0' => Event::Rise(false),
            '1' => Event::Rise(true),
            'P' => Event::Stop,
            _ => return Err(Flaw::Cell("event").error()),
        })?;
    }
    Ok(events)
}

/// The texts of frames, one after the other, or why there are none.
fn observed(alloc: Global, events: &[Event]) -> Outcome {
    let frames = match observe(alloc, events) {
        Ok(frames) => frames,
        Err(ObserveFault::Memory) => return Err(ReadError::Memory),
        Err(fault) => return shown(alloc, fault),
    };
    let mut texts = String::new(alloc);
    for frame in &frames {
        texts.push_str(&frame_text(alloc, frame)?)?;
    }
    Ok(texts)
}

/// An idle sample, and samples after it, one a tick.
fn ticks(alloc: Global, runs: &Runs) -> Result<Vec<Sample>, AllocError> {
    let mut samples = Vec::new(alloc);
    samples.push(wired(&[]))?;
    for place in 0..runs.total() {
        if let Some(sample) = runs.sample_at(place) {
            samples.push(sample)?;
        }
    }
    Ok(samples)
}

/// The frames of runs after an idle sample. Events by ticks have the START before those by runs.
fn seen(alloc: Global, runs: &Runs) -> Outcome {
    let events = events(alloc, &ticks(alloc, runs)?)?;
    if events.get(1..) == Some(events_of(alloc, runs)?.as_slice()) {
        observed(alloc, &events)
    } else {
        Err(Flaw::Cell("frame with the same events").error())
    }
}

/// The frames that are seen of some slots, the number of samples, and the slot that is cut.
fn driven(alloc: Global, slots: Vec<Slot>, holds: Vec<u16>) -> Outcome {
    let plan = Plan::new(slots, holds).ok_or(Flaw::Cell("plan").error())?;
    let driven = drive(alloc, &plan, true)?;
    let text = seen(alloc, &driven.samples)?;
    let (total, cut) = (driven.samples.total(), or_dash(alloc, driven.cut)?);
    Ok(format!(in alloc; "{text} in {total}, cut {cut}")?)
}

/// `MESSAGE | FRAME in SAMPLES`: what is seen of a message, or why it has no frame.
fn frame_row(alloc: Global, line: &str) -> Outcome {
    let exchange = exchange(alloc, line)?;
    match frame_slots(alloc, &exchange.message, &exchange.answer) {
        Ok(slots) => driven(alloc, slots, exchange.answer.holds.clone()?),
        Err(SmbusFault::Memory) => Err(ReadError::Memory),
        Err(fault) => shown(alloc, fault),
    }
}

/// `REFUSED | COUNT | IS_NUMBERED`: whether a byte that is refused, if any, is one of so many.
fn numbered_row(alloc: Global, (refused, count): (&str, &str)) -> Outcome {
    let refuse = match refused {
        "-" => None,
        _ => Some(word(refused)?),
    };
    shown(alloc, is_numbered(refuse, usize::from(word(count)?)))
}

/// `BITS | HOLDS | IS_PLAN`: whether so many bits and an end with these holds are a plan.
fn plan_row(alloc: Global, (bits, holds): (&str, &str)) -> Outcome {
    let mut slots = Vec::new(alloc);
    slots.resize(usize::from(word(bits)?), Slot::Bit(true))?;
    slots.push(Slot::End)?;
    let mut ticks = Vec::new(alloc);
    for hold in words_of(alloc, holds)? {
        ticks.push(word(hold)?)?;
    }
    shown(alloc, Plan::new(slots, ticks).is_some())
}

/// What a row of one cell comes out as.
fn of_one(alloc: Global, kind: &str, cell: &str) -> Outcome {
    match kind {
        "frame" => frame_row(alloc, cell),
        "observed" => observed(alloc, &events_in(alloc, cell)?),
        "only_frame" => shown(
            alloc,
            only_frame(alloc, &events_in(alloc, cell)?)?.is_some(),
        ),
        "form" => or_dash(alloc, form_named(cell)),
        "code" => shown(
            alloc,
            carries_code(form_named(cell).ok_or(Flaw::Cell("form").error())?),
        ),
        "cut" => shown(alloc, is_cut(word(cell)?)),
        "arbitrated" => or_dash(alloc, arbitrate(alloc, &bytes(alloc, cell)?)?),
        _ => Err(Flaw::Kind.error()),
    }
}

/// What a row of some kind comes out as.
pub(crate) fn outcome(alloc: Global, kind: &str, given: &Row) -> Outcome {
    match kind {
        "silence" => shown(alloc, Answer::silent(alloc)),
        "numbered" => numbered_row(alloc, given.two()?),
        "plan" => plan_row(alloc, given.two()?),
        _ => of_one(alloc, kind, given.one()?),
    }
}
