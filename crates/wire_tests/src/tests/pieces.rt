//! Frames of a stream of events that comes in pieces.

use super::expected::{found, made, same};
use bit_bus::{Plan, drive};
use bundles::{exchange_in, read_bundle};
use smbus::{Frame, ObserveFault, Observer, frame_slots, frame_text};
use std::alloc::Global;
use std::process::Abort;
use std::test::*;
use wires::{Event, events_of};

/// A Read Word of STATUS_WORD that returns 0840h.
const STATUS: &str = "%frame\n%message\nform=readword address=40 code=79 value=0840\n";

/// Its frame as it is printed.
const STATUS_FRAME: &str = "S 80A 79A Sr 81A 40A 08N P";

/// The events of this frame, of which the START comes before all samples.
fn status_events(rt: &impl Abort, alloc: Global) -> Vec<Event> {
    let bundle = made(rt, read_bundle(alloc, STATUS));
    let asked = made(rt, exchange_in(alloc, found(rt, bundle.sections.first())));
    let slots = made(rt, frame_slots(alloc, &asked.message, &asked.answer));
    let plan = found(rt, Plan::new(slots, Vec::new(alloc)));
    let driven = made(rt, drive(alloc, &plan, true));
    let mut events = made(rt, vec![in alloc; Event::Start]);
    let later = made(rt, events_of(alloc, &driven.samples));
    made(rt, events.extend_from_slice(&later));
    events
}

fn texts_of(rt: &impl Abort, alloc: Global, frames: &[Frame]) -> String {
    let mut texts = String::new(alloc);
    for frame in frames {
        made(rt, texts.push_str(&made(rt, frame_text(alloc, frame))));
    }
    texts
}

/// A piece, and the texts of the frames that end in it or its fault.
type Fed<'a> = (&'a [Event], Result<&'a str, ObserveFault>);

/// Feeds a short piece of a short stream.
fn feeds(rt: &impl Abort, alloc: Global, observer: &mut Observer, (piece, want): Fed<'_>) {
    assert!(rt; observer.fed().max(piece.len() as u64) < 1000);
    match observer.feed(piece) {
        Ok(frames) => same(rt, Ok(texts_of(rt, alloc, &frames).as_str()), want),
        Err(fault) => same(rt, Err(fault), want),
    }
}

/// How many events are taken, and whether the stream may end after them.
type Place = (u64, Result<(), ObserveFault>);

fn is_at(rt: &impl Abort, observer: &Observer, place: Place) {
    same(rt, (observer.fed(), observer.finish()), place);
}

/// Feeds the events of an open frame one at a time.
fn none_ends(rt: &impl Abort, alloc: Global, observer: &mut Observer, events: &[Event]) {
    for event in events {
        feeds(rt, alloc, observer, (&[*event], Ok("")));
    }
    let open = Err(ObserveFault::NotFrames(events.len()));
    is_at(rt, observer, (events.len() as u64, open));
}

#[test]
fn event_by_event(rt: HostRuntime) {
    let events = status_events(&rt, rt.alloc());
    let (last, before) = found(&rt, events.split_last());
    let mut observer = Observer::new(rt.alloc());
    none_ends(&rt, rt.alloc(), &mut observer, before);
    feeds(&rt, rt.alloc(), &mut observer, (&[*last], Ok(STATUS_FRAME)));
    is_at(&rt, &observer, (events.len() as u64, Ok(())));
}

/// Feeds one frame in two pieces: it ends in the later one, unless that is empty.
fn feeds_both(rt: &impl Abort, alloc: Global, first: &[Event], later: &[Event], ended: Place) {
    let (before, after) = if later.is_empty() {
        (STATUS_FRAME, "")
    } else {
        ("", STATUS_FRAME)
    };
    let mut observer = Observer::new(alloc);
    feeds(rt, alloc, &mut observer, (first, Ok(before)));
    feeds(rt, alloc, &mut observer, (later, Ok(after)));
    is_at(rt, &observer, ended);
}

#[test]
fn cut_in_two(rt: HostRuntime) {
    let events = status_events(&rt, rt.alloc());
    let ended = (events.len() as u64, Ok(()));
    for place in 0..=events.len() {
        let (first, later) = events.split_at(place);
        feeds_both(&rt, rt.alloc(), first, later, ended);
    }
}

/// A fault before all events.
const AT_ONCE: ObserveFault = ObserveFault::NotFrames(0);

static STRAY_STOP: [(Fed<'static>, Place); 2] = [
    ((&[Event::Stop], Err(AT_ONCE)), (0, Err(AT_ONCE))),
    ((&[], Err(AT_ONCE)), (0, Err(AT_ONCE))),
];

/// A fault after a frame of three events: the second event of the piece doesn't go on, so none of
/// it is taken.
const LATER: ObserveFault = ObserveFault::NotFrames(4);

static OPEN_FRAME: [(Fed<'static>, Place); 4] = [
    (
        (&[Event::Start], Ok("")),
        (1, Err(ObserveFault::NotFrames(1))),
    ),
    ((&[Event::Rise(false), Event::Stop], Ok("S P")), (3, Ok(()))),
    ((&[Event::Start, Event::Stop], Err(LATER)), (3, Err(LATER))),
    ((&[Event::Start], Err(LATER)), (3, Err(LATER))),
];

fn each_feeds(rt: &impl Abort, alloc: Global, stream: &[(Fed<'_>, Place)]) {
    let mut observer = Observer::new(alloc);
    for (piece, place) in stream {
        feeds(rt, alloc, &mut observer, *piece);
        is_at(rt, &observer, *place);
    }
}

#[test]
fn streams_that_go_wrong(rt: HostRuntime) {
    each_feeds(&rt, rt.alloc(), &STRAY_STOP);
    each_feeds(&rt, rt.alloc(), &OPEN_FRAME);
}
