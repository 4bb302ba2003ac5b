//! Frames by parts and in pieces. Whole frames are tested in `examples/rows/smbus.rows`.

use super::expected::{made, same};
use smbus::{
    Answer, Form, Message, ObserveFault, Segment, SmbusFault, most_slots, only_frame_in,
    sent_count, slot_count,
};
use std::alloc::Global;
use std::process::Abort;
use std::test::*;
use wires::{Runs, Sample};

/// A Block Write of 255 bytes, each of them 0.
#[test]
fn longest_block_is_counted(rt: HostRuntime) {
    let mut out = Vec::new(rt.alloc());
    made(&rt, out.resize(255, 0));
    let message = Message {
        address: 0x40,
        form: Form::BlockWrite,
        code: 0xD0,
        out,
    };
    same(&rt, sent_count(&message), 258);
    same(&rt, slot_count(&message, &Answer::silent(rt.alloc())), 2323);
    same(&rt, most_slots(Form::BlockWrite, 255, 0), 2323);
}

#[test]
fn faults_are_named(rt: HostRuntime) {
    let fault = SmbusFault::BadData;
    same(&rt, (fault.number(), fault.name()), (3, "BadData"));
    let fault = ObserveFault::NotFrames(3);
    same(&rt, (fault.number(), fault.name()), (2, "NotFrames"));
}

#[test]
fn addresses(rt: HostRuntime) {
    let bytes = made(&rt, vec![in rt.alloc(); (0x81, true), (0x5A, false)]);
    let segment = Segment { bytes };
    let seen = (segment.address(), segment.read());
    same(&rt, seen, (Some(0x40), Some(true)));
    let bytes = Vec::new(rt.alloc());
    let bare = Segment { bytes };
    same(&rt, (bare.address(), bare.read()), (None, None));
}

/// Adds the levels of a START, a repeated START and a STOP, tick by tick.
fn push_lines(rt: &impl Abort, samples: &mut Runs) {
    for (scl, sda) in b"11011011".iter().zip(b"10110001".iter()) {
        assert!(rt; samples.total() < 1000);
        let (scl, sda, alert) = (*scl == b'1', *sda == b'1', true);
        made(rt, samples.push(Sample { scl, sda, alert }, 1));
    }
}

/// Lines of one frame have none when they come twice.
#[test]
fn samples_of_one_frame(rt: HostRuntime) {
    let mut samples = Runs::new(rt.alloc());
    for is_one in [false, true, false] {
        let frame = made(&rt, only_frame_in(rt.alloc(), &samples));
        same(&rt, frame.is_some(), is_one);
        push_lines(&rt, &mut samples);
    }
}
