//! Readers that end late or fail, and writers that fail.

use super::devices::SlowWriter;
use super::expected::{found, made, same, says};
use bundles::{BundleFault, read_bundle};
use facts::Rule;
use plans::{LineFault, PlanFault};
use session::{
    DeviceFault, DraftFault, Input, ReadFault, Status, read_input, section_text, serve, session,
    text_of,
};
use std::alloc::Global;
use std::io;
use std::io::Read;
use std::process::Abort;
use std::test::*;

/// A message's bundle, and what is printed for it.
const FRAME: &[u8] = b"%frame\n%message\nform=writebyte address=40 code=00 out=01\n";

const FRAME_REPLY: &[u8] = b"S 80A 00A 01A P\nsamples 58\ndone 0000\n";

/// Gives the bundle with blank lines behind the command, one byte a call, and fails at one call.
#[derive(Drop)]
struct SlowReader {
    head: &'static [u8],
    blanks: usize,
    tail: &'static [u8],
    calls_left: usize,
}

impl Read for SlowReader {
    fn read(&mut self, buffer: &mut [u8]) -> io::Result<usize> {
        if self.calls_left == 0 {
            return Err(io::Error::from(io::ErrorKind::BrokenPipe));
        }
        self.calls_left -= 1;
        let Some(place) = buffer.first_mut() else {
            return Ok(0);
        };
        if let [byte, rest @ ..] = self.head {
            *place = *byte;
            self.head = rest;
        } else if self.blanks > 0 {
            *place = b'\n';
            self.blanks -= 1;
        } else if let [byte, rest @ ..] = self.tail {
            *place = *byte;
            self.tail = rest;
        } else {
            return Ok(0);
        }
        Ok(1)
    }
}

fn slow_reader(blanks: usize, calls_left: usize) -> SlowReader {
    let (head, tail) = FRAME.split_at(7);
    SlowReader {
        head,
        blanks,
        tail,
        calls_left,
    }
}

/// As many LFs as there are, and then the end.
#[derive(Drop)]
struct Lines {
    left: usize,
}

impl Read for Lines {
    fn read(&mut self, buffer: &mut [u8]) -> io::Result<usize> {
        let count = self.left.min(buffer.len());
        buffer[..count].fill(b'\n');
        self.left -= count;
        Ok(count)
    }
}

/// Never ends.
#[derive(Drop)]
struct EndlessReader;

impl Read for EndlessReader {
    fn read(&mut self, buffer: &mut [u8]) -> io::Result<usize> {
        Ok(buffer.len())
    }
}

/// Tries how the session with a reader ends, and what is printed.
fn replies<R: Read>(rt: &impl Abort, alloc: Global, reader: &mut R, want: (Status, &[u8])) {
    let mut output = Vec::new(alloc);
    let status = session(alloc, reader, &mut output);
    same(rt, (status, output.as_slice()), want);
}

/// Tries that a reader is told to fail.
fn fails<R: Read>(rt: &impl Abort, alloc: Global, reader: &mut R) {
    match read_input(alloc, reader) {
        Ok(_) => panic!(rt; "all was read"),
        Err(fault) => same(rt, fault, ReadFault::Reader),
    }
}

#[test]
fn the_size_limit(rt: HostRuntime) {
    let want = (
        Status::InputFault,
        b"fault bundle 3 UnknownCommand\n".as_slice(),
    );
    replies(&rt, rt.alloc(), &mut Lines { left: 16_777_216 }, want);
    let want = (Status::InputFault, b"fault bundle 8 TooLarge\n".as_slice());
    replies(&rt, rt.alloc(), &mut Lines { left: 16_777_217 }, want);
}

#[test]
fn the_reader_fails_at_each_call(rt: HostRuntime) {
    let calls = FRAME.len() + 1;
    for calls_left in 0..calls {
        fails(&rt, rt.alloc(), &mut slow_reader(0, calls_left));
    }
    let want = (Status::Accepted, FRAME_REPLY);
    replies(&rt, rt.alloc(), &mut slow_reader(0, calls), want);
}

/// A reader is called 1,048,576 times at most, and the last of them has to tell the end.
#[test]
fn the_reader_ends_in_time(rt: HostRuntime) {
    fails(&rt, rt.alloc(), &mut EndlessReader);
    let blanks = 1_048_575 - FRAME.len();
    let want = (Status::Accepted, FRAME_REPLY);
    replies(&rt, rt.alloc(), &mut slow_reader(blanks, usize::MAX), want);
    let want = (Status::DeviceFault, b"".as_slice());
    replies(
        &rt,
        rt.alloc(),
        &mut slow_reader(blanks + 1, usize::MAX),
        want,
    );
}

/// Tries how the session with a writer ends, and what it has got.
fn stops(
    rt: &impl Abort,
    alloc: Global,
    bundle: &[u8],
    how: (usize, bool),
    want: (Status, Option<&[u8]>),
) {
    let mut output = SlowWriter {
        taken: Vec::new(alloc),
        calls_left: how.0,
        fails: how.1,
    };
    let mut reader = bundle;
    let status = session(alloc, &mut reader, &mut output);
    same(
        rt,
        (how, status, Some(output.taken.as_slice())),
        (how, want.0, want.1),
    );
}

/// Tries a writer that fails, or takes nothing, at each of its calls, and one that doesn't.
fn all_stop(rt: &impl Abort, alloc: Global, bundle: &[u8], want: &[u8]) {
    for calls_left in 0..want.len() {
        let begun = (Status::DeviceFault, want.get(..calls_left));
        stops(rt, alloc, bundle, (calls_left, true), begun);
        stops(rt, alloc, bundle, (calls_left, false), begun);
    }
    stops(
        rt,
        alloc,
        bundle,
        (want.len(), true),
        (Status::Accepted, Some(want)),
    );
}

#[test]
fn the_writer_fails_at_each_call(rt: HostRuntime) {
    all_stop(&rt, rt.alloc(), FRAME, FRAME_REPLY);
    all_stop(&rt, rt.alloc(), ASKING.as_bytes(), ASKED.as_bytes());
}

/// Tries how a message is answered by a reader and a writer that fail after so many calls, and what
/// the writer has got.
fn serves(
    rt: &impl Abort,
    alloc: Global,
    calls: (usize, usize),
    want: (Result<Status, DeviceFault>, &[u8]),
) {
    let mut output = SlowWriter {
        taken: Vec::new(alloc),
        calls_left: calls.1,
        fails: true,
    };
    let status = serve(alloc, &mut slow_reader(0, calls.0), &mut output);
    same(
        rt,
        (calls, status, output.taken.as_slice()),
        (calls, want.0, want.1),
    );
}

#[test]
fn the_device_that_fails_is_told(rt: HostRuntime) {
    let reads = FRAME.len() + 1;
    let writes = FRAME_REPLY.len();
    let all = (Ok(Status::Accepted), FRAME_REPLY);
    serves(&rt, rt.alloc(), (reads, writes), all);
    let unread = (Err(DeviceFault::Reader), b"".as_slice());
    serves(&rt, rt.alloc(), (reads - 1, writes), unread);
    let begun = (Err(DeviceFault::Writer), b"S 80".as_slice());
    serves(&rt, rt.alloc(), (reads, 4), begun);
}

/// Two targets that may alert, at the addresses 40h and 21h, and a program that waits, asks three
/// times who alerts, and fails where nobody does.
const ASKING: &str = r#"%run
%board
[[target]]
name = "a"
address = 0x40
pages = 1
exponent = -12
stretch = 0
alerts = true
start_pages = [0]
start_protects = [0]
[[target]]
name = "b"
address = 0x21
pages = 1
exponent = -12
stretch = 0
alerts = true
start_pages = [0]
start_protects = [0]
%program
wait 1
alert r0 else no
alert r1 else no
alert r2 else no
end
no:
fail
%answers
start 00,00 00,00
alerts=3
value=42
value=80
refuse=0
-
"#;

const ASKED: &str = "0 2 - -
1 41 S 19A 42N P done 0042
2 41 S 19A 80N P done 0080
3 23 S 19N P nak
5 1 - -
fail ticks 108
";

/// Bytes of an input, whether it is too large, and its text or its fault.
static TEXTS: [(&[u8], bool, Result<&str, BundleFault>); 4] = [
    (b"%run", false, Ok("%run")),
    (b"%run", true, Err(BundleFault::TooLarge)),
    (b"", false, Err(BundleFault::NoCommand)),
    (b"%run\xff", false, Err(BundleFault::NotText)),
];

#[test]
fn texts_of_inputs(rt: HostRuntime) {
    for (bytes, too_large, want) in &TEXTS {
        let bytes = made(&rt, bytes.to_vec(rt.alloc()));
        let input = Input {
            bytes,
            too_large: *too_large,
        };
        same(&rt, text_of(&input), *want);
    }
}

#[test]
fn a_section_below_its_first_line(rt: HostRuntime) {
    let text = "%frame\n%message\n# faults\nform=send address=40 code=03\n";
    let bundle = made(&rt, read_bundle(rt.alloc(), text));
    let section = found(&rt, bundle.sections.first());
    let (_, below) = found(&rt, section.split_first());
    let text = section_text(rt.alloc(), &below);
    says(&rt, text, "form=send address=40 code=03\n");
}

#[test]
fn faults_of_drafts(rt: HostRuntime) {
    let refused = DraftFault::NotAccepted {
        place: 0,
        rule: Rule::K1,
    };
    same(&rt, (refused.number(), refused.name()), (7, "NotAccepted"));
    let bad = DraftFault::BadPlan(PlanFault {
        line: 1,
        why: LineFault::NoWish,
    });
    same(&rt, (bad.number(), bad.name()), (2, "BadPlan"));
}
