//! Readers' errors, and texts that are sent. Lines, words and numbers are tested in
//! `examples/rows/texts.rows`.

use super::devices::SlowWriter;
use super::expected::same;
use std::alloc::Global;
use std::process::Abort;
use texts::{CutShort, ReadError, send};

/// The length of a text of one letter. A push onto a text has an error of its own.
fn one_letter(alloc: Global) -> Result<usize, ReadError<u8>> {
    let mut text = String::new(alloc);
    text.push('a')?;
    Ok(text.len())
}

/// The byte, put on a list and taken from it. A push onto a list has an error of its own, and a
/// missing byte is a fault.
fn one_byte(alloc: Global, byte: Option<u8>) -> Result<Option<u8>, ReadError<u8>> {
    let byte = byte.ok_or(ReadError::Fault(7))?;
    let mut bytes = Vec::new(alloc);
    bytes.push(byte)?;
    Ok(bytes.pop())
}

#[test]
fn faults(rt: HostRuntime) {
    same(&rt, one_letter(rt.alloc()), Ok(1));
    same(&rt, one_byte(rt.alloc(), Some(3)), Ok(Some(3)));
    same(&rt, one_byte(rt.alloc(), None), Err(ReadError::Fault(7)));
}

/// How many bytes a writer takes, what sending `frame` through it gives, and what was taken.
type Sent = (usize, Result<(), CutShort>, &'static [u8]);

static SENT: [Sent; 4] = [
    (0, Err(CutShort), b""),
    (2, Err(CutShort), b"fr"),
    (5, Ok(()), b"frame"),
    (9, Ok(()), b"frame"),
];

fn is_sent(rt: &impl Abort, alloc: Global, row: Sent) {
    let (calls_left, want, taken) = row;
    let mut writer = SlowWriter {
        taken: Vec::new(alloc),
        calls_left,
        fails: false,
    };
    same(rt, send(&mut writer, b"frame"), want);
    same(rt, writer.taken.as_slice(), taken);
}

#[test]
fn texts_are_sent_whole_or_cut_short(rt: HostRuntime) {
    for row in &SENT {
        is_sent(&rt, rt.alloc(), *row);
    }
}
