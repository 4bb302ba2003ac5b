//! The parts of the input: each has a line `KIND BYTES NAME` and then so many bytes.

use texts::{cut_at_space, decimal_within};

/// A part of the input: what it is, of which file, and its bytes.
#[derive(Clone, Copy)]
pub(crate) struct Item<'a> {
    pub(crate) kind: &'a str,
    pub(crate) name: &'a str,
    pub(crate) bytes: &'a [u8],
}

impl<'a> Item<'a> {
    /// Its bytes as a text, if they are UTF-8.
    pub(crate) fn text(&self) -> Option<&'a str> {
        str::from_utf8(self.bytes).ok()
    }
}

/// The kind, the number of bytes and the name on an item's first line.
fn head_of(line: &[u8]) -> Option<(&str, usize, &str)> {
    let (kind, rest) = cut_at_space(str::from_utf8(line).ok()?)?;
    let (size, name) = cut_at_space(rest)?;
    Some((kind, decimal_within(size, 16_777_216)? as usize, name))
}

/// The first item of the input, and what is below it.
pub(crate) fn first_item(input: &[u8]) -> Option<(Item<'_>, &[u8])> {
    let end = input.iter().position(|byte| *byte == b'\n')?;
    let (kind, size, name) = head_of(input.get(..end)?)?;
    let body = input.get(end..)?.get(1..)?;
    let bytes = body.get(..size)?;
    Some((Item { kind, name, bytes }, body.get(size..)?))
}
