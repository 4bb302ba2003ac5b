//! K1: what an entry doesn't take, in words.

use board::{Range, Target};
use bundles::form_word;
use facts::Span;
use pmbus_table::code::{OPERATION, PAGE, WRITE_PROTECT};
use sentences::Figure::{Count, Entry, Hex, Number};
use sentences::Word::{Name, Text};
use sentences::{Advice, Figure, say};
use seq_program::Transaction;

/// The greatest number of bytes of both blocks of a Block Process Call (SMBus 3.2, 6.5.8).
const MOST_OF_BOTH: usize = 255;

const NARROWER: &str =
    "write what it takes, or, if the data sheet allows more, widen the entry's `values`";

const BOUNDED: &str =
    "bound the register before, as by `above rN MOST LABEL`, or narrow the `values` of the entry \
     that it is read with";

const OTHER_COUNT: &str =
    "send as many as it takes, or, if the data sheet allows more, widen the entry's `length`";

const FEWER: &str =
    "send fewer, or narrow the entry's `length`, which is of the bytes that come back";

const ONE_OF_THESE: &str = "write one of these";

const OPERATION_VALUES: &str =
    "OPERATION takes 0 (off), 0x40 (soft off), 0x80 (on), 0x94 (margin low, ignoring faults), 0x98 \
     (margin low, acting on faults), 0xA4 (margin high, ignoring faults) and 0xA8 (margin high, \
     acting on faults) in a program";

/// No entry has the form and the command; `first` where the target has no entry at all.
pub(crate) fn no_entry<'a>(
    name: &'a str,
    transaction: &Transaction<'_>,
    first: bool,
) -> Advice<'a> {
    let command = transaction.command.map(|command| command.code());
    let (name, entry) = (Name(name), Entry(form_word(transaction.form), command));
    Advice {
        message: say![{name} " has no entry " (entry)],
        help: Some(if first {
            say!["if the data sheet allows it, give it the line allow = [" (entry) "]"]
        } else {
            say!["if the data sheet allows it, add " (entry) " to its `allow`"]
        }),
    }
}

fn number(number: u16) -> Figure {
    Number(u64::from(number))
}

/// Which values PAGE takes.
fn known_pages(device: &Target) -> Advice<'static> {
    let last = device.pages().saturating_sub(1);
    let message = if last == 0 {
        say!["PAGE takes 0, its only page, and 255, all of them"]
    } else {
        let last = Number(u64::from(last));
        say!["PAGE takes 0 to " (last) " and 255, all of them"]
    };
    message.with_text("write one of these, or mend the target's `pages` on the board")
}

/// Which values a command takes, of those that take few.
pub(crate) fn known_values(device: &Target, code: u8) -> Option<Advice<'static>> {
    let text = match code {
        PAGE => return Some(known_pages(device)),
        WRITE_PROTECT => "WRITE_PROTECT takes 0, 0x20, 0x40 and 0x80",
        OPERATION => OPERATION_VALUES,
        _ => return None,
    };
    Some(say![{ Text(text) }].with_text(ONE_OF_THESE))
}

/// What may be written, where that isn't within a range.
pub(crate) fn other_values(range: Range, span: Span) -> Advice<'static> {
    let (low, high) = (number(range.low), number(range.high));
    if span.lo == span.hi {
        let message = say![
            (number(span.hi)) " is written, and its entry takes " (low) " to " (high)
        ];
        return message.with_text(NARROWER);
    }
    let message = say![
        (number(span.lo)) " to " (number(span.hi)) " may be written, and its entry takes " (low)
        " to " (high)
    ];
    message.with_text(BOUNDED)
}

/// What is wrong with the length of a block.
pub(crate) fn other_length(range: Range, count: usize) -> Advice<'static> {
    let message = say![
        (Count(count)) " bytes are written, and its entry takes " (number(range.low)) " to "
        (number(range.high))
    ];
    message.with_text(OTHER_COUNT)
}

/// What is wrong with a byte of a block.
pub(crate) fn other_byte(range: Range, byte: u8) -> Advice<'static> {
    let message = say![
        "the byte " (Hex(u16::from(byte), 2)) " is written, and its entry takes "
        (Hex(range.low, 2)) " to " (Hex(range.high, 2))
    ];
    message.with_text(NARROWER)
}

/// That both blocks of a call have too many bytes together.
pub(crate) fn no_room(range: Range, count: usize) -> Advice<'static> {
    let message = say![
        (Count(count)) " bytes are written and up to " (number(range.high)) " come back, over "
        (Count(MOST_OF_BOTH)) " together"
    ];
    message.with_text(FEWER)
}
