//! What a message returns that its target can't return.

use crate::Result;
use crate::alert::alert_misfit;
use crate::step::Step;
use board::{Allow, Board, Range};
use pmbus_table::by_code;
use pmbus_table::code::{PAGE, WRITE_PROTECT};
use sentences::Figure::{Command, Count, Hex, Number};
use sentences::Word::{Name, Text};
use sentences::{Figure, Sentence, say};
use smbus::{Answer, Form, Message, carries_code};
use std::alloc::Global;

/// A number with as many digits as the form's values have.
fn digits_of(form: Form, number: u16) -> Figure {
    match form {
        Form::ReadWord | Form::ProcessCall => Hex(number, 4),
        _ => Hex(number, 2),
    }
}

/// The name of a message's target.
fn target_name<'a>(board: &'a Board, message: &Message) -> &'a str {
    match board.target_at(message.address) {
        Some(index) => board.target_name(index).unwrap_or(""),
        None => "",
    }
}

/// What a message reads: `STATUS_WORD of "vr"`, or `what "vr" sends`.
fn subject_of(alloc: Global, board: &Board, message: &Message) -> Result<String> {
    let target = Name(target_name(board, message));
    let subject = if by_code(message.code).is_some() && carries_code(message.form) {
        say![(Command(message.code)) " of " {target}]
    } else {
        say!["what " {target} " sends"]
    };
    subject.told(alloc)
}

/// What a message is called that returns nothing, or something else.
fn form_text(form: Form) -> &'static str {
    match form {
        Form::Quick(_) => "a quick command",
        Form::SendByte => "a send",
        Form::WriteByte | Form::WriteWord => "a write",
        Form::BlockWrite => "a block write",
        Form::ReceiveByte => "a receive",
        Form::ReadByte | Form::ReadWord => "a read",
        Form::ProcessCall => "a call",
        Form::BlockRead => "a block read",
        Form::BlockProcessCall => "a block call",
        Form::Alert => "an alert response",
    }
}

/// What is wrong where nothing is to be returned.
fn nothing_misfit(form: Form, answer: &Answer) -> Sentence<'static> {
    let text = Text(form_text(form));
    if answer.value != 0 {
        let value = Hex(answer.value, 4);
        return say!["value " (value) " for " {text} ", whose answer is \"-\""];
    }
    say!["a block for " {text} ", whose answer is \"-\""]
}

/// What is wrong with a value that isn't the one that a target stores.
fn stored_misfit(alloc: Global, step: &Step, message: &Message, stored: &[u8]) -> Result<String> {
    let (board, answer) = (step.board, step.answer);
    let index = board.target_at(message.address).unwrap_or(0);
    let byte = stored.get(index).copied().unwrap_or(0);
    let subject = subject_of(alloc, board, message)?;
    say![
        {Text(&subject)} " is " (Hex(u16::from(byte), 2)) " here, the answer says "
        (Hex(answer.value, 2))
    ]
    .told(alloc)
}

/// What is wrong with a value outside of its range.
fn value_misfit(alloc: Global, step: &Step, message: &Message) -> Result<String> {
    let (board, answer, form) = (step.board, step.answer, message.form);
    let value = digits_of(form, answer.value);
    let Some(entry) = board.entry_for(message) else {
        return say!["value " (value) "; a byte has at most FF"].told(alloc);
    };
    let Range { low, high } = entry.values();
    let subject = subject_of(alloc, board, message)?;
    say![
        "value " (value) "; " {Text(&subject)} " has the values " (digits_of(form, low)) " to "
        (digits_of(form, high)) " on the board"
    ]
    .told(alloc)
}

/// What is wrong with a byte or a word that is read.
fn number_misfit(alloc: Global, step: &Step, message: &Message) -> Result<String> {
    let (bus, answer) = (step.bus, step.answer);
    if !answer.bytes.is_empty() {
        let text = Text(form_text(message.form));
        return say!["a block for " {text} ", whose answer is \"value=\""].told(alloc);
    }
    match (message.form, message.code) {
        (Form::ReadByte, PAGE) => stored_misfit(alloc, step, message, &bus.page),
        (Form::ReadByte, WRITE_PROTECT) => stored_misfit(alloc, step, message, &bus.protect),
        _ => value_misfit(alloc, step, message),
    }
}

/// What is wrong with the bytes of a block.
fn bytes_misfit(alloc: Global, step: &Step, message: &Message, entry: &Allow) -> Result<String> {
    let (board, answer) = (step.board, step.answer);
    let subject = subject_of(alloc, board, message)?;
    let count = answer.bytes.len();
    let Range { low, high } = entry.length();
    if count < usize::from(low) || count > usize::from(high) {
        return say![
            "a block of " (Count(count)) " bytes; " {Text(&subject)} " has "
            (Number(u64::from(low))) " to " (Number(u64::from(high))) " on the board"
        ]
        .told(alloc);
    }
    let Range { low, high } = entry.values();
    let outside = answer.bytes.iter().copied().find(|byte| {
        u16::from(*byte) < low || u16::from(*byte) > high
    });
    say![
        "byte " (Hex(u16::from(outside.unwrap_or(0)), 2)) " in the block; those of "
        {Text(&subject)} " are " (Hex(low, 2)) " to " (Hex(high, 2)) " on the board"
    ]
    .told(alloc)
}

/// What is wrong with the length of a block, whatever sends it.
fn length_misfit(message: &Message, count: usize) -> Option<Sentence<'static>> {
    let written = message.out.len();
    if count == 0 {
        return Some(say!["a block of 0 bytes; it has one at least"]);
    }
    if count > 255_usize.saturating_sub(written) {
        return Some(say![
            "blocks of " (Count(written)) " and " (Count(count))
            " bytes; both have at most 255 together"
        ]);
    }
    None
}

/// What is wrong with a block that is read.
fn block_misfit(alloc: Global, step: &Step, message: &Message) -> Result<String> {
    let text = Text(form_text(message.form));
    let (board, answer) = (step.board, step.answer);
    if answer.value != 0 {
        let value = Hex(answer.value, 4);
        return say!["value " (value) " for " {text} ", whose answer is \"bytes=\""].told(alloc);
    }
    let count = answer.bytes.len();
    if let Some(misfit) = length_misfit(message, count) {
        return misfit.told(alloc);
    }
    match board.entry_for(message) {
        Some(entry) => bytes_misfit(alloc, step, message, entry),
        None => say!["a block of " (Count(count)) " bytes for " {text}].told(alloc),
    }
}

/// What is wrong with what a message returns.
pub(crate) fn returned_misfit(alloc: Global, step: &Step, message: &Message) -> Result<String> {
    match message.form {
        Form::Quick(_) | Form::SendByte | Form::WriteByte | Form::WriteWord | Form::BlockWrite => {
            nothing_misfit(message.form, step.answer).told(alloc)
        }
        Form::ReceiveByte | Form::ReadByte | Form::ReadWord | Form::ProcessCall => {
            number_misfit(alloc, step, message)
        }
        Form::BlockRead | Form::BlockProcessCall => block_misfit(alloc, step, message),
        Form::Alert => alert_misfit(alloc, step).told(alloc),
    }
}
