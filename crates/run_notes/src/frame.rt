//! Notes on messages that have no frame.

ghost use Rattle.std.specs.Prelude.{IfOk, codes};
ghost use Rattle.notes.specs.Notes.{IsOn};
ghost use Rattle.run_notes.specs.Messages.{message_line};
ghost use Rattle.texts.specs.Words.{lines_by_feed};

use crate::Result;
use crate::counted::counted_line;
use crate::misfit::refuse_misfit;
use bundles::Exchange;
use notes::{Level, Note};
use sentences::Figure::Count;
use sentences::{Advice, note_in, say};
use smbus::{Form, Message, SmbusFault};
use std::alloc::Global;

/// How many data bytes a message of a form has, if it has no block.
fn data_count(form: Form) -> Option<usize> {
    match form {
        Form::WriteByte => Some(1),
        Form::WriteWord | Form::ProcessCall => Some(2),
        Form::BlockWrite | Form::BlockProcessCall => None,
        _ => Some(0),
    }
}

/// What is said of data of another length, or of a byte that is refused and isn't sent.
fn bad_data(exchange: &Exchange) -> Advice<'static> {
    let (message, answer) = (&exchange.message, &exchange.answer);
    let found = message.out.len();
    match data_count(message.form) {
        Some(count) if count != found => say![
            "data bytes in \"out=\": expected " (Count(count)) ", found " (Count(found))
        ]
        .with_help(say!["the code stands in \"code=\", and words low byte first"]),
        _ => refuse_misfit(message, answer).with_help(say![
            "addresses, code, count and data are counted"
        ]),
    }
}

/// What is said of a block that can't be counted.
fn bad_block(message: &Message, returned: usize) -> Advice<'static> {
    let written = Count(message.out.len());
    let message = match message.form {
        Form::BlockWrite => say!["a block of " (written) " bytes in \"out=\""],
        Form::BlockRead if returned == 0 => {
            say!["\"bytes=\" is missing, the block that comes back"]
        }
        Form::BlockRead => { say!["a block of " (Count(returned)) " bytes in \"bytes=\""] }
        _ => say![(written) " bytes in \"out=\" and " (Count(returned)) " in \"bytes=\""],
    };
    let help = "a block has 1 to 255 bytes of two digits each, as in \"bytes=4143\", and both of a \
                block call have at most 255 together";
    message.with_text(help)
}

/// What is said of a message that has no frame.
fn advice_on(exchange: &Exchange, fault: SmbusFault) -> Advice<'static> {
    let (message, answer) = (&exchange.message, &exchange.answer);
    match fault {
        SmbusFault::BadData => bad_data(exchange),
        SmbusFault::BadBlock => bad_block(message, answer.bytes.len()),
        SmbusFault::Memory => say!["out of memory"].alone(),
    }
}

/// What a person needs to mend a message with this text that has no frame: its line with its
/// number, what is wrong with it, and what may help. Fails only for want of memory.
pub fn frame_note(alloc: Global, text: &str, exchange: &Exchange, fault: SmbusFault) -> Result<Note>
    ensures { IfOk result (IsOn Level.Error (codes "%message")
        (message_line (lines_by_feed text.now)) (lines_by_feed text.now)) }
{
    let number = counted_line(text, 0).unwrap_or(1);
    let remark = advice_on(exchange, fault).told(alloc)?;
    note_in(alloc, Level::Error, "%message", text, number, remark)
}
