//! Notes on bundles.

ghost use Rattle.std.specs.Prelude.{◌≡◌, IfOk};
ghost use Rattle.bundles.specs.Bundles.{header_text};
ghost use Rattle.notes.specs.Notes.{IsOn};
ghost use Rattle.text_notes.specs.BundleLines.{IsOnBundleLine, line_in};
ghost use Rattle.texts.specs.Words.{lines_by_feed};

mod field;
mod flawed;
mod header;

use crate::Result;
use crate::bundle::flawed::{Flawed, flawed_line};
use crate::bundle::header::{missing_section, unexpected_line, unknown_command};
use crate::column::word_at;
use bundles::{BundleFault, Flaw, Header};
use notes::{Level, Note, line_at};
use sentences::{Remark, marked, note_in, say};
use std::alloc::Global;

/// A line from its beginning on, as a word, if it begins with `%`.
fn whole_word(line: Option<&str>) -> Option<(&str, &str)> {
    let word = line?.trim_end();
    if word.starts_with('%') {
        Some(("", word))
    } else {
        None
    }
}

/// The word of a number in a line, if there are both, with what stands before it.
fn word_in(line: Option<&str>, at: Option<usize>) -> Option<(&str, &str)> {
    word_at(line?, at?)
}

/// What a person needs to mend the line with a number of a section with this text, which has a
/// flaw: the line, what is wrong with it, and what may help. Fails only for want of memory.
pub fn flaw_note(
    alloc: Global,
    header: Header,
    text: &str,
    number: usize,
    flaw: Flaw,
) -> Result<Note>
    ensures { IfOk result (IsOn Level.Error (header_text header) number (lines_by_feed text.now)) }
{
    let line = line_at(text, number);
    let Flawed { remark, at } = flawed_line(alloc, header, line.unwrap_or(""), flaw)?;
    let note = note_in(alloc, Level::Error, header.text(), text, number, remark)?;
    marked(alloc, note, word_in(line, at))
}

/// The number of the line that a text ends in.
fn last_line(text: &str) -> usize {
    let feeds = text.bytes().filter(|byte| *byte == b'\n').count();
    feeds.saturating_add(1)
}

/// What is said of an input that is cut where it is no text, or too large.
fn no_text(alloc: Global, text: &str, fault: BundleFault) -> Result<Remark> {
    let message = match fault {
        BundleFault::NotText if !text.is_empty() => {
            let line = last_line(text);
            format!(in alloc; "{fault}: line {line} goes on with a byte that isn't UTF-8")?
        }
        _ => format!(in alloc; "{fault}")?,
    };
    Ok(Remark::bare(message))
}

/// What is said of a fault of a bundle.
fn remark_on(alloc: Global, text: &str, fault: BundleFault) -> Result<Remark> {
    match fault {
        BundleFault::Unexpected(line) => unexpected_line(alloc, text, line),
        BundleFault::UnknownCommand => unknown_command(alloc, line_at(text, 1).unwrap_or("")),
        BundleFault::NoCommand => say!["the input is empty"]
            .with_text(
                "the first line is a command, as %verify, and its sections follow, as %board",
            )
            .told(alloc),
        BundleFault::MissingSection(header) => missing_section(alloc, text, header),
        BundleFault::NotText | BundleFault::TooLarge => no_text(alloc, text, fault),
        BundleFault::BadMessage(..) | BundleFault::BadAnswer(..) | BundleFault::BadSeed(..) => {
            say!["this line doesn't belong here"].alone().told(alloc)
        }
    }
}

/// The number of the line of a fault; the first has the command, and what has no line of its own.
fn line_in(fault: BundleFault) -> usize
    ensures { result ≡ line_in fault }
{
    match fault {
        BundleFault::Unexpected(line)
        | BundleFault::BadMessage(line, _)
        | BundleFault::BadAnswer(line, _)
        | BundleFault::BadSeed(line, _) => line,
        _ => 1,
    }
}

/// The command or the header of a line that has to be another.
fn blamed_header(text: &str, fault: BundleFault) -> Option<(&str, &str)> {
    match fault {
        BundleFault::Unexpected(line) => whole_word(line_at(text, line)),
        BundleFault::UnknownCommand => whole_word(line_at(text, 1)),
        _ => None,
    }
}

/// What a person needs to mend a text that is no bundle: the fault's line with its number, what is
/// wrong with it, and what may help. What has no line is told at the first, which has the command.
///
/// The fault is to be the one that the bundle's readers answer for the text. Of another fault the
/// note still names its line, and quotes it if the text has it. For `NotText` the text is what
/// stands before the first byte that is none. Fails only for want of memory.
pub fn bundle_line_note(alloc: Global, text: &str, fault: BundleFault) -> Result<Note>
    ensures { IfOk result (IsOnBundleLine text.now (line_in fault)) }
{
    let remark = remark_on(alloc, text, fault)?;
    let note = note_in(alloc, Level::Error, "bundle", text, line_in(fault), remark)?;
    marked(alloc, note, blamed_header(text, fault))
}
