//! What keeps a file from being judged.

ghost use Rattle.std.specs.Prelude.{◌≡◌, ◌+◌, ◌==◌, count_by, option_map, false, true, MatchOption};
ghost use Rattle.std.specs.Str.Lines.{lines};
ghost use Rattle.command_line.specs.FileFaults.{has_nul, is_refused, first_refused, refused_as};
ghost use Rattle.command_line.specs.FileFaults.{file_fault};
ghost use Rattle.bundles.specs.Bundles.{starts_section};

use notes::{Level, Note};
use session::text_front;
use std::alloc::{AllocError, Global};
use texts::first_line;

/// The most bytes of a file.
const MOST_BYTES: usize = 16_777_216;

/// U+FEFF in UTF-8.
const BYTE_ORDER_MARK: [u8; 3] = [0xEF, 0xBB, 0xBF];

/// Why a file isn't taken. Lines and bytes are counted from 1.
#[derive(Clone, Copy)]
pub(crate) enum FileFault {
    /// It has more than 16 MiB.
    TooLarge,
    /// Its byte with this number, in this line, isn't UTF-8.
    NotText { line: usize, byte: usize },
    /// It begins with a byte order mark.
    ByteOrderMark,
    /// A line has a NUL.
    Nul { line: usize },
    /// A line begins with `%`, as a header does.
    Header { line: usize },
}

/// The number of the line that a text ends in.
fn last_line(text: &str) -> usize
    ensures { result ≡ count_by (λ b. b == 10) text.now + 1 }
{
    text.bytes().filter(|byte| *byte == b'\n').count() + 1
}

/// Whether a line begins as a header does.
fn starts_section(line: &str) -> bool
    ensures { result ≡ starts_section line.now }
{
    line.as_bytes().first() == Some(&b'%')
}

fn has_nul(line: &[u8]) -> bool
    ensures { result ≡ has_nul line.now }
{
    line.iter().any(|byte| *byte == 0)
}

/// Why a line with this number may not be in a file.
fn refusal_of(line: usize, text: &str) -> Option<FileFault>
    ensures { MatchOption result (is_refused text.now ≡ false)
        (λ fault. (is_refused text.now ≡ true) × (fault ≡ refused_as (line, text.now))) }
{
    if starts_section(text) {
        Some(FileFault::Header { line })
    } else if has_nul(text.as_bytes()) {
        Some(FileFault::Nul { line })
    } else {
        None
    }
}

/// The first line that a file may not have.
fn line_fault(text: &str) -> Option<FileFault>
    ensures { result ≡ option_map refused_as (first_refused 1 (lines text.now)) }
{
    let mut number = 1;
    let mut rest = text;
    while let Some((line, below)) = first_line(rest) {
        let fault = refusal_of(number, line);
        if fault.is_some() {
            return fault;
        }
        number += 1;
        rest = below;
    }
    None
}

/// What is wrong with a file before it is looked at as a board, a program or anything else. Of a
/// file that has none of these, each line stands in the section of a bundle.
pub(crate) fn fault_in(file: &[u8]) -> Option<FileFault>
    ensures { result ≡ file_fault file.now }
{
    if file.len() > MOST_BYTES {
        return Some(FileFault::TooLarge);
    }
    let text = text_front(file);
    if text.len() < file.len() {
        return Some(FileFault::NotText {
            line: last_line(text),
            byte: text.len() + 1,
        });
    }
    if text.as_bytes().starts_with(&BYTE_ORDER_MARK) {
        return Some(FileFault::ByteOrderMark);
    }
    line_fault(text)
}

/// The line of a fault.
fn line_of(fault: FileFault) -> usize {
    match fault {
        FileFault::TooLarge | FileFault::ByteOrderMark => 1,
        FileFault::NotText { line, .. } | FileFault::Nul { line } | FileFault::Header { line } => {
            line
        }
    }
}

/// What is said of a fault, and what may help.
fn words_of(alloc: Global, fault: FileFault) -> Result<(String, &'static str), AllocError> {
    match fault {
        FileFault::TooLarge => Ok((
            String::from_str(alloc, "the file has over 16 MiB (16,777,216 bytes)")?,
            "no more of it was read",
        )),
        FileFault::NotText { byte, .. } => Ok((
            format!(in alloc; "this line isn't UTF-8, from byte {byte} of the file on")?,
            "save the file as UTF-8",
        )),
        FileFault::ByteOrderMark => Ok((
            String::from_str(alloc, "the file begins with a byte order mark (EF BB BF)")?,
            "save the file as UTF-8 without one",
        )),
        FileFault::Nul { .. } => Ok((
            String::from_str(alloc, "this line has a NUL (00), which no text has")?,
            "save the file as UTF-8",
        )),
        FileFault::Header { .. } => Ok((
            String::from_str(alloc, "a line may not begin with %")?,
            "a comment begins with #",
        )),
    }
}

/// The note on a file that isn't taken.
pub(crate) fn fault_note(alloc: Global, name: &str, fault: FileFault) -> Result<Note, AllocError> {
    let (message, help) = words_of(alloc, fault)?;
    let help = String::from_str(alloc, help)?;
    let helps = vec![in alloc; help]?;
    let note = Note::on(alloc, Level::Error, name, "", line_of(fault))?;
    Ok(Note {
        message,
        helps,
        ..note
    })
}
