//! Notes on lines of sections.

ghost use Rattle.std.specs.Prelude.{◌≡◌, IfOk, option_copied};
ghost use Rattle.texts.specs.Words.{lines_by_feed};
ghost use Rattle.notes.specs.Notes.{IsOn, IsQuoting, StaysOn};
ghost use Rattle.sentences.specs.Marked.{IsMarkedIfSome};
ghost use Rattle.sentences.specs.Remarks.{Says, helps_of};

use crate::Result;
use crate::advice::Remark;
use notes::{Level, Note, line_at};
use std::alloc::Global;

/// What may help, if there is something, in a list.
fn listed(alloc: Global, help: Option<String>) -> Result<Vec<String>>
    ensures { IfOk result (λ helps. helps.items ≡ helps_of help) }
{
    let mut helps = Vec::new(alloc);
    if let Some(help) = help {
        helps.push(help)?;
    }
    Ok(helps)
}

/// The note of a level on this line of a section, which has this number, that says this. Fails only
/// for want of memory.
pub fn note_on(
    alloc: Global,
    level: Level,
    section: &str,
    number: usize,
    line: Option<&str>,
    remark: Remark,
) -> Result<Note>
    ensures line { IfOk result (IsQuoting level section.now number (option_copied line.entry)) }
    ensures says { IfOk result (Says remark) }
{
    let note = Note::quoting(alloc, level, section, number, line)?;
    let Remark { message, help } = remark;
    let helps = listed(alloc, help)?;
    Ok(Note {
        message,
        helps,
        ..note
    })
}

/// The note of a level on the line of a section with this number, that says this. Fails only for
/// want of memory.
pub fn note_in(
    alloc: Global,
    level: Level,
    section: &str,
    text: &str,
    number: usize,
    remark: Remark,
) -> Result<Note>
    ensures line { IfOk result (IsOn level section.now number (lines_by_feed text.now)) }
    ensures says { IfOk result (Says remark) }
{
    note_on(alloc, level, section, number, line_at(text, number), remark)
}

/// The same note with a mark below a word, which stands behind this in its line, if one is known.
/// Fails only for want of memory.
pub fn marked(alloc: Global, note: Note, at: Option<(&str, &str)>) -> Result<Note>
    ensures marked { IfOk result (IsMarkedIfSome at.entry note) }
    ensures line { IfOk result (StaysOn note) }
{
    match at {
        Some((before, word)) => note.marking(alloc, before, word),
        None => Ok(note),
    }
}
