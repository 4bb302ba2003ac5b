//! Notes on bundles.

ghost use Rattle.std.specs.Prelude.{IfOk};
ghost use Rattle.bundles.specs.Views.{section_view};
ghost use Rattle.diagnostics.specs.BundlePlaces.{IsOnFault, IsOnPart, IsOnSectionLine};
ghost use Rattle.session.specs.Parts.{sections_view};

use crate::Result;
use bundles::{BundleFault, Flaw, Header, Section};
use notes::Note;
use session::section_text;
use std::alloc::Global;
use text_notes::{bundle_line_note, flaw_note};

/// The note on the line of a section that has this number in the bundle, and this flaw.
fn part_note(
    alloc: Global,
    header: Header,
    section: &Section<'_>,
    line: usize,
    flaw: Flaw,
) -> Result<Note>
    ensures { IfOk result (IsOnPart header (section_view section.now) line) }
{
    let text = section_text(alloc, section)?;
    let number = line.saturating_sub(section.first_line.saturating_sub(1));
    flaw_note(alloc, header, &text, number, flaw)
}

/// The note on the line of the section of an index that has this number in the bundle.
fn section_note(
    alloc: Global,
    text: &str,
    sections: &[Section<'_>],
    header: Header,
    index: usize,
    line: usize,
    flaw: Flaw,
) -> Result<Note>
    ensures { IfOk result
        (IsOnSectionLine text.now (sections_view sections.now) header index line) }
{
    match sections.get(index) {
        Some(section) => part_note(alloc, header, section, line, flaw),
        None => bundle_line_note(alloc, text, BundleFault::Unexpected(line)),
    }
}

/// What a person needs to mend a text that is no bundle: the fault's line with its number, what is
/// wrong with it, and what may help. Lines of messages, answers and seeds are counted in their
/// sections. What has no line is told at the first, which has the command.
///
/// The sections are those of the text, none where it is no bundle, and the fault is to be the one
/// that the bundle's readers answer for it. Of another fault the note still names its line, and
/// quotes it if the text has it. For `NotText` the text is what stands before the first byte that
/// is none. Fails only for want of memory.
pub fn bundle_note(
    alloc: Global,
    text: &str,
    sections: &[Section<'_>],
    fault: BundleFault,
) -> Result<Note>
    ensures { IfOk result (IsOnFault text.now (sections_view sections.now) fault) }
{
    match fault {
        BundleFault::BadMessage(line, flaw) => {
            section_note(alloc, text, sections, Header::Message, 0, line, flaw)
        }
        BundleFault::BadAnswer(line, flaw) => {
            section_note(alloc, text, sections, Header::Answers, 2, line, flaw)
        }
        BundleFault::BadSeed(line, flaw) => {
            section_note(alloc, text, sections, Header::Seed, 2, line, flaw)
        }
        _ => bundle_line_note(alloc, text, fault),
    }
}
