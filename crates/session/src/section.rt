ghost use Rattle.std.specs.Prelude.{◌≡◌, IfOk, option_map, slice_get, string_bytes};
ghost use Rattle.bundles.specs.Views.{section_view};
ghost use Rattle.session.specs.Parts.{sections_view};
ghost use Rattle.session.specs.SectionTexts.{section_text};

use bundles::Section;
use std::alloc::{AllocError, Global};

/// The text of a section: its lines, each of them ended by a line feed. Fails only for want of
/// memory.
pub fn section_text(alloc: Global, section: &Section<'_>) -> Result<String, AllocError>
    ensures { IfOk result (λ text. string_bytes text ≡ section_text (section_view section.now)) }
{
    let mut text = String::new(alloc);
    let mut rest = *section;
    while let Some((line, below)) = rest.split_first() {
        text.push_str(line)?;
        text.push('\n')?;
        rest = below;
    }
    Ok(text)
}

/// The text of the section of an index, from 0 on, where there are so many. AllocError is answered
/// where a growth was refused.
pub fn section_of(
    alloc: Global,
    sections: &[Section<'_>],
    index: usize,
) -> Result<Option<String>, AllocError>
    ensures { IfOk result (λ found. option_map string_bytes found
        ≡ option_map section_text (slice_get (sections_view sections.now) index)) }
{
    match sections.get(index) {
        Some(section) => Ok(Some(section_text(alloc, section)?)),
        None => Ok(None),
    }
}
