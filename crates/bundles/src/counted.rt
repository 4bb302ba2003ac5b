//! The lines of a section that say something.

ghost use Rattle.std.specs.Prelude.{◌≡◌, ◌<◌, [], ◌∷◌, MatchOption, IfSome};
ghost use Rattle.bundles.specs.CountedLines.{is_counted, counted_lines};
ghost use Rattle.bundles.specs.Views.{section_view};

use crate::bundle::is_blank;
use crate::section::Section;

/// The first line of a section that says something, with its number in the bundle, and the lines
/// below it.
#[derive(Drop)]
pub(crate) struct Counted<'a> {
    pub number: usize,
    pub line: &'a str,
    pub below: Section<'a>,
}

/// Whether a line of a section counts: it isn't blank, nor a comment, which begins with `#`.
pub fn is_counted(line: &str) -> bool
    ensures { result ≡ is_counted line.now }
{
    !is_blank(line) && line.as_bytes().first() != Some(&b'#')
}

/// The first line that counts.
pub(crate) fn first_counted<'a>(section: &Section<'a>) -> Option<Counted<'a>>
    ensures first { MatchOption result
        (counted_lines (section_view section.now) ≡ [])
        (λ first. counted_lines (section_view section.now)
        ≡ (first.number, first.line.now) ∷ counted_lines (section_view first.below)) }
    ensures shorter { IfSome result
        (λ first. first.below.count < section.now.count) }
{
    let mut rest = *section;
    while let Some((line, below)) = rest.split_first() {
        if is_counted(line) {
            return Some(Counted {
                number: rest.first_line,
                line,
                below,
            });
        }
        rest = below;
    }
    None
}
