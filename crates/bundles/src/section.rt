ghost use Rattle.std.specs.Prelude.{◌≤◌, ◌+◌, ◌<◌, ◌^◌, length};
ghost use Rattle.std.specs.Str.Lines.{lines};

use crate::lines::next_line;

/// The lines below a header, and the number of the first of them in the bundle. The text begins
/// with the first of them, and may go on below the last.
#[derive(Clone, Copy, Debug)]
pub struct Section<'a> {
    pub first_line: usize,
    pub count: usize,
    pub text: &'a str,
    pub ghost in_range: { first_line + count < 2 ^ 64 },
    pub ghost within: { count ≤ length (lines text.now) },
}

impl<'a> Section<'a> {
    ghost use Rattle.std.specs.Prelude.{◌≡◌, ◌+◌, [], ◌∷◌, MatchOption, IfSome};
    ghost use Rattle.bundles.specs.Views.{section_view};

    /// The first line, and the section of those below it.
    pub fn split_first(&self) -> Option<(&'a str, Section<'a>)>
        ensures lines { MatchOption result ((section_view self.now).lines ≡ [])
            (λ cut. (section_view self.now).lines ≡ cut.0.now ∷ (section_view cut.1).lines) }
        ensures next { IfSome result (λ cut. cut.1.first_line ≡ self.now.first_line + 1) }
        ensures fewer { IfSome result (λ cut. cut.1.count + 1 ≡ self.now.count) }
    {
        if self.count == 0 {
            return None;
        }
        let (line, text) = next_line(self.text)?;
        let below = Section {
            first_line: self.first_line + 1,
            count: self.count - 1,
            text,
        };
        Some((line, below))
    }
}
