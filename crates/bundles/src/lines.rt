//! The lines of a bundle.

ghost use Rattle.std.specs.Prelude.{◌≡◌, ◌<◌, [], ◌∷◌, length, MatchOption, IfSome};
ghost use Rattle.std.specs.Str.Lines.{lines};

use texts::first_line;

/// The first line of a text and the text below it, as `first_line` gives them. Most steps of a run
/// are answered by `-` alone, and then no line feed needs to be looked for.
pub(crate) fn next_line(text: &str) -> Option<(&str, &str)>
    ensures lines { MatchOption result (lines text.now ≡ [])
        (λ cut. lines text.now ≡ cut.0.now ∷ lines cut.1.now) }
    ensures shorter { IfSome result (λ cut. length cut.1.now < length text.now) }
{
    match text.strip_prefix("-\n") {
        Some(below) => Some(("-", below)),
        None => first_line(text),
    }
}
