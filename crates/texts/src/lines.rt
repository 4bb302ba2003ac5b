//! The lines of a text, one after another, so that no list of them is held.

ghost use Rattle.std.specs.Prelude.{◌≡◌, ◌≤◌, ◌<◌, [], ◌∷◌, length, MatchOption, IfSome};
ghost use Rattle.std.specs.Str.Lines.{lines, strip_carriage_return};
ghost use Rattle.texts.specs.Words.{lines_by_feed};

use crate::cutting::cut_at;

/// The line without the one carriage return at its end, if it has one.
fn without_return(line: &str) -> &str
    ensures { result.now ≡ strip_carriage_return line.now }
{
    match line.strip_suffix('\r') {
        Some(line) => line,
        None => line,
    }
}

/// The first line of a text, without its line feed and a carriage return just before it, and the
/// text below it. The last line may lack its line feed.
pub fn first_line(text: &str) -> Option<(&str, &str)>
    ensures lines { MatchOption result (lines text.now ≡ [])
        (λ cut. lines text.now ≡ cut.0.now ∷ lines cut.1.now) }
    ensures shorter { IfSome result (λ cut. length cut.1.now < length text.now) }
{
    if text.is_empty() {
        return None;
    }
    match cut_at(text, b'\n') {
        Some((line, below)) => Some((without_return(line), below)),
        None => Some((text, "")),
    }
}

/// The first line of a text, without its line feed, and the text below it. The last line may lack
/// its line feed. A carriage return is a character like any other.
pub fn first_by_feed(text: &str) -> Option<(&str, &str)>
    ensures lines { MatchOption result (lines_by_feed text.now ≡ [])
        (λ cut. lines_by_feed text.now ≡ cut.0.now ∷ lines_by_feed cut.1.now) }
    ensures shorter { IfSome result (λ cut. length cut.1.now < length text.now) }
{
    if text.is_empty() {
        return None;
    }
    match cut_at(text, b'\n') {
        Some(cut) => Some(cut),
        None => Some((text, "")),
    }
}

/// How many lines a text has, each without its line feed, which the last line may lack.
pub fn line_count(text: &str) -> usize
    ensures count { result ≡ length (lines_by_feed text.now) }
    ensures few { result ≤ length text.now }
{
    let mut count = 0;
    let mut rest = text;
    while let Some((_, below)) = first_by_feed(rest) {
        count += 1;
        rest = below;
    }
    count
}
