//! A text cut at a character of ASCII (RFC 20), which is one byte and so is looked for byte by
//! byte.

ghost use Rattle.std.specs.Prelude.{◌≡◌, ◌<◌, ◌==◌, position, MatchOption};
ghost use Rattle.texts.specs.Cuts.{IsCutAt, HasNo, without_comment, comment_in};

/// Where the first such byte stands.
fn place_of(mark: u8, text: &[u8]) -> Option<usize>
    ensures { result ≡ position (λ b. b == mark) text.now }
{
    text.iter().position(|byte| *byte == mark)
}

/// What stands before the first such character of a text, and what follows it; none where the text
/// has none.
pub(crate) fn cut_at(text: &str, mark: u8) -> Option<(&str, &str)>
    requires ascii { mark < 128 }
    ensures parts { MatchOption result (HasNo mark text.now)
        (λ cut. IsCutAt mark text.now cut.0.now cut.1.now) }
{
    match place_of(mark, text.as_bytes()) {
        Some(at) => Some((&text[..at], &text[at + 1..])),
        None => None,
    }
}

/// What stands before the comment of a line, which its first `#` begins.
pub fn without_comment(line: &str) -> &str
    ensures { result.now ≡ without_comment line.now }
{
    match cut_at(line, b'#') {
        Some((said, _)) => said,
        None => line,
    }
}

/// The comment of a line: what stands behind its first `#`, or nothing.
pub fn comment_in(line: &str) -> &str
    ensures { result.now ≡ comment_in line.now }
{
    match cut_at(line, b'#') {
        Some((_, comment)) => comment,
        None => "",
    }
}
