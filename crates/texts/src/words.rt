ghost use Rattle.std.specs.Prelude.{◌≡◌, ◌<◌, ◌==◌, [], ◌∷◌, length, map};
ghost use Rattle.std.specs.Prelude.{MatchOption, IfSome, IfOk};
ghost use Rattle.std.specs.List.{slice_split};
ghost use Rattle.texts.specs.Ascii as ascii;
ghost use Rattle.texts.specs.Words.{words_of};

use crate::cutting::cut_at;
use std::alloc::{AllocError, Global};

/// Most lines have no more words than this.
const FEW_WORDS: usize = 8;

/// What stands before the first space of a line, and what follows that space; none where the line
/// has no space.
pub fn cut_at_space(line: &str) -> Option<(&str, &str)>
    ensures parts { MatchOption result
        (slice_split (λ b. b == ascii.space) line.now ≡ line.now ∷ [])
        (λ cut. slice_split (λ b. b == ascii.space) line.now
        ≡ cut.0.now ∷ slice_split (λ b. b == ascii.space) cut.1.now) }
    ensures shorter { IfSome result (λ cut. length cut.1.now < length line.now) }
{
    cut_at(line, b' ')
}

/// The words of a line, in order: its nonempty parts between spaces. Only the space parts words, a
/// tab doesn't. Fails only for want of memory.
pub fn words_of<'a>(alloc: Global, line: &'a str) -> Result<Vec<&'a str>, AllocError>
    ensures { IfOk result (λ v. map (λ w. w.now) v.items ≡ words_of line.now) }
{
    let mut words = Vec::with_capacity(alloc, line.len().min(FEW_WORDS))?;
    let mut rest = line;
    while let Some((part, behind)) = cut_at_space(rest) {
        if !part.is_empty() {
            words.push(part)?;
        }
        rest = behind;
    }
    if !rest.is_empty() {
        words.push(rest)?;
    }
    Ok(words)
}
