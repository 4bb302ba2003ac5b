//! Words of a text in messages.

ghost use Rattle.std.specs.Prelude.{option_copied};
ghost use Rattle.notes.specs.ShownLines.{most_quoted, IsWholeFront, IsBeginningOf, quoted};

use std::fmt;

/// How many bytes of a word are shown, at most.
const MOST_QUOTED: usize = 40;

/// A word in quotes. Of a long one the beginning is shown, and two dots.
#[derive(Clone, Copy)]
pub struct Quoted<'a>(pub &'a str);

/// How many bytes of the beginning of a word are shown: whole characters.
fn front_size(word: &str) -> usize
    ensures { IsWholeFront most_quoted word.now result }
{
    word.floor_char_boundary(MOST_QUOTED)
}

/// The beginning of a word that is too long to be shown: as many whole characters as 40 bytes hold.
pub fn beginning_of(word: &str) -> Option<&str>
    ensures { IsBeginningOf word.now (option_copied result) }
{
    if word.len() <= MOST_QUOTED {
        return None;
    }
    Some(&word[..front_size(word)])
}

impl fmt::Display for Quoted<'_> {
    ghost output = { λ q. quoted q.0.now };

    fn fmt<W: fmt::Write>(&self, f: &mut fmt::Formatter<W>) -> fmt::Result {
        let word = self.0;
        match beginning_of(word) {
            Some(beginning) => write!(f, "{beginning:?}.."),
            None => write!(f, "{word:?}"),
        }
    }
}
