//! The lines of a text.

ghost use Rattle.std.specs.Prelude.{◌≡◌, drop, option_copied, slice_get};
ghost use Rattle.texts.specs.Words.{lines_by_feed};
ghost use Rattle.notes.specs.Lines.{line_at, FindsIn, IsFound, IsLeft};

use texts::first_by_feed;

/// A text below its first lines, so many.
fn below_first(text: &str, count: usize) -> &str
    ensures { lines_by_feed result.now ≡ drop count (lines_by_feed text.now) }
{
    let mut left = count;
    let mut rest = text;
    while let Some((_, below)) = first_by_feed(rest) {
        if left == 0 {
            return rest;
        }
        left -= 1;
        rest = below;
    }
    rest
}

/// The first line of a text.
fn first_of(text: &str) -> Option<&str>
    ensures { option_copied result ≡ slice_get (lines_by_feed text.now) 0 }
{
    let (line, _) = first_by_feed(text)?;
    Some(line)
}

/// The line of a text with a number, counted from 1.
pub fn line_at(text: &str, number: usize) -> Option<&str>
    ensures { option_copied result ≡ line_at number (lines_by_feed text.now) }
{
    let above = number.checked_sub(1)?;
    first_of(below_first(text, above))
}

/// Finds the lines of a text by their numbers: all in one pass, where the numbers grow.
#[derive(Clone, Copy, Debug)]
pub struct LineFinder<'a> {
    text: &'a str,
    /// How many lines stand above what is left.
    above: usize,
    left: &'a str,
}

impl<'a> LineFinder<'a> {
    /// Finds lines of this text.
    pub fn of(text: &'a str) -> LineFinder<'a>
        ensures { FindsIn (lines_by_feed text.now) result }
    {
        LineFinder {
            text,
            above: 0,
            left: text,
        }
    }

    /// Leaves what stands below so many lines.
    fn leave(&mut self, above: usize)
        ensures { IsLeft above self.old self.new }
    {
        self.left = match above.checked_sub(self.above) {
            Some(more) => below_first(self.left, more),
            None => below_first(self.text, above),
        };
        self.above = above;
    }

    /// The line with a number, counted from 1.
    pub fn line_at(&mut self, number: usize) -> Option<&'a str>
        ensures { IsFound number self.old self.new (option_copied result) }
    {
        let above = number.checked_sub(1)?;
        self.leave(above);
        first_of(self.left)
    }
}
