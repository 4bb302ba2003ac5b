//! The mark below a word of a line.

ghost use Rattle.std.specs.Prelude.{◌≡◌, ◌≤◌, ◌++◌, length, map, replicate, string_bytes, IfOk};
ghost use Rattle.std.specs.Prelude.{OnOk};
ghost use Rattle.std.specs.Str.{chars};
ghost use Rattle.notes.specs.Marks.{blank, column_behind, mark_of};

use std::alloc::{AllocError, Global};

/// What stands below a character before the word.
fn blank(c: char) -> char
    ensures { result ≡ blank c }
{
    if c == '\t' { '\t' } else { ' ' }
}

/// Adds a blank for each character of what stands before the word.
fn push_blanks(mark: &mut String, before: &str) -> Result<(), AllocError>
    ensures { OnOk result
        (string_bytes mark.new ≡ string_bytes mark.old ++ map blank (chars before.now)) }
{
    for c in before.chars() {
        mark.push(blank(c))?;
    }
    Ok(())
}

/// Adds so many carets.
fn push_carets(mark: &mut String, count: usize) -> Result<(), AllocError>
    ensures { OnOk result (string_bytes mark.new ≡ string_bytes mark.old ++ replicate count 94) }
{
    for _ in 0..count {
        mark.push('^')?;
    }
    Ok(())
}

/// How many characters a text has.
fn char_count(text: &str) -> usize
    ensures count { result ≡ length (chars text.now) }
    ensures few { result ≤ length text.now }
{
    text.chars().count()
}

/// The mark below a word, behind what stands before it in its line.
pub(crate) fn mark_of(alloc: Global, before: &str, word: &str) -> Result<String, AllocError>
    ensures { IfOk result (λ mark. string_bytes mark ≡ mark_of before.now word.now) }
{
    let mut mark = String::new(alloc);
    push_blanks(&mut mark, before)?;
    push_carets(&mut mark, char_count(word).max(1))?;
    Ok(mark)
}

/// The column at which a word begins behind this, counted from 1.
pub(crate) fn column_behind(before: &str) -> usize
    ensures { result ≡ column_behind before.now }
{
    char_count(before) + 1
}
