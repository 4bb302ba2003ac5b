//! Lines of a file as notes show them.

ghost use Rattle.std.specs.Prelude.{◌≡◌, ◌++◌, flat_map, option_copied, option_map};
ghost use Rattle.std.specs.Prelude.{IfOk, OnOk, string_bytes};
ghost use Rattle.std.specs.Str.{chars};
ghost use Rattle.notes.specs.ShownLines.{is_harmless, are_harmless, is_plain, shown_char};
ghost use Rattle.notes.specs.ShownLines.{IsBeginning, IsEscaped, IsShownAs, IsShown};

use std::alloc::{AllocError, Global};

/// The most bytes of a line that are shown.
const MOST_SHOWN: usize = 200;

/// Whether a character may stand in a note: a terminal might obey control characters, but for tabs.
fn is_harmless(c: char) -> bool
    ensures { result ≡ is_harmless c }
{
    c == '\t' || !c.is_control()
}

/// Whether all characters of a line may.
fn are_harmless(line: &str) -> bool
    ensures { result ≡ are_harmless line.now }
{
    line.chars().all(|c| is_harmless(c))
}

/// Whether a line can be shown as it is.
pub(crate) fn is_plain(line: &str) -> bool
    ensures { result ≡ is_plain line.now }
{
    line.len() <= MOST_SHOWN && are_harmless(line)
}

/// Adds a character, or its number where it is a control character.
fn push_char(text: &mut String, c: char) -> Result<(), AllocError>
    ensures { OnOk result (string_bytes text.new ≡ string_bytes text.old ++ shown_char c) }
{
    if is_harmless(c) {
        text.push(c)
    } else {
        let code = u32::from(c);
        write!(text, "\\u{{{code:x}}}")
    }
}

/// Adds the characters of a text.
fn push_chars(text: &mut String, added: &str) -> Result<(), AllocError>
    ensures { OnOk result (string_bytes text.new
        ≡ string_bytes text.old ++ flat_map shown_char (chars added.now)) }
{
    for c in added.chars() {
        push_char(text, c)?;
    }
    Ok(())
}

/// How many bytes of the beginning of a line are shown: whole characters.
fn shown_size(line: &str) -> usize
    ensures { IsBeginning line.now result }
{
    line.floor_char_boundary(MOST_SHOWN)
}

/// The beginning of a line, with its control characters escaped.
fn escaped(alloc: Global, line: &str) -> Result<String, AllocError>
    ensures { IfOk result (λ text. IsEscaped line.now (string_bytes text)) }
{
    let size = shown_size(line);
    let mut text = String::new(alloc);
    push_chars(&mut text, &line[..size])?;
    if size < line.len() {
        text.push_str("..")?;
    }
    Ok(text)
}

/// A line as it is shown.
fn shown(alloc: Global, line: &str) -> Result<String, AllocError>
    ensures { IfOk result (λ text. IsShownAs line.now (string_bytes text)) }
{
    if is_plain(line) {
        String::from_str(alloc, line)
    } else {
        escaped(alloc, line)
    }
}

/// The same, if there is one.
pub(crate) fn shown_line(alloc: Global, line: Option<&str>) -> Result<Option<String>, AllocError>
    ensures { IfOk result
        (λ text. IsShown (option_copied line.entry) (option_map string_bytes text)) }
{
    match line {
        Some(line) => Ok(Some(shown(alloc, line)?)),
        None => Ok(None),
    }
}
