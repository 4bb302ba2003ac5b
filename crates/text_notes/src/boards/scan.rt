//! The lines of a board file at which its tables and keys stand. They are found by their looks, not
//! by TOML's rules: where a file is written in another way, a line above is named.

use crate::boards::lines::{Quotes, SayingLine, without_comment};
use board::Place;

/// How many inline tables begin on a line.
fn opening_braces(line: &str) -> usize {
    let mut quotes = Quotes::none();
    without_comment(line)
        .bytes()
        .filter(|byte| !quotes.take_in(*byte) && *byte == b'{')
        .count()
}

/// What stands between the brackets of a header, `[[target]]` or `[target]`.
fn header_on(line: &str) -> Option<&str> {
    let inner = without_comment(line).strip_prefix('[')?.strip_suffix(']')?;
    let name = match inner.strip_prefix('[') {
        Some(inner) => inner.strip_suffix(']')?,
        None => inner,
    };
    Some(name.trim().trim_matches('"'))
}

/// The headers of tables that stand by themselves.
const TABLES: [&str; 2] = ["target", "rail"];

/// All headers.
const HEADERS: [&str; 3] = ["target", "rail", "target.allow"];

/// Whether a line is a header with one of these names.
fn is_header(line: &str, names: &[&str]) -> bool {
    header_on(line).is_some_and(|name| names.contains(&name))
}

/// The key that a line begins with.
fn key_on(line: &str) -> Option<&str> {
    let (key, _) = without_comment(line).split_once('=')?;
    Some(key.trim().trim_matches('"'))
}

/// The place of the header of an index among those with this name.
fn header_line(lines: &[SayingLine<'_>], name: &str, index: usize) -> Option<usize> {
    let mut headers = lines
        .iter()
        .enumerate()
        .filter(|line| header_on(line.1.line) == Some(name));
    Some(headers.nth(index)?.0)
}

/// The lines from the first on, before the next of these headers.
fn own_lines<'a>(lines: &'a [SayingLine<'a>], headers: &[&str]) -> &'a [SayingLine<'a>] {
    let mut behind = lines.iter().skip(1);
    let below = behind.position(|line| is_header(line.line, headers));
    let end = below.map_or(lines.len(), |below| below.saturating_add(1));
    lines.get(..end).unwrap_or(lines)
}

/// The place of a key of the table whose lines begin here.
fn key_line(lines: &[SayingLine<'_>], key: &str) -> Option<usize> {
    own_lines(lines, &HEADERS)
        .iter()
        .position(|line| key_on(line.line) == Some(key))
}

/// The place of the entry of an index that has a header, below the header of its target.
fn entry_header(lines: &[SayingLine<'_>], index: usize) -> Option<usize> {
    header_line(own_lines(lines, &TABLES), "target.allow", index)
}

/// The place of the entry of an index that stands in braces, in a list that begins here.
fn entry_in_braces(lines: &[SayingLine<'_>], index: usize) -> Option<usize> {
    let mut above = 0usize;
    for (place, line) in lines.iter().enumerate() {
        if is_header(line.line, &HEADERS) {
            return None;
        }
        above = above.saturating_add(opening_braces(line.line));
        if above > index {
            return Some(place);
        }
    }
    None
}

/// The lines from a place on.
fn from_place<'a>(lines: &'a [SayingLine<'a>], place: usize) -> &'a [SayingLine<'a>] {
    lines.get(place..).unwrap_or(&[])
}

/// The place of an entry below the header of its target.
fn entry_line(lines: &[SayingLine<'_>], index: usize) -> Option<usize> {
    if let Some(place) = entry_header(lines, index) {
        return Some(place);
    }
    let list = key_line(lines, "allow")?;
    let within = entry_in_braces(from_place(lines, list), index)?;
    Some(list.saturating_add(within))
}

/// The place of a target or a rail, or of the list of them.
fn item_line(lines: &[SayingLine<'_>], name: &str, index: usize) -> Option<usize> {
    match header_line(lines, name, index) {
        None => key_line(lines, name),
        found => found,
    }
}

/// The place of a table, or of what it stands in.
fn table_line(lines: &[SayingLine<'_>], table: Place) -> Option<usize> {
    match table {
        Place::Board => None,
        Place::Target(index) => item_line(lines, "target", index),
        Place::Rail(index) => item_line(lines, "rail", index),
        Place::Entry { target, entry } => {
            let above = item_line(lines, "target", target)?;
            let within = entry_line(from_place(lines, above), entry).unwrap_or(0);
            Some(above.saturating_add(within))
        }
    }
}

/// The place of a key of the board's own, or of the first table of that name.
fn board_key_line(lines: &[SayingLine<'_>], key: &str) -> Option<usize> {
    let first = lines.first()?;
    if is_header(first.line, &HEADERS) {
        return header_line(lines, key, 0);
    }
    key_line(lines, key).or(header_line(lines, key, 0))
}

/// The place of a table, or of a key in it. Where that isn't found, it is one above, if any is.
pub(crate) fn place_of(lines: &[SayingLine<'_>], table: Place, key: Option<&str>) -> Option<usize> {
    match (table, key) {
        (Place::Board, Some(key)) => board_key_line(lines, key),
        (_, None) => table_line(lines, table),
        (_, Some(key)) => {
            let above = table_line(lines, table)?;
            let within = key_line(from_place(lines, above), key).unwrap_or(0);
            Some(above.saturating_add(within))
        }
    }
}

/// The number of the line of a table, or of a key in it, counted from 1. Where that isn't found, it
/// is a line above.
pub(crate) fn number_of(lines: &[SayingLine<'_>], table: Place, key: Option<&str>) -> usize {
    let line = place_of(lines, table, key).and_then(|place| lines.get(place));
    line.map_or(1, |line| line.number)
}
