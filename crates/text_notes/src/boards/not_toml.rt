//! Texts that are no TOML document.

use crate::Result;
use crate::boards::finding::Finding;
use crate::program::unknown_word::SWAPPED;
use crate::program::usage::usage_of;
use notes::line_at;
use sentences::Remark;
use std::alloc::Global;
use texts::cut_at_space;
use toml::de::Error;

/// The number of the line behind a text, counted from 1.
fn line_after(text: &str) -> usize {
    let feeds = text.bytes().filter(|byte| *byte == b'\n').count();
    feeds.saturating_add(1)
}

/// What stands in a line of a text before a place, and the word there.
fn word_at(text: &str, start: usize) -> Option<(&str, &str)> {
    let above = text.get(..start)?;
    let before = above.rsplit_once('\n').map_or(above, |(_, before)| before);
    let line = line_at(text.get(start..)?, 1)?;
    let word = cut_at_space(line).map_or(line, |(word, _)| word);
    Some((before, word))
}

/// What may help on a line that TOML refuses.
fn line_help(line: &str) -> Option<&'static str> {
    let line = line.trim();
    if line.starts_with('[') && !line.starts_with("[[") {
        return Some("each target begins with a line [[target]], each rail with [[rail]]");
    }
    let word = cut_at_space(line).map_or(line, |(word, _)| word);
    if usage_of(word).is_some() || word.ends_with(':') {
        return Some(SWAPPED);
    }
    None
}

/// The line above a key at which the same key of its table stands.
fn line_of_twin(above: &str, key: &str) -> Option<usize> {
    let mut found = None;
    for (index, line) in above.split('\n').enumerate() {
        if line.trim().starts_with('[') {
            found = None;
        }
        match line.split_once('=') {
            Some((other, _)) if other.trim() == key => {
                found = found.or(Some(index.saturating_add(1)))
            }
            _ => {}
        }
    }
    found
}

/// What may help where a key stands twice.
fn twin_help(alloc: Global, text: &str, start: usize) -> Result<Option<String>> {
    let (Some(above), Some((_, key))) = (text.get(..start), word_at(text, start)) else {
        return Ok(None);
    };
    let key = key.split('=').next().unwrap_or(key);
    match line_of_twin(above, key) {
        Some(line) => Ok(Some(format!(in alloc; "it stands in line {line} already")?)),
        None => Ok(None),
    }
}

/// What is said of a text that ends too early: its last line is told.
fn cut_short(alloc: Global, number: usize, message: &str) -> Result<Finding<'static>> {
    let message = format!(in alloc; "no TOML document: {message}, behind the last line")?;
    Ok(Finding {
        number: number.saturating_sub(1),
        remark: Remark::bare(message),
        at: None,
    })
}

/// What is said of a text that TOML refuses, at the place that it tells.
pub(crate) fn not_toml<'a>(alloc: Global, text: &'a str, error: &Error) -> Result<Finding<'a>> {
    let start = error.span().map_or(0, |span| span.start);
    let line = line_after(text.get(..start).unwrap_or(""));
    let message = error.message();
    let Some(refused) = line_at(text, line) else {
        return cut_short(alloc, line, message);
    };
    let message = format!(in alloc; "no TOML document: {message}")?;
    let help = match line_help(refused) {
        Some(help) => Some(String::from_str(alloc, help)?),
        None if error.message() == "duplicate key" => twin_help(alloc, text, start)?,
        None => None,
    };
    Ok(Finding {
        number: line,
        remark: Remark { message, help },
        at: word_at(text, start),
    })
}
