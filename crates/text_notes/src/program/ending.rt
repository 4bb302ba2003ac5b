//! Programs that don't end, or are too long.

use crate::Result;
use sentences::Figure::Count;
use sentences::Word::Name;
use sentences::{Remark, say};
use seq_program::{MOST_PLACES, label_in};
use std::alloc::Global;
use texts::{first_by_feed, without_comment, words_of};

/// A line and its number.
#[derive(Clone, Copy)]
struct Numbered<'a> {
    line: &'a str,
    number: usize,
}

/// Whether there is a word on a line.
fn says_something(line: &str) -> bool {
    without_comment(line).bytes().any(|byte| byte != b' ')
}

/// The last line that says something.
fn last_line(text: &str) -> Option<Numbered<'_>> {
    let mut last = None;
    let mut number = 1;
    let mut rest = text;
    while let Some((line, below)) = first_by_feed(rest) {
        if says_something(line) {
            last = Some(Numbered { line, number });
        }
        number += 1;
        rest = below;
    }
    last
}

/// What is said of a program that doesn't end.
pub(crate) fn no_end(alloc: Global, text: &str) -> Result<Remark> {
    let help = "a program's last instruction is \"end\" or \"fail\"";
    let Some(Numbered { line, number }) = last_line(text) else {
        let message = say!["the program has no instruction"];
        return message.with_text(help).told(alloc);
    };
    let words = words_of(alloc, without_comment(line))?;
    let number = Count(number);
    let message = match label_in(&words) {
        Some(label) => say![
            "the program doesn't end: the label " {Name(label)} " in line " (number)
            " has no instruction"
        ],
        None => say![
            "the program doesn't end: its last instruction is "
            {Name(words.first().copied().unwrap_or(""))} " in line " (number)
        ],
    };
    message.with_text(help).told(alloc)
}

/// How many lines of a text have an instruction.
fn instruction_count(alloc: Global, text: &str) -> Result<usize> {
    let mut count = 0usize;
    for line in text.split('\n') {
        let words = words_of(alloc, without_comment(line))?;
        if !words.is_empty() && label_in(&words).is_none() {
            count = count.saturating_add(1);
        }
    }
    Ok(count)
}

/// What is said of the first instruction that is too many.
pub(crate) fn too_long(alloc: Global, text: &str) -> Result<Remark> {
    let (most, count) = (Count(MOST_PLACES), Count(instruction_count(alloc, text)?));
    say!["a program has at most " (most) " instructions, and this one has " (count)]
        .alone()
        .told(alloc)
}
