//! Labels of a program's text to which no line jumps.

ghost use Rattle.std.specs.Prelude.{◌≡◌, ◌||◌, ℕ, List, map, IfOk, OnOk};
ghost use Rattle.program_lints.specs.UnusedLabels.{ends_with, is_among, is_jumped_to, unused_at};
ghost use Rattle.program_lints.specs.UnusedLabels.{unused_among, unused_labels};
ghost use Rattle.seq_program.specs.Labels.{label_in};
ghost use Rattle.texts.specs.Words.{lines_by_feed};

use indexmap::IndexSet;
use seq_program::label_in;
use std::alloc::{AllocError, Global};
use texts::{first_by_feed, without_comment, words_of};

/// Adds the word at the end of a line of several.
fn add_end<'a>(ends: &mut IndexSet<&'a str>, words: &[&'a str]) -> Result<(), AllocError>
    ensures { OnOk result ((name : List ℕ) → is_among ends.new name
        ≡ (is_among ends.old name || ends_with name (map (λ w. w.now) words.now))) }
{
    if let [_, .., end] = words {
        ends.insert(*end)?;
    }
    Ok(())
}

/// The words at the ends of lines of several: where a line jumps, that is its label, and else a
/// number.
fn ends_of<'a>(alloc: Global, text: &'a str) -> Result<IndexSet<&'a str>, AllocError>
    ensures { IfOk result (λ ends. is_among ends ≡ is_jumped_to (lines_by_feed text.now)) }
{
    let mut ends = IndexSet::new(alloc);
    let mut rest = text;
    while let Some((line, below)) = first_by_feed(rest) {
        let words = words_of(alloc, without_comment(line))?;
        add_end(&mut ends, &words)?;
        rest = below;
    }
    Ok(ends)
}

/// The number of a line of these words, if it has a label that isn't among the ends.
fn unused_at(ends: &IndexSet<&str>, number: usize, words: &[&str]) -> Option<usize>
    ensures { result
        ≡ unused_at (is_among ends.now) number (label_in (map (λ w. w.now) words.now)) }
{
    match label_in(words) {
        Some(name) if !ends.contains(name) => Some(number),
        _ => None,
    }
}

/// The lines with such labels.
fn unused_among(alloc: Global, ends: &IndexSet<&str>, text: &str) -> Result<Vec<usize>, AllocError>
    ensures { IfOk result
        (λ numbers. numbers.items ≡ unused_among (is_among ends.now) 1 (lines_by_feed text.now)) }
{
    let mut numbers = Vec::new(alloc);
    let mut number = 1;
    let mut rest = text;
    while let Some((line, below)) = first_by_feed(rest) {
        let words = words_of(alloc, without_comment(line))?;
        if let Some(unused) = unused_at(ends, number, &words) {
            numbers.push(unused)?;
        }
        number += 1;
        rest = below;
    }
    Ok(numbers)
}

/// The lines of a program's text with a label to which no line jumps, counted from 1, in order. Of
/// a program that can be read, a line of several words that ends with a label jumps to it.
///
/// AllocError is answered where a growth was refused.
pub fn unused_labels(alloc: Global, text: &str) -> Result<Vec<usize>, AllocError>
    ensures { IfOk result (λ numbers. numbers.items ≡ unused_labels (lines_by_feed text.now)) }
{
    let ends = ends_of(alloc, text)?;
    unused_among(alloc, &ends, text)
}
