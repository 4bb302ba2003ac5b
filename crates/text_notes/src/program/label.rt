//! Labels that stand nowhere, or twice.

use crate::Result;
use indexmap::IndexMap;
use notes::lowercase_suggestion;
use sentences::Figure::Count;
use sentences::Word::Name;
use sentences::{Advice, Remark, say};
use seq_program::{ProgramFault, label_in};
use std::alloc::Global;
use texts::{first_by_feed, without_comment, words_of};

/// How many labels are compared with one that stands nowhere, at most.
const MOST_COMPARED: usize = 1024;

/// How a label stands.
const LABEL: &str =
    "a label stands alone on a line, with a colon, as \"good:\", above the instruction that it \
     names";

/// The labels of a text, each with the number of the first line that has it.
pub(crate) type LabelLines<'a> = IndexMap<&'a str, usize>;

/// Whether a fault is one of a label.
fn is_of_label(fault: ProgramFault) -> bool {
    matches!(
        fault,
        ProgramFault::UnknownLabel(_) | ProgramFault::SameLabel(_)
    )
}

/// The label that a line is.
fn label_on<'a>(alloc: Global, line: &'a str) -> Result<Option<&'a str>> {
    // there may be millions of them
    if line.is_empty() {
        return Ok(None);
    }
    let words = words_of(alloc, without_comment(line))?;
    Ok(label_in(&words))
}

/// The labels of a text.
fn labels_of<'a>(alloc: Global, text: &'a str) -> Result<LabelLines<'a>> {
    let mut labels = IndexMap::new(alloc);
    let mut number = 1;
    let mut rest = text;
    while let Some((line, below)) = first_by_feed(rest) {
        if let Some(label) = label_on(alloc, line)? {
            if !labels.contains_key(label) {
                labels.insert(label, number)?;
            }
        }
        number += 1;
        rest = below;
    }
    Ok(labels)
}

/// The labels of a text, where one of its faults is of a label, and else none.
pub(crate) fn labels_for<'a>(
    alloc: Global,
    text: &'a str,
    faults: &[ProgramFault],
) -> Result<LabelLines<'a>> {
    if faults.iter().any(|fault| is_of_label(*fault)) {
        labels_of(alloc, text)
    } else {
        Ok(IndexMap::new(alloc))
    }
}

/// What is said of a line that jumps to no label.
pub(crate) fn unknown_label(
    alloc: Global,
    labels: &LabelLines<'_>,
    words: &[&str],
) -> Result<Remark> {
    let word = words.last().copied().unwrap_or("");
    let names = labels.keys().take(MOST_COMPARED);
    let names: Vec<&str> = names.map(|name| *name).collect(alloc)?;
    let help = match lowercase_suggestion(alloc, word, &names)? {
        Some(help) => help,
        None => String::from_str(alloc, LABEL)?,
    };
    say!["no line has the label " {Name(word)}].helped_by(alloc, Some(help))
}

/// What is said of a line whose label stands before.
pub(crate) fn same_label(alloc: Global, labels: &LabelLines<'_>, words: &[&str]) -> Result<Remark> {
    let label = label_in(words).unwrap_or("");
    let first = labels.get(label).copied();
    let help = first.map(|line| say!["it stands first in line "(Count(line))]);
    let message = say!["the label " {Name(label)} " stands twice"];
    Advice { message, help }.told(alloc)
}
