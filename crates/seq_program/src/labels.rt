//! The labels of a text: each names the place of the next instruction.

ghost use Rattle.std.specs.Prelude.{◌≡◌, ◌<◌, ◌≤◌, ◌+◌, ◌++◌, ◌∷◌, [], ◌==◌, false, map};
ghost use Rattle.std.specs.Prelude.{nat_lt, option_copied, IfErr, IfOk, OnOk};
ghost use Rattle.std.specs.List.{list_all};
ghost use Rattle.indexmap.specs.IndexMap.{values};
ghost use Rattle.seq_program.specs.declared.fault.ProgramFault.TheVariants.{Memory};
ghost use Rattle.seq_program.specs.Labels.{label_name, label_in, has_label};
ghost use Rattle.seq_program.specs.Labels.{with_label, with_labels, labels_on, places_on};
ghost use Rattle.seq_program.specs.Labels.{labels_of};
ghost use Rattle.seq_program.specs.Labels.{place_of, line_of, is_first};
ghost use Rattle.seq_program.specs.PassViews.{labels_view};
ghost use Rattle.texts.specs.Words.{lines_by_feed};

use crate::fault::ProgramFault;
use crate::operand::label_of;
use indexmap::IndexMap;
use std::alloc::Global;
use texts::{first_by_feed, without_comment, words_of};

/// The place that a label names, and its line.
#[derive(Clone, Copy)]
pub(crate) struct LabelAt {
    pub place: usize,
    pub line: usize,
}

/// The labels of a text, the first of each name.
pub(crate) type Labels = IndexMap<String, LabelAt>;

/// The name before a colon.
fn label_name(word: &str) -> Option<&str>
    ensures { option_copied result ≡ label_name word.now }
{
    label_of(word.strip_suffix(":")?)
}

/// The label that a line's words are.
pub fn label_in<'a>(words: &[&'a str]) -> Option<&'a str>
    ensures { option_copied result ≡ label_in (map (λ w. w.now) words.now) }
{
    match words {
        [word] => label_name(word),
        _ => None,
    }
}

fn has_label(labels: &Labels, name: &str) -> bool
    ensures { result ≡ has_label name.now (labels_view labels.now) }
{
    labels.contains_key(name)
}

/// Adds a label that is new.
fn add_new(alloc: Global, labels: &mut Labels, name: &str, at: LabelAt) -> Result<(), ProgramFault>
    requires { has_label name.now (labels_view labels.old) ≡ false }
    ensures added { OnOk result (labels_view labels.new ≡ labels_view labels.old
        ++ record { name = name.now; place = at.place; line = at.line } ∷ []) }
    ensures err { IfErr result (λ e. e ≡ Memory) }
{
    labels.insert(String::from_str(alloc, name)?, at)?;
    Ok(())
}

/// Adds a label, where it is the first of its name.
fn add_label(
    alloc: Global,
    labels: &mut Labels,
    name: &str,
    at: LabelAt,
) -> Result<(), ProgramFault>
    ensures added { OnOk result (labels_view labels.new ≡ with_label (labels_view labels.old)
        (record { name = name.now; place = at.place; line = at.line })) }
    ensures err { IfErr result (λ e. e ≡ Memory) }
{
    if has_label(labels, name) {
        return Ok(());
    }
    add_new(alloc, labels, name, at)
}

/// Adds the label of a line of these words, if it is one, and gives the place after the line.
fn place_after(
    alloc: Global,
    labels: &mut Labels,
    at: LabelAt,
    words: &[&str],
) -> Result<usize, ProgramFault>
    requires { at.place < at.line }
    ensures added { OnOk result (labels_view labels.new ≡ with_labels (labels_view labels.old)
        (labels_on at.line at.place (label_in (map (λ w. w.now) words.now)))) }
    ensures place { IfOk result (λ place. place ≡ at.place
        + places_on (map (λ w. w.now) words.now) (label_in (map (λ w. w.now) words.now))) }
    ensures few { IfOk result (λ place. place ≤ at.line) }
    ensures err { IfErr result (λ e. e ≡ Memory) }
{
    if let Some(name) = label_in(words) {
        add_label(alloc, labels, name, at)?;
        return Ok(at.place);
    }
    match words {
        [] => Ok(at.place),
        [_, ..] => Ok(at.place + 1),
    }
}

/// The labels of a text's lines.
#[tactic(auto, using(crate::proofs::LabelEntries::with_labels_append))]
pub(crate) fn labels_of(alloc: Global, text: &str) -> Result<Labels, ProgramFault>
    ensures value { IfOk result
        (λ labels. labels_view labels ≡ labels_of (lines_by_feed text.now)) }
    ensures err { IfErr result (λ e. e ≡ Memory) }
{
    let mut labels = IndexMap::new(alloc);
    let mut place = 0;
    let mut number = 1;
    let mut rest = text;
    while let Some((line, below)) = first_by_feed(rest) {
        let words = words_of(alloc, without_comment(line))?;
        let at = LabelAt {
            place,
            line: number,
        };
        place = place_after(alloc, &mut labels, at, &words)?;
        number += 1;
        rest = below;
    }
    Ok(labels)
}

/// The place that a label names.
pub(crate) fn place_of(labels: &Labels, name: &str) -> Option<usize>
    ensures { result ≡ place_of (labels_view labels.now) name.now }
{
    Some(labels.get(name)?.place)
}

fn line_of(labels: &Labels, name: &str) -> Option<usize>
    ensures { result ≡ line_of (labels_view labels.now) name.now }
{
    Some(labels.get(name)?.line)
}

/// Whether a line is the first that has the label.
pub(crate) fn is_first(labels: &Labels, line: usize, name: &str) -> bool
    ensures { result ≡ is_first (labels_view labels.now) line name.now }
{
    match line_of(labels, name) {
        Some(first) => first == line,
        None => false,
    }
}

fn places_are_below(labels: &Labels, count: usize) -> bool
    ensures { result ≡ list_all (λ at. nat_lt at.place count) (values labels.now) }
{
    labels.values().all(|at| at.place < count)
}

/// Whether each label stands before so many places.
pub(crate) fn are_below(labels: &Labels, count: usize) -> bool
    ensures { result ≡ list_all (λ l. nat_lt l.place count) (labels_view labels.now) }
{
    places_are_below(labels, count)
}
