//! Warnings of labels to which no line of an accepted program jumps.

ghost use Rattle.std.specs.Prelude.{◌≡◌, ◌≤◌, codes, length, option_copied, string_bytes, IfOk};
ghost use Rattle.std.specs.List.{filter_map};
ghost use Rattle.diagnostics.specs.LabelWarnings.{AreLabelsTold, AreOnLines, StayOnLines, TellMore};
ghost use Rattle.diagnostics.specs.LabelWarnings.{more_labels, unused_line};
ghost use Rattle.notes.specs.Notes.{IsQuoting};
ghost use Rattle.texts.specs.Words.{lines_by_feed};

use crate::Result;
use crate::warning::allowed::{allowing, is_allowed};
use notes::{Level, LineFinder, Note};
use program_lints::unused_labels;
use sentences::{note_on, say};
use std::alloc::Global;

/// How many labels are warned of by themselves at most.
const MOST_LABELS: usize = 20;

/// The name by which a comment allows such a label.
const UNUSED: &str = "unused-label";

/// The warning of the label on this line.
fn label_warning(alloc: Global, number: usize, line: Option<&str>) -> Result<Note>
    ensures { IfOk result
        (IsQuoting Level.Warning (codes "%program") number (option_copied line.entry)) }
{
    let help = allowing("take it out", UNUSED, "it is meant");
    let remark = say!["no line jumps to this label"]
        .with_help(help)
        .told(alloc)?;
    note_on(alloc, Level::Warning, "%program", number, line, remark)
}

/// A warning of the label on each of these lines.
fn warnings_on(alloc: Global, text: &str, numbers: &[usize]) -> Result<Vec<Note>>
    ensures { IfOk result
        (λ warnings. AreOnLines (lines_by_feed text.now) numbers.now warnings.items) }
{
    let mut lines = LineFinder::of(text);
    let mut warnings = Vec::new(alloc);
    for number in numbers {
        let line = lines.line_at(*number);
        warnings.push(label_warning(alloc, *number, line)?)?;
    }
    Ok(warnings)
}

/// Those of some lines on which no comment allows a label that no line jumps to.
fn not_allowed(alloc: Global, text: &str, numbers: &[usize]) -> Result<Vec<usize>>
    ensures { IfOk result (λ told.
        told.items ≡ filter_map (unused_line (lines_by_feed text.now)) numbers.now) }
{
    let mut lines = LineFinder::of(text);
    let mut told = Vec::new(alloc);
    for number in numbers {
        let line = lines.line_at(*number).unwrap_or("");
        if !is_allowed(alloc, line, UNUSED)? {
            told.push(*number)?;
        }
    }
    Ok(told)
}

/// How many labels there are more.
fn more_text(alloc: Global, more: usize) -> Result<String>
    ensures { IfOk result (λ text. string_bytes text ≡ more_labels more) }
{
    if more == 1 {
        String::from_str(alloc, "no line jumps to 1 more label below")
    } else {
        format!(in alloc; "no line jumps to {more} more labels below")
    }
}

/// The same warnings, where the last tells how many labels there are more.
fn telling_more(alloc: Global, mut warnings: Vec<Note>, more: usize) -> Result<Vec<Note>>
    ensures lines { IfOk result (λ told. StayOnLines warnings.items told.items) }
    ensures more { IfOk result (λ told. 1 ≤ length warnings.items → TellMore more told.items) }
{
    if more == 0 {
        return Ok(warnings);
    }
    let facts = vec![in alloc; more_text(alloc, more)?]?;
    if let Some(last) = warnings.pop() {
        warnings.push(Note { facts, ..last })?;
    }
    Ok(warnings)
}

/// The warnings of labels that no line jumps to and no comment allows: of the first 20 each on its
/// line, and how many there are more.
pub(crate) fn label_warnings(alloc: Global, text: &str) -> Result<Vec<Note>>
    ensures { IfOk result (λ warnings. AreLabelsTold (lines_by_feed text.now) warnings.items) }
{
    let unused = unused_labels(alloc, text)?;
    let told = not_allowed(alloc, text, &unused)?;
    let (first, more) = told.split_at(MOST_LABELS.min(told.len()));
    let warnings = warnings_on(alloc, text, first)?;
    telling_more(alloc, warnings, more.len())
}
