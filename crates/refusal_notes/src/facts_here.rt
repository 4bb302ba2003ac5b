//! What is known at a place, in words.

use crate::Result;
use crate::kept::kept_values;
use board::Board;
use facts::{GoodSet, PageSet, Row, Rule};
use sentences::Word::{Pages, Text};
use sentences::{Kept, Sentence, Word, quoted_names, rail_names, say, told};
use std::alloc::Global;

/// Whether a rail is in a set.
pub(crate) fn has_rail(good: GoodSet, index: usize) -> bool {
    u8::try_from(index).is_ok_and(|index| good.contains(index))
}

/// What a target may keep.
fn kept_known<'a>(
    board: &'a Board,
    row: &'a Row,
    kept: Kept,
    target: usize,
) -> Option<Sentence<'a>> {
    let (name, values) = (Word::target(board, target), kept_values(row, kept, target)?);
    Some(say![{Text(kept.command())} " of " {name} " may be " {values} " here"])
}

/// What PAGE of a target may be, and which rails are good.
fn order_text(
    alloc: Global,
    board: &Board,
    target: usize,
    pages: &PageSet,
    good: &[&str],
) -> Result<String> {
    let (name, pages) = (Word::target(board, target), Pages(pages));
    if good.is_empty() {
        say!["PAGE of " {name} " may be " {pages} " here, and no rail is known to be good"].told(
            alloc,
        )
    } else {
        let names = quoted_names(alloc, good)?;
        let good = Text(&names);
        say!["PAGE of " {name} " may be " {pages} " here, and known to be good: " {good}].told(
            alloc,
        )
    }
}

/// The same, where it is known.
fn order_known(alloc: Global, board: &Board, row: &Row, target: usize) -> Result<Option<String>> {
    let good = rail_names(alloc, board, row.good)?;
    match row.pages.get(target) {
        Some(pages) => Ok(Some(order_text(alloc, board, target, pages, &good)?)),
        None => Ok(None),
    }
}

/// The facts that matter for a rule on a message to a target.
pub(crate) fn facts_here(
    alloc: Global,
    board: &Board,
    row: &Row,
    target: usize,
    rule: Rule,
) -> Result<Option<String>> {
    match rule {
        Rule::K2 | Rule::K4 => told(alloc, kept_known(board, row, Kept::Page, target)),
        Rule::K3 => told(alloc, kept_known(board, row, Kept::Protect, target)),
        Rule::K5 => order_known(alloc, board, row, target),
        _ => Ok(None),
    }
}
