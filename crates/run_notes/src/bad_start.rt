//! A start that the board doesn't name.

use crate::Result;
use board::Board;
use sentences::Figure::{Count, Hex};
use sentences::Word::{Name, Text};
use sentences::{Advice, Kept, Remark, Word, listed_bytes, say};
use session::Scenario;
use std::alloc::Global;

/// What is wrong with a list of another length.
fn bad_count(board: &Board, kept: Kept, values: &[u8]) -> Option<Advice<'static>> {
    let (found, wanted) = (values.len(), board.targets().len());
    if found == wanted {
        return None;
    }
    Some(say![
        "values of " {Text(kept.command())} ": expected " (Count(wanted)) ", found "
        (Count(found))
    ]
    .with_help(say!["one for each target, in the board's order"]))
}

/// The first target that doesn't start with its value, by its index, and that value.
fn first_other(board: &Board, kept: Kept, values: &[u8]) -> Option<(usize, u8)> {
    for (index, target) in board.targets().iter().enumerate() {
        let value = values.get(index).copied().unwrap_or(0);
        if !kept.starts(target).contains(&value) {
            return Some((index, value));
        }
    }
    None
}

/// What is wrong with a value that its target doesn't start with.
fn bad_value(alloc: Global, board: &Board, kept: Kept, index: usize, value: u8) -> Result<Remark> {
    let starts = board
        .target(index)
        .map_or(&[][..], |target| kept.starts(target));
    let starts = listed_bytes(alloc, starts)?;
    let (target, value) = (Word::target(board, index), Hex(u16::from(value), 2));
    say![{target} " doesn't start with " {Text(kept.command())} " " (value)]
        .with_help(say!["its " {Name(kept.key())} " on the board: " {Text(&starts)}])
        .told(alloc)
}

/// What is said of the start of a scenario.
pub(crate) fn bad_start(alloc: Global, scenario: &Scenario<'_>) -> Result<Remark> {
    let board = &scenario.board;
    let starts = [
        (Kept::Page, scenario.answers.pages.as_slice()),
        (Kept::Protect, scenario.answers.protects.as_slice()),
    ];
    for (kept, values) in starts {
        if let Some(advice) = bad_count(board, kept, values) {
            return advice.told(alloc);
        }
    }
    for (kept, values) in starts {
        if let Some((index, value)) = first_other(board, kept, values) {
            return bad_value(alloc, board, kept, index, value);
        }
    }
    say!["a start that the board doesn't name"]
        .alone()
        .told(alloc)
}
