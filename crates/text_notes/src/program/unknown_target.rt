//! A word that names no target of the board.

use crate::Result;
use board::Board;
use notes::lowercase_suggestion;
use sentences::Figure::Number;
use sentences::Word::{Name, Text};
use sentences::{Remark, Sentence, Word, quoted_names, say};
use std::alloc::Global;

/// The target and the page of a rail, where a word names one.
fn rail_help<'a>(board: &'a Board, word: &'a str) -> Option<Sentence<'a>> {
    let rail = board.rail(board.rail_named(word)?)?;
    Some(say![
        {Name(word)} " is a rail: it is at page " (Number(u64::from(rail.page()))) " of the target "
        {Word::target(board, rail.target())}
    ])
}

/// What is said of a word that names none of what a board has of a kind.
pub(crate) fn unnamed(
    alloc: Global,
    kind: &'static str,
    word: &str,
    names: &[&str],
    help: Option<String>,
) -> Result<Remark> {
    let names = quoted_names(alloc, names)?;
    say!["unknown " {Text(kind)} " " {Name(word)} ": the board has " {Text(&names)}].helped_by(
        alloc, help,
    )
}

/// What is said of a word that is no target's name.
pub(crate) fn target_remark(alloc: Global, board: &Board, word: &str) -> Result<Remark> {
    let targets = 0..board.targets().len();
    let names: Vec<&str> = targets
        .map(|target| board.target_name(target).unwrap_or(""))
        .collect(alloc)?;
    let help = match rail_help(board, word) {
        Some(help) => Some(help.told(alloc)?),
        None => lowercase_suggestion(alloc, word, &names)?,
    };
    unnamed(alloc, "target", word, &names, help)
}

/// What is said of a line with such a word.
pub(crate) fn unknown_target(alloc: Global, board: &Board, words: &[&str]) -> Result<Remark> {
    target_remark(alloc, board, words.get(1).copied().unwrap_or(""))
}
