//! A word that is no number, or one that can't stand in its place.

use crate::program::habit::habit_in;
use crate::program::units::{mantissa_help, ticks_help};
use board::Board;
use sentences::Figure::Number;
use sentences::Word::{Name, Text};
use sentences::{Advice, Sentence, say};
use seq_program::number_within;

/// How a number is written.
const FORM: &str =
    "a number is decimal without leading zeros, or 0x and one to four hexadecimal digits";

/// A word in the place of a number, and the least and the most that may stand there.
#[derive(Clone, Copy)]
pub(crate) struct Misplaced<'a> {
    pub word: &'a str,
    pub low: u32,
    pub high: u32,
}

/// How a command of the instruction `write` is written, where that is the word's.
fn write_help<'a>(words: &[&'a str], high: u32) -> Option<Sentence<'a>> {
    if words.first().copied() != Some("write") {
        return None;
    }
    let command = Name(words.get(2).copied()?);
    let size = if high == 255 { "byte" } else { "word" };
    Some(say![{command} " is written as a " {Text(size)}])
}

/// The exponent of a target's voltages.
fn exponent_of(board: &Board, name: &str) -> Option<i8> {
    let target = board.target(board.target_named(name)?)?;
    Some(target.exponent())
}

/// Whether a word says on or off.
fn is_switch(word: &str) -> bool {
    word.eq_ignore_ascii_case("on") || word.eq_ignore_ascii_case("off")
}

/// What a word says that is no number: a time, a voltage, or what OPERATION is to do.
fn meaning<'a>(board: &Board, words: &[&'a str], word: &'a str) -> Option<Sentence<'a>> {
    match words {
        ["wait", ..] => ticks_help(word),
        ["write", _, "OPERATION", ..] if is_switch(word) => {
            Some(say!["0x80 turns on, 0x00 turns off"])
        }
        ["write", target, command, ..] if command.starts_with("VOUT_") => {
            mantissa_help(word, exponent_of(board, target)?)
        }
        _ => None,
    }
}

/// What may help where a number can't stand.
fn number_help<'a>(
    board: &Board,
    words: &[&'a str],
    misplaced: Misplaced<'a>,
) -> Option<Sentence<'a>> {
    if let Some(habit) = habit_in(words) {
        return Some(say![{ Text(habit) }]);
    }
    if number_within(0, u32::MAX, misplaced.word).is_some() {
        return write_help(words, misplaced.high);
    }
    match meaning(board, words, misplaced.word) {
        Some(meaning) => Some(meaning),
        None => Some(say![{ Text(FORM) }]),
    }
}

/// What is said of a word in a line that stands in the place of a number.
pub(crate) fn bad_number<'a>(
    board: &Board,
    words: &[&'a str],
    misplaced: Misplaced<'a>,
) -> Advice<'a> {
    Advice {
        message: say![
            "expected a number from " (Number(u64::from(misplaced.low))) " to "
            (Number(u64::from(misplaced.high))) ", found " {Name(misplaced.word)}
        ],
        help: number_help(board, words, misplaced),
    }
}
