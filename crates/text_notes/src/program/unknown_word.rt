//! A first word that is no instruction's, on a line that is no label.

use crate::Result;
use crate::program::habit::habit_in;
use crate::program::usage::instruction_words;
use notes::lowercase_suggestion;
use sentences::Word::{Name, Text};
use sentences::{Remark, say};
use std::alloc::Global;
use texts::is_name;

/// What is meant where one file stands in the place of another.
pub(crate) const SWAPPED: &str = "the board file comes first, and then the program";

/// What a label looks like, where a word with a colon is none.
fn label_rule(words: &[&str]) -> &'static str {
    match words {
        [_] => "a label has 1 to 32 of a to z, 0 to 9 and _, the first a letter, and then a colon",
        _ => "a label stands alone on its line, and its colon at its end",
    }
}

/// Whether a line looks like one of a board file.
fn is_of_board(words: &[&str]) -> bool {
    match words {
        [word, ..] if word.starts_with('[') => true,
        [_, "=", ..] => true,
        _ => false,
    }
}

/// Proposes a colon, or another word.
fn word_help(alloc: Global, word: &str, words: &[&str]) -> Result<Option<String>> {
    let names = instruction_words(alloc)?;
    match lowercase_suggestion(alloc, word, &names)? {
        None if words.len() == 1 && is_name(word) => {
            let help = say!["a label ends with a colon: \"" {Text(word)} ":\""];
            Ok(Some(help.told(alloc)?))
        }
        help => Ok(help),
    }
}

/// What a line looks like that begins with such a word.
fn look_of(words: &[&str]) -> Option<&'static str> {
    if let Some(habit) = habit_in(words) {
        return Some(habit);
    }
    if is_of_board(words) {
        return Some(SWAPPED);
    }
    if words.iter().any(|word| word.contains(':')) {
        return Some(label_rule(words));
    }
    None
}

/// What is said of a line that begins with such a word.
pub(crate) fn unknown_word(alloc: Global, words: &[&str]) -> Result<Remark> {
    let word = words.first().copied().unwrap_or("");
    let help = match look_of(words) {
        Some(look) => Some(String::from_str(alloc, look)?),
        None => word_help(alloc, word, words)?,
    };
    say!["unknown instruction " {Name(word)}].helped_by(alloc, help)
}
