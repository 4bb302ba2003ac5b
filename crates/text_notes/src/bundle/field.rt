//! The fields of messages and answers: words of the form KEY=VALUE, in a fixed order.

use crate::Result;
use crate::bundle::flawed::Flawed;
use crate::form::form_help;
use bundles::Key;
use notes::lowercase_suggestion;
use sentences::Word::{Name, Text};
use sentences::{Remark, Sentence, say};
use std::alloc::Global;
use texts::pair_of;

/// The words of a line, and the keys that they may have, in their order.
#[derive(Clone, Copy)]
pub(crate) struct FieldLine<'a> {
    pub words: &'a [&'a str],
    pub keys: &'static [Key],
}

impl<'a> FieldLine<'a> {
    /// The key of a word.
    fn key_of(self, word: &str) -> Option<Key> {
        let key = self.keys.iter().find(|key| word.starts_with(key.text()))?;
        Some(*key)
    }

    /// The number of the first word with a key.
    fn place_of(self, key: Key) -> Option<usize> {
        self.words
            .iter()
            .position(|word| word.starts_with(key.text()))
    }

    /// The texts of the keys.
    fn key_texts(self, alloc: Global) -> Result<Vec<&'static str>> {
        self.keys.iter().map(|key| key.text()).collect(alloc)
    }
}

/// What stands behind a key.
fn expected_behind(key: Key) -> &'static str {
    match key {
        Key::Form => "the name of a form",
        Key::Address => "two digits, 00 to 7F",
        Key::Code => "two digits, 0 to 9 or A to F",
        Key::Refuse => "a number from 0 to 65535",
        Key::Took => "1",
        Key::Value | Key::Alerts => "one to four digits, 0 to 9 or A to F",
        Key::Out | Key::Bytes => "bytes of two digits, 0 to 9 or A to F",
        Key::Holds | Key::ContenderHolds => {
            "SLOT:TICKS with commas, slots below 4096 in ascending order, ticks up to 6999"
        }
        Key::Contender => {
            "the address byte of another controller's frame, two digits, a colon, and its data \
             bytes"
        }
    }
}

/// What may help where a word has none of the keys.
fn unknown_help(alloc: Global, fields: FieldLine, word: &str) -> Result<String> {
    let (name, _) = word.split_once('=').unwrap_or((word, ""));
    let typed = format!(in alloc; "{name}=")?;
    let keys = fields.key_texts(alloc)?;
    match lowercase_suggestion(alloc, &typed, &keys)? {
        Some(help) => Ok(help),
        None if word == "-" => String::from_str(alloc, "\"-\" stands alone on its line"),
        None => {
            let keys = keys.join(alloc, ", ")?;
            say!["the fields here are " {Text(&keys)}].told(alloc)
        }
    }
}

/// What is said of a word that has none of the keys.
fn unknown_field(alloc: Global, fields: FieldLine, word: &str) -> Result<Remark> {
    let help = unknown_help(alloc, fields, word)?;
    say!["unknown field " {Name(word)}].helped_by(alloc, Some(help))
}

/// What is said of a field that stands too late, or twice.
fn late_field(alloc: Global, fields: FieldLine, key: Key) -> Result<Remark> {
    let keys = fields.key_texts(alloc)?.join(alloc, ", ")?;
    let help = say!["each field stands once, in this order: " {Text(&keys)}];
    say![{Name(key.text())} " stands behind a later field"]
        .with_help(help)
        .told(alloc)
}

/// What is said of a field that has to be there and isn't.
fn missing_field(key: Key) -> Sentence<'static> {
    match key {
        Key::Code => say!["\"code=\" is missing, as in \"form=readword address=40 code=79\""],
        _ => say![{Name(key.text())} " is missing"],
    }
}

/// Why a field can't stand though its digits are right.
fn misplaced(key: Key, value: &str, before: &str) -> Option<Sentence<'static>> {
    match key {
        Key::ContenderHolds if !before.starts_with(Key::Contender.text()) => {
            Some(say!["\"cholds=\" stands only behind \"contender=\""])
        }
        Key::Code if pair_of(value).is_some() => {
            Some(say!["\"code=\" stands here, which this form hasn't"])
        }
        Key::Address if pair_of(value)? <= 127 => {
            Some(say!["the address 0C is for the form alert, which has no other"])
        }
        _ => None,
    }
}

/// What is said of a field with a value that can't stand.
fn bad_value(alloc: Global, key: Key, value: &str, before: &str) -> Result<Remark> {
    if let Some(message) = misplaced(key, value, before) {
        return message.alone().told(alloc);
    }
    let expected = expected_behind(key);
    let message = say![{Name(key.text())} " takes " {Text(expected)} ", found " {Name(value)}];
    let help = match key {
        Key::Form => Some(form_help(alloc, value)?),
        _ => None,
    };
    message.helped_by(alloc, help)
}

/// What is said of a word that no field takes.
pub(crate) fn word_flaw(alloc: Global, fields: FieldLine, at: usize) -> Result<Flawed> {
    let word = fields.words.get(at).copied().unwrap_or("");
    let remark = match fields.key_of(word) {
        Some(key) => late_field(alloc, fields, key)?,
        None => unknown_field(alloc, fields, word)?,
    };
    Ok(Flawed::of_word(at, remark))
}

/// What is said of a field of this key that can't be read, which would be this word.
pub(crate) fn field_flaw(alloc: Global, fields: FieldLine, key: Key, at: usize) -> Result<Flawed> {
    let word = fields.words.get(at).copied();
    if let Some(value) = word.and_then(|word| word.strip_prefix(key.text())) {
        let before = at
            .checked_sub(1)
            .and_then(|at| fields.words.get(at).copied());
        let remark = bad_value(alloc, key, value, before.unwrap_or(""))?;
        return Ok(Flawed::of_word(at, remark));
    }
    if word.is_some_and(|word| fields.key_of(word).is_none()) {
        return word_flaw(alloc, fields, at);
    }
    match fields.place_of(key) {
        Some(late) => Ok(Flawed::of_word(late, late_field(alloc, fields, key)?)),
        None => Ok(Flawed::of_line(missing_field(key).alone().told(alloc)?)),
    }
}
