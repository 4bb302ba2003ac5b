//! Too few or too many words, or one that can't stand in its place.

use crate::program::habit::habit_in;
use crate::program::usage::usage_of;
use pmbus_table::by_name;
use sentences::Figure::Count;
use sentences::Word::{Name, Text};
use sentences::{Advice, Sentence, say};
use seq_program::{Misfit, Operand};
use smbus::Form;

/// What was found in the place of an operand.
fn misplaced(operand: Operand, found: &str) -> Sentence<'_> {
    let found = Name(found);
    let expected = match operand {
        Operand::Direction => "the direction, \"r\" or \"w\"",
        Operand::Register => "a register, r0 to r7",
        Operand::Counter => "a counter, c0 to c3",
        Operand::Bytes(most) => {
            return say![
                "expected 1 to " (Count(most))
                " bytes of two digits, 0 to 9 or A to F, found " {found}
            ];
        }
        Operand::Else => "\"else\"",
        Operand::Label => "a label",
    };
    say!["expected " {Text(expected)} ", found " {found}]
}

/// What is wrong with a line whose first word this is.
fn misfit_message<'a>(word: &'a str, words: &[&'a str], misfit: Misfit) -> Sentence<'a> {
    match misfit {
        Misfit::Count(count) if words.len() <= count => {
            say!["too few words behind " {Name(word)}]
        }
        Misfit::Count(_) => say!["too many words behind " {Name(word)}],
        Misfit::Word(at, operand) => misplaced(operand, words.get(at).copied().unwrap_or("")),
        Misfit::NoVoltage => say![
            "a register is written to \"VOUT_COMMAND\", \"VOUT_MARGIN_HIGH\" or \
             \"VOUT_MARGIN_LOW\" alone, not to " {Name(words.get(2).copied().unwrap_or(""))}
        ],
    }
}

/// What an instruction takes.
fn description<'a>(word: &'a str) -> Sentence<'a> {
    match usage_of(word) {
        Some("") | None => say!["\"" {Text(word)} "\" stands alone"],
        Some(usage) => say!["\"" {Text(word)} "\" takes " {Text(usage)}],
    }
}

/// That a command is sent and has no data, where it stands behind `write`.
fn sent_help<'a>(words: &[&'a str]) -> Option<Sentence<'a>> {
    let ["write", target, name, ..] = words else {
        return None;
    };
    if by_name(name)?.form_written() != Some(Form::SendByte) {
        return None;
    }
    let (target, name) = (Text(target), Text(name));
    Some(say![{name} " has no data: send " {target} " " {name} " else LABEL"])
}

/// What may help on a line whose first word this is.
fn operand_help<'a>(word: &'a str, words: &[&'a str]) -> Sentence<'a> {
    if let Some(habit) = habit_in(words) {
        return say![{ Text(habit) }];
    }
    sent_help(words).unwrap_or(description(word))
}

/// What is said of a line with a word that can't stand in its place.
pub(crate) fn bad_operand<'a>(words: &[&'a str], misfit: Misfit) -> Advice<'a> {
    let Some(word) = words.first().copied() else {
        return say!["a bad operand"].alone();
    };
    Advice {
        message: misfit_message(word, words, misfit),
        help: Some(operand_help(word, words)),
    }
}
