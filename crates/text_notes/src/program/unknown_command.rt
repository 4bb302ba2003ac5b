//! A word that is no command, or a command without the form of the instruction.

use crate::Result;
use notes::suggestion;
use pmbus_table::{Command, by_code, by_name, name_of};
use sentences::Word::{Name, Text};
use sentences::{Advice, Figure, Remark, Sentence, say, told};
use smbus::Form;
use std::alloc::Global;
use texts::pair_of;

/// How manufacturer commands are written.
const MANUFACTURER_RULE: &str =
    "manufacturer commands are D0 to FD, and in \"write\" and \"read\" b or w stands behind them";

/// Whether a command takes one of some forms.
fn takes(command: Command, forms: &[Form]) -> bool {
    forms.iter().any(|form| command.takes(*form))
}

/// The names of the table's commands that take one of some forms.
fn command_names(alloc: Global, forms: &[Form]) -> Result<Vec<String>> {
    (0..=u8::MAX)
        .filter_map(|code| by_code(code))
        .filter(|command| !command.is_manufacturer() && takes(*command, forms))
        .map(|command| name_of(alloc, command))
        .try_collect(alloc)
}

/// Proposes the nearest of these commands.
fn command_suggestion(alloc: Global, word: &str, forms: &[Form]) -> Result<Option<String>> {
    let names = command_names(alloc, forms)?;
    let names: Vec<&str> = names.iter().map(|name| name.as_str()).collect(alloc)?;
    suggestion(alloc, &word.to_ascii_uppercase(alloc)?, &names)
}

/// What can be done with a named command, by a form.
fn use_of(form: Form) -> &'static str {
    match form {
        Form::SendByte => "sent",
        Form::WriteByte => "written as a byte",
        Form::WriteWord => "written as a word",
        Form::ReadByte => "read as a byte",
        Form::ReadWord => "read as a word",
        Form::ProcessCall => "called",
        Form::BlockWrite => "written as a block",
        Form::BlockRead => "read as a block",
        Form::BlockProcessCall => "called with blocks",
        Form::Quick(_) | Form::ReceiveByte | Form::Alert => "asked without a code",
    }
}

/// The forms of a named command.
pub(crate) fn forms_help(command: Command) -> Option<Sentence<'static>> {
    let name = Figure::Command(command.code());
    match (command.form_written(), command.form_read()) {
        (Some(written), Some(read)) => {
            let (written, read) = (Text(use_of(written)), Text(use_of(read)));
            Some(say!["\"" (name) "\" can be " {written} " and " {read}])
        }
        (Some(form), None) | (None, Some(form)) => {
            let form = Text(use_of(form));
            Some(say!["\"" (name) "\" can only be " {form}])
        }
        (None, None) => None,
    }
}

/// What is said of a command that is known.
fn known_command<'a>(instruction: &'a str, word: &'a str, command: Command) -> Advice<'a> {
    let text = Text(word);
    if command.is_manufacturer() {
        return say!["\"" {text} "\" needs \"b\" or \"w\" behind it"].with_help(
            say!["\"" {text} "b\" is for a byte, \"" {text} "w\" for a word"],
        );
    }
    Advice {
        message: say![{Name(instruction)} " doesn't take \"" {text} "\""],
        help: forms_help(command),
    }
}

/// The digits of a manufacturer command with `b` or `w` behind them.
fn digits_of(word: &str) -> Option<&str> {
    let digits = match word.strip_suffix("b") {
        Some(digits) => digits,
        None => word.strip_suffix("w")?,
    };
    match by_name(digits) {
        Some(command) if command.is_manufacturer() => Some(digits),
        _ => None,
    }
}

/// Whether a word is nearly a manufacturer command.
fn is_nearly_manufacturer(alloc: Global, word: &str) -> Result<bool> {
    match word.get(..2) {
        Some(digits) if word.len() <= 3 => {
            let digits = digits.to_ascii_uppercase(alloc)?;
            Ok(by_name(&digits).is_some())
        }
        _ => Ok(false),
    }
}

/// The code of the command whose digits stand there.
fn code_of(word: &str) -> Option<u8> {
    let code = pair_of(word)?;
    by_code(code)?;
    Some(code)
}

/// Proposes another word. How manufacturer commands are written is told by `rule`.
pub(crate) fn command_help(
    alloc: Global,
    word: &str,
    forms: &[Form],
    rule: &'static str,
) -> Result<Option<String>> {
    if let Some(digits) = digits_of(word) {
        let sentence = say!["did you mean " {Name(digits)} "?"];
        return told(alloc, Some(sentence));
    }
    if is_nearly_manufacturer(alloc, word)? {
        return told(alloc, Some(say![{ Text(rule) }]));
    }
    match code_of(word) {
        Some(code) => {
            let sentence = say!["did you mean \"" (Figure::Command(code)) "\"?"];
            told(alloc, Some(sentence))
        }
        None => command_suggestion(alloc, word, forms),
    }
}

/// What is said of a line with such a word, in the place of a command that takes one of some forms.
pub(crate) fn unknown_command(alloc: Global, words: &[&str], forms: &[Form]) -> Result<Remark> {
    let [instruction, _, word, ..] = words else {
        return say!["unknown command"].alone().told(alloc);
    };
    if let Some(command) = by_name(word) {
        return known_command(instruction, word, command).told(alloc);
    }
    let help = command_help(alloc, word, forms, MANUFACTURER_RULE)?;
    say!["unknown command " {Name(word)}].helped_by(alloc, help)
}
