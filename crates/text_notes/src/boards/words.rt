//! Words that name nothing: forms, commands, targets and rails.

use crate::Result;
use crate::boards::blamed::Blamed;
use crate::boards::describe::shown;
use crate::boards::twice::{first_alike, same_page};
use crate::form::form_words;
use crate::program::unknown_command::{command_help, forms_help};
use board::Key;
use notes::lowercase_suggestion;
use pmbus_table::{Command, by_name};
use sentences::Figure::Number;
use sentences::Word::{Name, Text};
use sentences::{Advice, Figure, Remark, Sentence, quoted_names, say};
use smbus::form_named;
use std::alloc::Global;
use toml::Value;

/// How manufacturer commands are written.
const MANUFACTURER_RULE: &str =
    "manufacturer commands are D0 to FD, with the digits 0 to 9 and A to F";

/// Proposes one of some names, or lists them.
fn names_help(
    alloc: Global,
    word: &str,
    sort: &'static str,
    names: &[&str],
) -> Result<Option<String>> {
    match lowercase_suggestion(alloc, word, names)? {
        None => {
            let names = quoted_names(alloc, names)?;
            Ok(Some(say!["the " {Text(sort)} " are " {Text(&names)}].told(alloc)?))
        }
        help => Ok(help),
    }
}

/// What is said of an entry whose form isn't known.
pub(crate) fn unknown_form(alloc: Global, blamed: &Blamed<'_>) -> Result<Remark> {
    let word = blamed.text(Key::Form);
    let help = names_help(alloc, word, "forms", &form_words(alloc)?)?;
    say!["unknown form " {Name(word)} " of " {blamed.word()}].helped_by(alloc, help)
}

/// What is said of a command that doesn't take the form of its entry.
fn other_form<'a>(blamed: &'a Blamed<'_>, command: Command) -> Advice<'a> {
    Advice {
        message: say![
            {Name(blamed.text(Key::Form))} " doesn't take \"" (Figure::Command(command.code()))
            "\" in " {blamed.word()}
        ],
        help: forms_help(command),
    }
}

/// What is said of an entry whose command isn't known, or doesn't take its form.
pub(crate) fn unknown_command(alloc: Global, blamed: &Blamed<'_>) -> Result<Remark> {
    let word = blamed.text(Key::Command);
    if let Some(command) = by_name(word) {
        return other_form(blamed, command).told(alloc);
    }
    let help = match form_named(blamed.text(Key::Form)) {
        Some(form) => command_help(alloc, word, &[form], MANUFACTURER_RULE)?,
        None => None,
    };
    say!["unknown command " {Name(word)} " of " {blamed.word()}].helped_by(alloc, help)
}

/// The names of tables.
fn names_of<'a>(alloc: Global, tables: &'a [Value]) -> Result<Vec<&'a str>> {
    tables
        .iter()
        .filter_map(|table| table.get("name")?.as_str())
        .collect(alloc)
}

/// What is said of a rail that needs a rail that isn't there.
pub(crate) fn unknown_need(alloc: Global, blamed: &Blamed<'_>, need: &Value) -> Result<Remark> {
    let word = need.as_str().unwrap_or("");
    let rails = names_of(alloc, blamed.draft.rails)?;
    let help = names_help(alloc, word, "rails", &rails)?;
    say![{blamed.word()} " needs " {Name(word)} ", and no rail has that name"].helped_by(
        alloc, help,
    )
}

/// What is said of a rail that needs itself.
pub(crate) fn self_need(alloc: Global, blamed: &Blamed<'_>) -> Result<Remark> {
    say![{blamed.word()} " needs itself"]
        .with_text("\"needs\" names the other rails that have to be good before it is turned on")
        .told(alloc)
}

/// What is said of a rail whose target isn't there.
pub(crate) fn unknown_target(alloc: Global, blamed: &Blamed<'_>) -> Result<Remark> {
    let word = blamed.text(Key::Target);
    let targets = names_of(alloc, blamed.draft.targets)?;
    let help = names_help(alloc, word, "targets", &targets)?;
    say![{blamed.word()} " is on target " {Name(word)} ", which isn't there"].helped_by(alloc, help)
}

/// How many pages the first target of a name has.
fn pages_of(targets: &[Value], name: &str) -> Option<u64> {
    for target in targets {
        if target.get("name")?.as_str() == Some(name) {
            return u64::try_from(target.get("pages")?.as_integer()?).ok();
        }
    }
    None
}

/// How many pages the target of a rail has.
fn pages_help<'a>(blamed: &'a Blamed<'_>) -> Option<Sentence<'a>> {
    let word = blamed.text(Key::Target);
    let pages = pages_of(blamed.draft.targets, word)?;
    Some(say![
        "the \"pages\" of target " {Name(word)} " is " (Number(pages)) ", and its first page is 0"
    ])
}

/// What is said of a rail on a page that its target hasn't.
fn foreign_page(alloc: Global, blamed: &Blamed<'_>, value: &Value) -> Result<Remark> {
    let page = shown(alloc, value)?;
    let message = say![
        {blamed.word()} " is on page " {Text(&page)} ", which target "
        {Name(blamed.text(Key::Target))} " hasn't"
    ];
    let help = pages_help(blamed);
    Advice { message, help }.told(alloc)
}

/// What is said of a rail on a page that its target hasn't, or that has a rail above.
pub(crate) fn bad_page(alloc: Global, blamed: &Blamed<'_>, value: &Value) -> Result<Remark> {
    match first_alike(blamed.draft, blamed.place, &["target", "page"]) {
        Some(other) => same_page(alloc, blamed, other),
        None => foreign_page(alloc, blamed, value),
    }
}
