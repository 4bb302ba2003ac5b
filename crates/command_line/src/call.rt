//! What the words behind the command's name ask for.

ghost use Rattle.std.specs.Prelude.{◌≡◌, ◌∷◌, ◌<◌, IfSome, length};
ghost use Rattle.texts.specs.Ascii as ascii;
ghost use Rattle.bundles.specs.Bundles.{command_text};

use crate::misuse::Misuse;
use bundles::{COMMANDS, Command};
use diagnostics::Beside;

/// The seed of the plain run.
const PLAIN_SEED: &str = "0";

/// In which form notes are told.
#[derive(Clone, Copy, PartialEq, Eq)]
pub(crate) enum NoteForm {
    /// As lines to be read.
    Lines,
    /// As a log of SARIF.
    Sarif,
}

/// How notes are told, what is told beside a verdict, and the seed of a run.
#[derive(Clone, Copy)]
pub(crate) struct Options<'a> {
    pub form: NoteForm,
    pub beside: Beside,
    pub seed: Option<&'a str>,
}

/// A command and the names of the files that it takes, one for each of its first sections. Where
/// the options have a seed, the last section comes of the run that this plays; a draft without a
/// plan has an empty one.
#[derive(Clone, Copy)]
pub(crate) struct Request<'a> {
    pub command: Command,
    pub names: &'a [String],
    pub options: Options<'a>,
}

/// What a call asks for.
#[derive(Clone, Copy)]
pub(crate) enum Call<'a> {
    /// No word: a bundle on standard input, unless that is a terminal.
    Nothing,
    /// A bundle on standard input.
    Bundle,
    Help,
    HelpOn(Command),
    Version,
    /// A rule, or a fault by its name.
    Explain(&'a str),
    Judge(Request<'a>),
}

/// The word that calls a command: its line without the `%`.
pub(crate) fn word_of(command: Command) -> &'static str
    ensures { command_text command ≡ ascii.percent_sign ∷ result.now }
{
    &command.text()[1..]
}

/// The command that a word calls.
fn command_named(word: &str) -> Option<Command>
    ensures { IfSome result (λ c. command_text c ≡ ascii.percent_sign ∷ word.now) }
{
    COMMANDS
        .iter()
        .copied()
        .find(|command| word_of(*command) == word)
}

/// Whether a word asks for help.
fn asks_for_help(word: &str) -> bool {
    word == "--help" || word == "-h"
}

/// Whether a command runs a program, so that the run may be played.
fn runs(command: Command) -> bool {
    matches!(command, Command::Run | Command::Wave | Command::Play)
}

/// The names of files among the words behind a command, and the seed of the run that is to be
/// played, if one is: a run without answers is, and `play` may have its seed behind the files.
fn files_and_seed<'a>(
    command: Command,
    words: &'a [String],
    seed: Option<&'a str>,
) -> (&'a [String], Option<&'a str>) {
    match (command, words) {
        (Command::Play, [_, _, word]) if seed.is_none() => (&words[..2], Some(word.as_str())),
        (_, [_, _]) if runs(command) => (words, Some(seed.unwrap_or(PLAIN_SEED))),
        _ => (words, seed),
    }
}

/// How many files a command takes, beside a seed or without one.
fn wanted_files(command: Command, seed: Option<&str>) -> usize {
    command
        .headers()
        .len()
        .saturating_sub(usize::from(seed.is_some()))
}

/// Whether a command takes so many files, beside a seed or without one: `draft` may have no plan.
fn takes(command: Command, count: usize, seed: Option<&str>) -> bool {
    count == wanted_files(command, seed) || count == 1 && command == Command::Draft
}

/// The request of a command for the files with these names.
fn request_of<'a>(
    command: Command,
    words: &'a [String],
    options: Options<'a>,
) -> Result<Call<'a>, Misuse<'a>> {
    let (names, seed) = files_and_seed(command, words, options.seed);
    if seed.is_some() && words.len() == 3 && command != Command::Play {
        return Err(Misuse::SeedAndAnswers);
    }
    if !takes(command, names.len(), seed) {
        let count = words.len();
        return Err(Misuse::WrongCount { command, count });
    }
    if names.iter().filter(|name| name.as_str() == "-").count() > 1 {
        return Err(Misuse::TwoInputs);
    }
    Ok(Call::Judge(Request {
        command,
        names,
        options: Options { seed, ..options },
    }))
}

/// The options with those that stand first among the words, and the words behind them: `None` where
/// the first word is no option of the command.
fn first_option<'a>(
    command: Command,
    options: Options<'a>,
    words: &'a [String],
) -> Option<(Options<'a>, &'a [String])>
    ensures fewer { IfSome result (λ found. length found.1.now < length words.now) }
{
    let (word, later) = words.split_first()?;
    match word.as_str() {
        "--sarif" => Some((
            Options {
                form: NoteForm::Sarif,
                ..options
            },
            later,
        )),
        "--bound" if command == Command::Verify => Some((
            Options {
                beside: Beside::Bound,
                ..options
            },
            later,
        )),
        "--seed" if runs(command) => {
            let (seed, later) = later.split_first()?;
            let seed = Some(seed.as_str());
            Some((Options { seed, ..options }, later))
        }
        _ => None,
    }
}

/// The options with a seed that stands last among the words, as in `run BOARD PROGRAM --seed 7`,
/// and the words before it.
fn last_option<'a>(
    command: Command,
    options: Options<'a>,
    words: &'a [String],
) -> (Options<'a>, &'a [String]) {
    match words {
        [files @ .., word, seed] if runs(command) && word.as_str() == "--seed" => {
            let seed = Some(seed.as_str());
            (Options { seed, ..options }, files)
        }
        _ => (options, words),
    }
}

/// What the words behind a command and its options ask for: `--` ends the options.
fn call_with<'a>(
    command: Command,
    words: &'a [String],
    options: Options<'a>,
) -> Result<Call<'a>, Misuse<'a>> {
    match words.split_first() {
        Some((word, names)) if word.as_str() == "--" => request_of(command, names, options),
        Some((word, _)) if asks_for_help(word) => Ok(Call::HelpOn(command)),
        Some((word, _)) if word.starts_with("--") => Err(Misuse::UnknownOption(word)),
        _ => {
            let (options, names) = last_option(command, options, words);
            request_of(command, names, options)
        }
    }
}

/// What the words behind a command ask for.
fn command_call(command: Command, words: &[String]) -> Result<Call<'_>, Misuse<'_>> {
    let mut options = Options {
        form: NoteForm::Lines,
        beside: Beside::Nothing,
        seed: None,
    };
    let mut rest = words;
    while let Some((more, later)) = first_option(command, options, rest) {
        options = more;
        rest = later;
    }
    call_with(command, rest, options)
}

/// The page of help on a command, or the whole.
fn help_call(words: &[String]) -> Result<Call<'_>, Misuse<'_>> {
    let Some(word) = words.first() else {
        return Ok(Call::Help);
    };
    match command_named(word) {
        Some(command) => Ok(Call::HelpOn(command)),
        None => Err(Misuse::UnknownCommand(word)),
    }
}

/// What is to be explained.
fn explain_call(words: &[String]) -> Result<Call<'_>, Misuse<'_>> {
    match words {
        [word] if asks_for_help(word) => Ok(Call::Help),
        [word] => Ok(Call::Explain(word)),
        _ => Err(Misuse::OneTopic),
    }
}

/// What the words behind the command's name ask for.
pub(crate) fn call_of(words: &[String]) -> Result<Call<'_>, Misuse<'_>> {
    let Some((word, later)) = words.split_first() else {
        return Ok(Call::Nothing);
    };
    match word.as_str() {
        "-" if later.is_empty() => Ok(Call::Bundle),
        "help" | "--help" | "-h" => help_call(later),
        "--version" | "-V" => Ok(Call::Version),
        "explain" => explain_call(later),
        word => match command_named(word) {
            Some(command) => command_call(command, later),
            None => Err(Misuse::UnknownCommand(word)),
        },
    }
}
