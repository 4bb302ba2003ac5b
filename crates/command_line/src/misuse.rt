//! Words that can't be understood, and what is said of them.

use crate::call::word_of;
use crate::help::names_of;
use bundles::{COMMANDS, Command};
use notes::nearest;
use std::alloc::{AllocError, Global};

/// Why a call's words ask for nothing.
#[derive(Clone, Copy)]
pub(crate) enum Misuse<'a> {
    UnknownCommand(&'a str),
    UnknownOption(&'a str),
    /// Another number of files than the command takes.
    WrongCount { command: Command, count: usize },
    /// A run is to be played, and a file gives its answers.
    SeedAndAnswers,
    /// Two files are standard input.
    TwoInputs,
    /// Not one rule or one fault is to be explained.
    OneTopic,
}

/// The words that call something.
fn calls(alloc: Global) -> Result<Vec<&'static str>, AllocError> {
    let mut words = Vec::new(alloc);
    for command in &COMMANDS {
        words.push(word_of(*command))?;
    }
    words.push("explain")?;
    Ok(words)
}

/// What is said of a word that is no command.
fn unknown_command(alloc: Global, word: &str) -> Result<String, AllocError> {
    let calls = calls(alloc)?;
    match nearest(alloc, word, &calls)? {
        Some(call) => { format!(in alloc; "no command is called {word:?}; did you mean `{call}`?") }
        None => {
            format!(in alloc; "no command is called {word:?}; `pmseq --help` lists the commands")
        }
    }
}

/// How many files a command takes, in words.
fn wanted(command: Command) -> &'static str {
    match command {
        Command::Frame => "one file",
        Command::Verify | Command::Refute | Command::Find | Command::Play => "two files",
        Command::Draft => "one file, or two",
        Command::Run | Command::Wave => "two files, or three",
        Command::Check => "three files",
    }
}

/// What is said of a call that can't be understood.
pub(crate) fn misuse_text(alloc: Global, misuse: Misuse<'_>) -> Result<String, AllocError> {
    match misuse {
        Misuse::UnknownCommand(word) => unknown_command(alloc, word),
        Misuse::UnknownOption(word) => {
            format!(in alloc; "there is no option {word:?}; behind `--` it is the name of a file")
        }
        Misuse::WrongCount { command, count } => {
            let (word, wanted, names) = (word_of(command), wanted(command), names_of(command));
            format!(in alloc; "{word} takes {wanted}, {names}, not {count}")
        }
        Misuse::OneTopic => {
            String::from_str(
                alloc,
                "explain takes one word, a rule such as K5 or a fault's name",
            )
        }
        Misuse::SeedAndAnswers => {
            String::from_str(
                alloc,
                "--seed plays a run in the place of ANSWERS: give one of them",
            )
        }
        Misuse::TwoInputs => {
            String::from_str(alloc, "one file alone may be `-`, standard input")
        }
    }
}
