//! The command of a bundle, and the headers of its sections.

use crate::Result;
use bundles::{COMMANDS, Command, Header};
use notes::{line_at, lowercase_suggestion};
use sentences::Word::{Name, Text};
use sentences::{Remark, say, told};
use std::alloc::Global;
use texts::first_line;

/// What is said of a first line that is no command.
pub(crate) fn unknown_command(alloc: Global, line: &str) -> Result<Remark> {
    let commands: Vec<&str> = COMMANDS
        .iter()
        .map(|command| command.text())
        .collect(alloc)?;
    let help = match lowercase_suggestion(alloc, line, &commands)? {
        Some(help) => help,
        None => {
            let commands = commands.join(alloc, ", ")?;
            say![
                "the first line is a command alone, one of " {Text(&commands)}
                ", and its sections follow"
            ]
            .told(alloc)?
        }
    };
    say!["unknown command " {Name(line)}].helped_by(alloc, Some(help))
}

/// The command of a bundle, if its first line is one.
fn command_in(text: &str) -> Option<Command> {
    let (line, _) = first_line(text)?;
    Command::of_line(line)
}

/// The sections of a command: `the sections are %board, %program, in this order`.
fn sections_help(alloc: Global, text: &str) -> Result<Option<String>> {
    let Some(command) = command_in(text) else {
        return Ok(None);
    };
    let headers = command.headers().iter();
    let names: Vec<&str> = headers.map(|header| header.text()).collect(alloc)?;
    let names = names.join(alloc, ", ")?;
    told(
        alloc,
        Some(say!["the sections here are " {Text(&names)} ", in this order"]),
    )
}

/// What is said of a header that is missing.
pub(crate) fn missing_section(alloc: Global, text: &str, header: Header) -> Result<Remark> {
    let help = sections_help(alloc, text)?;
    say!["the section " {Text(header.text())} " is missing"].helped_by(alloc, help)
}

/// How many headers stand above the line of a bundle with this number.
fn headers_above(text: &str, number: usize) -> usize {
    let mut count = 0;
    let mut at = 1;
    let mut rest = text;
    while let Some((line, below)) = first_line(rest) {
        if at >= number {
            return count;
        }
        if at > 1 && line.starts_with('%') {
            count += 1;
        }
        at += 1;
        rest = below;
    }
    count
}

/// What may help where a header doesn't come next.
fn header_help(alloc: Global, line: &str, next: Option<Header>) -> Result<String> {
    let Some(header) = next else {
        return say!["a line that begins with % is a header; none comes here"].told(alloc);
    };
    let name = header.text();
    match lowercase_suggestion(alloc, line, &[name])? {
        Some(help) => Ok(help),
        None => {
            say!["a line that begins with % is a header; the next is " {Text(name)}].told(alloc)
        }
    }
}

/// What is said of a header that doesn't come next.
fn other_header(alloc: Global, line: &str, next: Option<Header>) -> Result<Remark> {
    let help = header_help(alloc, line, next)?;
    say!["the header " {Name(line)} " doesn't come here"].helped_by(alloc, Some(help))
}

/// What is said of a line that doesn't belong where it stands.
pub(crate) fn unexpected_line(alloc: Global, text: &str, number: usize) -> Result<Remark> {
    let line = line_at(text, number).unwrap_or("").trim_end_matches('\r');
    if !line.starts_with('%') {
        let help = sections_help(alloc, text)?;
        return say!["only blank lines stand above the first section"].helped_by(alloc, help);
    }
    let above = headers_above(text, number);
    let next = command_in(text).and_then(|command| command.headers().get(above).copied());
    other_header(alloc, line, next)
}
