//! Rows of bundles: lines of messages and answers, sections, and what is read of them.

use crate::cells::{fault, or_dash, shown};
use crate::row::{Flaw, Outcome, Row};
use bundles::{
    Answers, Command, Section, answer_line, answer_line_of, answers_in, can_be_said, end_last_line,
    exchange_in, is_counted, is_one_line, read_bundle, seed_in,
};
use smbus::Answer;
use std::alloc::Global;

/// `LINE | ANSWER`: what a line answers, or its fault as line 7.
fn answer_row(alloc: Global, line: &str) -> Outcome {
    match answer_line_of(alloc, 7, line) {
        Ok(answer) => shown(alloc, answer),
        Err(error) => fault(alloc, error),
    }
}

/// `LINE | LINE`: how what a line answers is written.
fn written_row(alloc: Global, line: &str) -> Outcome {
    match answer_line_of(alloc, 7, line) {
        Ok(answer) => written(alloc, &answer),
        Err(error) => fault(alloc, error),
    }
}

fn written(alloc: Global, answer: &Answer) -> Outcome {
    if can_be_said(answer) {
        Ok(answer_line(alloc, answer)?)
    } else {
        Err(Flaw::Cell("answer that can be said").error())
    }
}

/// The pages and the protections at a start; whether a write took, and the value, of each answer.
fn run_text(alloc: Global, run: Answers<'_>) -> Outcome {
    let mut text = format!(in alloc; "{:?} {:?}", run.pages, run.protects)?;
    let mut answers = run.answers();
    for _ in 0..9 {
        let Some(answer) = answers.next(alloc)? else {
            break;
        };
        let said = format!(in alloc; " {:?}", (answer.took, answer.value))?;
        text.push_str(&said)?;
    }
    Ok(text)
}

fn answers(alloc: Global, section: &Section<'_>) -> Outcome {
    match answers_in(alloc, section) {
        Ok(run) => run_text(alloc, run),
        Err(error) => fault(alloc, error),
    }
}

/// The address and the code of a section's message.
fn message(alloc: Global, section: &Section<'_>) -> Outcome {
    match exchange_in(alloc, section) {
        Ok(exchange) => shown(alloc, (exchange.message.address, exchange.message.code)),
        Err(error) => fault(alloc, error),
    }
}

fn seed(alloc: Global, section: &Section<'_>) -> Outcome {
    match seed_in(section) {
        Ok(seed) => shown(alloc, seed),
        Err(fault) => shown(alloc, fault),
    }
}

/// `LINES | ..`: what the last section of a bundle says; the section's text begins the bundle, and
/// the lines go on with its last line.
fn section_row(alloc: Global, kind: &str, given: &Row) -> Outcome {
    let mut text = given.text()?.trim_end().to_string(alloc)?;
    text.push_str(given.one()?)?;
    let Ok(bundle) = read_bundle(alloc, &text) else {
        return Err(Flaw::Cell("bundle").error());
    };
    match (kind, bundle.sections.last()) {
        ("answers", Some(section)) => answers(alloc, section),
        ("message", Some(section)) => message(alloc, section),
        ("seed", Some(section)) => seed(alloc, section),
        _ => Err(Flaw::Kind.error()),
    }
}

/// `LINE | HEADERS`: the sections of a command.
fn headers_row(alloc: Global, line: &str) -> Outcome {
    match Command::of_line(line) {
        Some(command) => shown(alloc, command.headers()),
        None => Ok("-".to_string(alloc)?),
    }
}

/// `FILE | FILE`: a file with its last line ended.
fn ended_row(alloc: Global, file: &str) -> Outcome {
    let mut bytes = file.as_bytes().to_vec(alloc)?;
    end_last_line(&mut bytes)?;
    Ok(str::from_utf8(&bytes).unwrap_or("").to_string(alloc)?)
}

/// What a row of some kind comes out as.
pub(crate) fn outcome(alloc: Global, kind: &str, given: &Row) -> Outcome {
    match kind {
        "answer" => answer_row(alloc, given.one()?),
        "written" => written_row(alloc, given.one()?),
        "headers" => headers_row(alloc, given.one()?),
        "ended" => ended_row(alloc, given.one()?),
        "counted" => shown(alloc, is_counted(given.one()?)),
        "comment" => shown(alloc, is_one_line(given.one()?)),
        _ => section_row(alloc, kind, given),
    }
}
