//! What cells say of a step: a message, an answer, and the state of the targets.

use crate::cells::word;
use crate::row::{Flaw, Outcome};
use bundles::{Exchange, Section, answer_line_of, answers_in, exchange_in, read_bundle};
use smbus::{Answer, Message};
use std::alloc::Global;
use targets::BusState;
use texts::words_of;

/// The last section of a bundle.
fn last_section<'a>(alloc: Global, text: &'a str) -> Outcome<Section<'a>> {
    let bundle = match read_bundle(alloc, text) {
        Ok(bundle) => bundle,
        Err(_) => return Err(Flaw::Cell("section").error()),
    };
    match bundle.sections.last() {
        Some(section) => Ok(*section),
        None => Err(Flaw::Cell("section").error()),
    }
}

/// The message and the answer of a line.
pub(crate) fn exchange(alloc: Global, line: &str) -> Outcome<Exchange> {
    let text = format!(in alloc; "%frame\n%message\n{line}\n")?;
    match exchange_in(alloc, &last_section(alloc, &text)?) {
        Ok(exchange) => Ok(exchange),
        Err(_) => Err(Flaw::Cell("message").error()),
    }
}

/// The message of a line, `-` for none.
pub(crate) fn message(alloc: Global, cell: &str) -> Outcome<Option<Message>> {
    if cell == "-" {
        return Ok(None);
    }
    Ok(Some(exchange(alloc, cell)?.message))
}

/// The answer of a line.
pub(crate) fn answer(alloc: Global, cell: &str) -> Outcome<Answer> {
    match answer_line_of(alloc, 1, cell) {
        Ok(answer) => Ok(answer),
        Err(_) => Err(Flaw::Cell("answer").error()),
    }
}

/// A state of the targets, `PAGES PROTECTS ALERTING LOST`: two lists of bytes, and two numbers.
pub(crate) fn state(alloc: Global, cell: &str) -> Outcome<BusState> {
    let words = words_of(alloc, cell)?;
    let [pages, protects, alerting, lost] = words.as_slice() else {
        return Err(Flaw::Cell("state").error());
    };
    let (alerting, lost) = (word(alerting)?, word(lost)?);
    let start = "%run\n%board\n%program\n%answers\nstart";
    let text = format!(in alloc; "{start} {pages} {protects}\n")?;
    match answers_in(alloc, &last_section(alloc, &text)?) {
        Ok(start) => Ok(BusState {
            page: start.pages.to_vec(alloc)?,
            protect: start.protects.to_vec(alloc)?,
            alerting,
            lost,
        }),
        Err(_) => Err(Flaw::Cell("state").error()),
    }
}
