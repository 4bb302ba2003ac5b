//! Rows of targets: which answers fit a message, and what they leave.

use crate::cells::{board, count, or_dash, shown};
use crate::row::{Flaw, Outcome, Row};
use crate::step_cells::{answer, message, state};
use smbus::form_named;
use std::alloc::Global;
use targets::{
    BusState, Outcome as Ending, after, after_into, cut_of, ending_of, fits, starts, value_goes_out,
};

/// What is kept for the first target.
fn first(bytes: &[u8]) -> Outcome<u8> {
    bytes.first().copied().ok_or(Flaw::Cell("target").error())
}

/// How a step ends, and parts of the state that it leaves.
fn left_text(alloc: Global, kind: &str, fit: &str, new: &BusState, ending: Ending) -> Outcome {
    let (page, protect) = (first(&new.page)?, first(&new.protect)?);
    let (alerting, lost) = (new.alerting, new.lost);
    Ok(match kind {
        "ended" => format!(in alloc; "{fit}, {ending:?}")?,
        "responded" => format!(in alloc; "{fit}, {alerting}, {ending:?}")?,
        "written" => format!(in alloc; "{fit}, {page:02X}, {protect:02X}, {ending:?}")?,
        _ => format!(in alloc; "{ending:?}, {lost}, {page:02X}, {protect:02X}, {alerting}")?,
    })
}

/// `STATE | MESSAGE | ANSWER | FITS, ..`: whether an answer fits, and what the step leaves.
fn step_row(alloc: Global, kind: &str, given: &Row) -> Outcome {
    let board = board(alloc, given.text()?)?;
    let (before, message_cell, answer_cell) = given.three()?;
    let before = state(alloc, before)?;
    let (message, answer) = (message(alloc, message_cell)?, answer(alloc, answer_cell)?);
    let is_fitting = fits(&board, &before, message.as_ref(), &answer);
    if kind == "fits" {
        return shown(alloc, is_fitting);
    }
    if before.lost >= 65_535 {
        return Err(Flaw::Cell("state").error());
    }
    let (new, ending) = after(alloc, &board, &before, message.as_ref(), &answer)?;
    let fit = if is_fitting { "fits" } else { "misfit" };
    left_text(alloc, kind, fit, &new, ending)
}

/// `STATE | ANSWER | ENDING, PAGES, PROTECTS, ALERTING`: what a step leaves that sends nothing. Its
/// state replaces another one.
fn silent_row(alloc: Global, given: &Row) -> Outcome {
    let board = board(alloc, given.text()?)?;
    let (before, answer_cell) = given.two()?;
    let before = state(alloc, before)?;
    let answer = answer(alloc, answer_cell)?;
    let mut new = state(alloc, "01,02,03 80 3 0")?;
    let ending = after_into(&mut new, &board, &before, None, &answer)?;
    let (page, protect, alerting) = (&new.page, &new.protect, new.alerting);
    Ok(format!(in alloc; "{ending:?}, {page:?}, {protect:?}, {alerting}")?)
}

/// `STATE | MAY`: whether a run may start so.
fn start_row(alloc: Global, given: &Row) -> Outcome {
    let board = board(alloc, given.text()?)?;
    let state = state(alloc, given.one()?)?;
    shown(alloc, starts(&board, &state))
}

/// `MESSAGE | ANSWER | ..`: the slot that is cut, or whether a byte that is written goes out.
fn slot_row(alloc: Global, kind: &str, given: &Row) -> Outcome {
    let (message_cell, answer_cell) = given.two()?;
    let answer = answer(alloc, answer_cell)?;
    let Some(message) = message(alloc, message_cell)? else {
        return Err(Flaw::Cell("message").error());
    };
    match kind {
        "cut" => or_dash(alloc, cut_of(&message, &answer)),
        _ => shown(alloc, value_goes_out(&message, &answer)),
    }
}

/// `FORM | ANSWER | CUT | ENDING`: how a message ends, from the slot that is cut.
fn ending_row(alloc: Global, given: &Row) -> Outcome {
    let (form, answer_cell, cut) = given.three()?;
    let form = form_named(form).ok_or(Flaw::Cell("form").error())?;
    let cut = match cut {
        "-" => None,
        slot => Some(count(slot)?),
    };
    shown(alloc, ending_of(form, &answer(alloc, answer_cell)?, cut))
}

/// What a row of some kind comes out as.
pub(crate) fn outcome(alloc: Global, kind: &str, given: &Row) -> Outcome {
    match kind {
        "starts" => start_row(alloc, given),
        "silent" => silent_row(alloc, given),
        "fits" | "ended" | "responded" | "written" | "left" => step_row(alloc, kind, given),
        "cut" | "value_goes_out" => slot_row(alloc, kind, given),
        "ending" => ending_row(alloc, given),
        _ => Err(Flaw::Kind.error()),
    }
}
