//! Which part of an answer doesn't fit.

use crate::Result;
use crate::alert::alert_misfit;
use crate::contended::{Clash, clash_of, contended_misfit};
use crate::returned::returned_misfit;
use crate::step::Step;
use board::Board;
use sentences::Figure::{Count, Hex, Number};
use sentences::Word::Name;
use sentences::{Sentence, say};
use smbus::{Answer, Form, Message, sent_count, slot_count};
use std::alloc::Global;
use targets::BusState;

/// The part of an answer that doesn't fit.
#[derive(Clone, Copy)]
enum Part {
    /// `value` or `bytes`.
    Returned,
    Refuse,
    Holds,
    Alerts,
    Took,
    /// `contender` or `cholds`.
    Contender(Clash),
}

/// What of another controller doesn't fit, where its answer fits without it.
fn clash(alloc: Global, step: &Step) -> Result<Option<Part>> {
    let answer = step.answer;
    let Some(contender) = &answer.contender else {
        return Ok(None);
    };
    let without = Answer {
        contender: None,
        ..answer.clone()?
    };
    if !step.takes(&without) {
        return Ok(None);
    }
    let clash = clash_of(alloc, step, contender, answer.clone()?)?;
    Ok(Some(Part::Contender(clash)))
}

/// What doesn't fit of an answer that has nothing left beside another controller, if it has one.
fn last_part(alloc: Global, step: &Step, left: Answer) -> Result<Part> {
    let answer = step.answer;
    match &answer.contender {
        Some(contender) => {
            let clash = clash_of(alloc, step, contender, left)?;
            Ok(Part::Contender(clash))
        }
        None => Ok(Part::Returned),
    }
}

/// The first part that doesn't fit. The others are left out one after another, the last first,
/// until what is left fits: so no rule is written here a second time.
fn part_of(alloc: Global, step: &Step) -> Result<Part> {
    let mut left = step.answer.clone()?;
    left.took = false;
    if step.takes(&left) {
        return Ok(Part::Took);
    }
    left.alerts = 0;
    if step.takes(&left) {
        return Ok(Part::Alerts);
    }
    left.holds = Vec::new(alloc);
    if step.takes(&left) {
        return Ok(Part::Holds);
    }
    left.refuse = None;
    if step.takes(&left) {
        return Ok(Part::Refuse);
    }
    left.value = 0;
    left.bytes = Vec::new(alloc);
    if step.takes(&left) {
        return Ok(Part::Returned);
    }
    last_part(alloc, step, left)
}

/// The first target that begins to alert and can't, by its index.
fn first_silent(board: &Board, alerts: u16) -> Option<usize> {
    (0..16).find(|index| {
        let can = board.target(*index).is_some_and(|target| target.alerts());
        alerts >> *index & 1 == 1 && !can
    })
}

/// What is wrong with targets that begin to alert.
fn alerts_misfit(board: &Board, alerts: u16) -> Sentence<'_> {
    let digits = Hex(alerts, 1);
    let Some(index) = first_silent(board, alerts) else {
        return say!["alerts="(digits)];
    };
    match board.target_name(index) {
        Some(name) => say![
            {Name(name)} " alerts by bit " (Count(index)) " of alerts=" (digits)
            ", which it can't on this board"
        ],
        None => say![
            "bit " (Count(index)) " of alerts=" (digits) "; the board's targets are "
            (Count(board.targets().len()))
        ],
    }
}

/// What is wrong with the holds of a message.
fn holds_misfit(board: &Board, message: &Message, answer: &Answer) -> Sentence<'static> {
    let most = board.largest_stretch();
    match answer.holds.iter().position(|hold| *hold > most) {
        Some(slot) => {
            let hold = answer.holds.get(slot).copied().unwrap_or(0);
            say![
                "a hold of " (Number(u64::from(hold))) " ticks in slot " (Count(slot))
                "; the board's targets stretch by at most " (Number(u64::from(most)))
            ]
        }
        None => say![
            "a hold in slot " (Count(answer.holds.len().saturating_sub(1)))
            "; the slots of the frame are 0 to "
            (Count(slot_count(message, answer).saturating_sub(1)))
        ],
    }
}

/// What is wrong with a byte that is refused.
pub(crate) fn refuse_misfit(message: &Message, answer: &Answer) -> Sentence<'static> {
    say![
        "refuse=" (Number(u64::from(answer.refuse.unwrap_or(0))))
        "; the bytes that the controller sends here are 0 to "
        (Count(sent_count(message).saturating_sub(1)))
    ]
}

/// What is wrong with the bytes of a message, those that are refused or those that come back.
fn bytes_misfit(alloc: Global, step: &Step, message: &Message, part: Part) -> Result<String> {
    match (message.form, part) {
        (Form::Alert, _) => alert_misfit(alloc, step).told(alloc),
        (_, Part::Refuse) => refuse_misfit(message, step.answer).told(alloc),
        _ => returned_misfit(alloc, step, message),
    }
}

/// What is wrong with an answer to a message.
fn message_misfit(alloc: Global, step: &Step, message: &Message, part: Part) -> Result<String> {
    let (board, answer) = (step.board, step.answer);
    match part {
        Part::Alerts => alerts_misfit(board, answer.alerts).told(alloc),
        Part::Holds => holds_misfit(board, message, answer).told(alloc),
        Part::Refuse | Part::Returned => bytes_misfit(alloc, step, message, part),
        Part::Took => say!["took=1"].told(alloc),
        Part::Contender(clash) => contended_misfit(step, message, clash).told(alloc),
    }
}

/// What is wrong with an answer to a step that sends nothing.
fn silent_misfit<'a>(step: &Step<'a>, part: Part) -> Sentence<'a> {
    let answer = step.answer;
    let word = match part {
        Part::Alerts => return alerts_misfit(step.board, answer.alerts),
        Part::Returned if answer.value != 0 => "value=",
        Part::Returned => "bytes=",
        Part::Refuse => "refuse=",
        Part::Holds => "holds=",
        Part::Took => "took=1",
        Part::Contender(_) => "contender=",
    };
    say![{Name(word)} " for a step that sends nothing, whose answer is \"-\""]
}

/// What is wrong with an answer that doesn't fit, where the targets keep this before the step, and
/// the step sends this message or none.
pub(crate) fn misfit<'a>(
    alloc: Global,
    board: &'a Board,
    bus: &'a BusState,
    message: Option<&'a Message>,
    answer: &'a Answer,
) -> Result<String> {
    let step = Step {
        board,
        bus,
        message,
        answer,
    };
    let part = match clash(alloc, &step)? {
        Some(part) => part,
        None => part_of(alloc, &step)?,
    };
    match message {
        Some(message) => message_misfit(alloc, &step, message, part),
        None => silent_misfit(&step, part).told(alloc),
    }
}
