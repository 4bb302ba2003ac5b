//! Answers with another controller that doesn't fit.

use crate::Result;
use crate::step::Step;
use board::Board;
use sentences::Figure::{Count, Hex, Number};
use sentences::{Sentence, say};
use smbus::{Answer, Contender, Message, contender_slot_count};
use std::alloc::Global;
use targets::BusState;

/// What of another controller doesn't fit.
#[derive(Clone, Copy)]
pub(crate) enum Clash {
    /// It is held too long, or in a slot that it hasn't.
    Holds,
    Bytes,
    /// It wins more often than the board says.
    Contentions,
    /// It wins, and the answer has more than it.
    Beside,
    /// It sends to an address of which the board doesn't say that others send there.
    Address,
}

/// Whether an answer fits where no arbitration was lost before.
fn fits_at_first(step: &Step, answer: &Answer) -> Result<bool> {
    let first = BusState {
        lost: 0,
        ..step.bus.clone()?
    };
    let step = Step {
        bus: &first,
        ..*step
    };
    Ok(step.takes(answer))
}

/// An answer with nothing but another controller.
fn alone(alloc: Global, contender: &Contender) -> Result<Answer> {
    Ok(Answer {
        contender: Some(contender.clone()?),
        ..Answer::silent(alloc)
    })
}

/// What of another controller doesn't fit in this answer: its parts are left out one after another
/// until what is left fits, so no rule is written here a second time.
pub(crate) fn clash_of(
    alloc: Global,
    step: &Step,
    contender: &Contender,
    answer: Answer,
) -> Result<Clash> {
    let mut left = answer;
    if fits_at_first(step, &left)? {
        return Ok(Clash::Contentions);
    }
    if step.takes(&alone(alloc, contender)?) {
        return Ok(Clash::Beside);
    }
    let mut shorter = contender.clone()?;
    shorter.holds = Vec::new(alloc);
    left.contender = Some(shorter.clone()?);
    if step.takes(&left) {
        return Ok(Clash::Holds);
    }
    shorter.bytes = Vec::new(alloc);
    left.contender = Some(shorter);
    if step.takes(&left) {
        return Ok(Clash::Bytes);
    }
    Ok(Clash::Address)
}

/// What is wrong with the holds of another controller.
fn holds_clash(board: &Board, contender: &Contender) -> Sentence<'static> {
    let most = board.foreign_stretch();
    match contender.holds.iter().position(|hold| *hold > most) {
        Some(slot) => {
            let hold = contender.holds.get(slot).copied().unwrap_or(0);
            say![
                "a hold of " (Number(u64::from(hold))) " ticks in slot " (Count(slot))
                " of the other controller's frame; the board's \"foreign_stretch\" is "
                (Number(u64::from(most)))
            ]
        }
        None => say![
            "a hold in slot " (Count(contender.holds.len().saturating_sub(1)))
            " of the other controller's frame; its slots are 0 to "
            (Count(contender_slot_count(contender).saturating_sub(1)))
        ],
    }
}

/// What is wrong with another controller beside a message.
pub(crate) fn contended_misfit<'a>(
    step: &Step<'a>,
    message: &Message,
    clash: Clash,
) -> Sentence<'a> {
    let (bus, answer) = (step.bus, step.answer);
    let Some(contender) = &answer.contender else {
        return say!["contender="];
    };
    let to = Hex(u16::from(contender.address), 2);
    match clash {
        Clash::Holds => holds_clash(step.board, contender),
        Clash::Bytes => say![
            "the other controller's frame has " (Count(contender.bytes.len()))
            " data bytes; the board's \"foreign_bytes\" is "
            (Number(u64::from(step.board.foreign_bytes())))
        ],
        Clash::Contentions => say![
            "another controller wins, and others won " (Number(u64::from(bus.lost)))
            " times before; the board's \"contentions\" is "
            (Number(u64::from(step.board.contentions())))
        ],
        Clash::Beside => say![
            "another controller wins, since 0x" (to) " is lower than 0x"
            (Hex(u16::from(message.address), 2)) ": beside it an answer has only \"alerts=\""
        ],
        Clash::Address => say![
            "another controller's frame to 0x" (to) ", which isn't in the board's \"foreign\""
        ],
    }
}
