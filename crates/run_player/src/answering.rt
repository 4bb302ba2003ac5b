//! What all targets answer in a step, and who starts beside our controller.

ghost use Rattle.std.specs.Prelude.{IfOk, IfSome, IsTrue, option_map};
ghost use Rattle.bundles.specs.AnswerTexts.{CanBeSaid};
ghost use Rattle.targets.specs.Fitting.{FitsStep};

use crate::chance::Chance;
use crate::contending::{contender, holds};
use crate::reading::{Values, block_read, byte_read};
use board::Board;
use bundles::can_be_said;
use smbus::{Answer, Form, Message, contender_over, sent_count, slot_count};
use std::alloc::{AllocError, Global};
use targets::{BusState, fits};

/// Some of the targets that may alert, now and again.
fn alerts(board: &Board, chance: &mut Chance) -> u16 {
    let mut bits = 0;
    if !chance.once_in(12) {
        return bits;
    }
    for (index, target) in board.targets().iter().enumerate() {
        if index < 16 && target.alerts() && chance.one_of(2) == 1 {
            bits |= 1 << index;
        }
    }
    bits
}

/// Puts what an alert response returns into an answer: the byte of the target that wins, or a
/// refusal where none alerts.
fn answer_alert(board: &Board, state: &BusState, message: &Message, answer: &mut Answer) {
    for target in board.targets() {
        answer.value = 2 * u16::from(target.address());
        if fits(board, state, Some(message), answer) {
            return;
        }
    }
    answer.value = 0;
    answer.refuse = Some(0);
}

/// Now and again refuses one of the controller's bytes.
fn refuse_some(chance: &mut Chance, message: &Message, answer: &mut Answer) {
    if chance.once_in(10) {
        let count = sent_count(message).min(65_535).max(1) as u32;
        answer.refuse = Some(chance.one_of(count) as u16);
    }
}

/// Puts what is read by a message into an answer.
fn answer_reads(
    alloc: Global,
    values: &Values<'_>,
    chance: &mut Chance,
    state: &BusState,
    message: &Message,
    answer: &mut Answer,
) -> Result<(), AllocError> {
    match message.form {
        Form::Quick(_) | Form::SendByte | Form::WriteByte | Form::WriteWord | Form::BlockWrite => {}
        Form::ReadByte => answer.value = byte_read(values, chance, state, message),
        Form::ReceiveByte | Form::ReadWord | Form::ProcessCall => {
            answer.value = values.value(chance, message);
        }
        Form::BlockRead => answer.bytes = block_read(alloc, values, chance, message, 0)?,
        Form::BlockProcessCall => {
            answer.bytes = block_read(alloc, values, chance, message, message.out.len())?;
        }
        Form::Alert => answer_alert(values.board, state, message, answer),
    }
    Ok(())
}

/// Puts into an answer what the targets do with a message over which no other controller wins.
fn answer_message(
    alloc: Global,
    values: &Values<'_>,
    chance: &mut Chance,
    state: &BusState,
    message: &Message,
    answer: &mut Answer,
) -> Result<(), AllocError> {
    answer_reads(alloc, values, chance, state, message, answer)?;
    if message.form != Form::Alert {
        refuse_some(chance, message, answer);
    }
    answer.took = chance.one_of(2) == 1;
    let slots = slot_count(message, answer);
    answer.holds = holds(alloc, chance, slots, values.board.largest_stretch())?;
    Ok(())
}

/// An answer that is chosen for a message, or for a step that sends nothing.
fn chosen(
    alloc: Global,
    values: &Values<'_>,
    chance: &mut Chance,
    state: &BusState,
    message: Option<&Message>,
) -> Result<Answer, AllocError> {
    let mut answer = Answer::silent(alloc);
    answer.alerts = alerts(values.board, chance);
    if let Some(message) = message {
        answer.contender = contender(alloc, values.board, chance)?;
        if contender_over(message, &answer).is_none() {
            answer_message(alloc, values, chance, state, message, &mut answer)?;
        }
    }
    Ok(answer)
}

/// An answer that is chosen for a message, or for a step that sends nothing, and that the targets
/// may give; the plain one where they may not; `None` where they can't answer.
pub(crate) fn answer_to(
    alloc: Global,
    values: &Values<'_>,
    chance: &mut Chance,
    state: &BusState,
    message: Option<&Message>,
) -> Result<Option<Answer>, AllocError>
    ensures fits { IfOk result (λ answer. IfSome answer (λ a. FitsStep values.entry.now.board.now
        state.now (option_map (λ m. m.now) message.entry) a)) }
    ensures said { IfOk result (λ answer. IfSome answer CanBeSaid) }
{
    let answer = chosen(alloc, values, chance, state, message)?;
    if may_be(values.board, state, message, &answer) {
        return Ok(Some(answer));
    }
    let plain = chosen(alloc, values, &mut Chance::Plain, state, message)?;
    if may_be(values.board, state, message, &plain) {
        return Ok(Some(plain));
    }
    Ok(None)
}

/// Whether an answer is one that the targets may give, and that a line can say.
fn may_be(board: &Board, state: &BusState, message: Option<&Message>, answer: &Answer) -> bool
    ensures fits { IsTrue result
        → FitsStep board.now state.now (option_map (λ m. m.now) message.entry) answer.now }
    ensures said { IsTrue result → CanBeSaid answer.now }
{
    fits(board, state, message, answer) && can_be_said(answer)
}
