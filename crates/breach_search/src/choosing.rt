//! The answers to a message that make a difference.

use crate::values::{Test, telling_values};
use board::{Board, Range, full_length, full_values};
use bundles::can_be_said;
use indexmap::IndexMap;
use pmbus_table::code::{PAGE, STATUS_WORD, WRITE_PROTECT};
use seq_program::{Instr, Program};
use smbus::{Answer, Contender, Form, Message, sent_count, slot_count};
use std::alloc::{AllocError, Global};
use targets::{BusState, fits};

/// The least hold that cuts a frame: SCL is low for 5000 ticks and one.
const CUT: u16 = 5000;

/// What answers are chosen by.
#[derive(Drop)]
pub(crate) struct Chooser {
    tests: Vec<Test>,
    /// Whether the program looks at alerts.
    alerts: bool,
    /// The values of a range that make a difference, by its ends.
    values: IndexMap<(u16, u16), Vec<u16>>,
}

/// Whether an instruction looks at alerts.
fn looks_at_alerts(instr: &Instr) -> bool {
    matches!(instr, Instr::Alert { .. } | Instr::IfAlert { .. })
}

fn has_alerts(program: &Program) -> bool {
    (0..program.places()).any(|place| program.at(place).is_some_and(looks_at_alerts))
}

/// Holds that cut a frame in a slot.
fn cut_at(alloc: Global, slot: usize) -> Result<Vec<u16>, AllocError> {
    let mut holds = Vec::new(alloc);
    for _ in 0..slot {
        holds.push(0)?;
    }
    holds.push(CUT)?;
    Ok(holds)
}

/// The values that a read of a message may return.
fn range_of(board: &Board, message: &Message) -> Range {
    match board.entry_for(message) {
        Some(entry) => entry.values(),
        None => full_values(message.form),
    }
}

fn length_of(board: &Board, message: &Message) -> Range {
    match board.entry_for(message) {
        Some(entry) => entry.length(),
        None => full_length(),
    }
}

/// What a target stores in the register that is read, if that is PAGE or WRITE_PROTECT.
fn stored(board: &Board, state: &BusState, message: &Message) -> Option<u16> {
    let index = board.target_at(message.address)?;
    let stored = match message.code {
        PAGE => state.page.get(index)?,
        WRITE_PROTECT => state.protect.get(index)?,
        _ => return None,
    };
    Some(u16::from(*stored))
}

/// The answer by which a message reads a value, of a block the first byte.
fn reading(
    alloc: Global,
    board: &Board,
    message: &Message,
    value: u16,
) -> Result<Answer, AllocError> {
    let mut answer = Answer::silent(alloc);
    match message.form {
        Form::BlockRead | Form::BlockProcessCall => {
            answer.bytes.push((value & 0xff) as u8)?;
            for _ in 1..length_of(board, message).low {
                answer
                    .bytes
                    .push((range_of(board, message).low & 0xff) as u8)?;
            }
        }
        _ => answer.value = value,
    }
    Ok(answer)
}

/// Adds what an alert response may return: those that don't fit are left out later.
fn push_alert_answers(
    alloc: Global,
    board: &Board,
    answers: &mut Vec<Answer>,
) -> Result<(), AllocError> {
    for target in board.targets() {
        let mut answer = Answer::silent(alloc);
        answer.value = 2 * u16::from(target.address());
        answers.push(answer)?;
    }
    let mut nobody = Answer::silent(alloc);
    nobody.refuse = Some(0);
    answers.push(nobody)?;
    Ok(())
}

/// Adds refusals of a message like this answer: in its last byte, where the write takes effect or
/// not, and in its first.
fn push_refused(
    answers: &mut Vec<Answer>,
    message: &Message,
    like: &Answer,
) -> Result<(), AllocError> {
    let last = sent_count(message).saturating_sub(1).min(65_535) as u16;
    for (byte, took) in [(last, false), (last, true), (0, false)] {
        let mut answer = like.clone()?;
        answer.refuse = Some(byte);
        answer.took = took;
        answers.push(answer)?;
    }
    Ok(())
}

/// Adds frames of a message like this answer that are cut: in the STOP, in the slot before it, and
/// in the first.
fn push_cut(
    alloc: Global,
    board: &Board,
    answers: &mut Vec<Answer>,
    message: &Message,
    like: &Answer,
) -> Result<(), AllocError> {
    if board.largest_stretch() < CUT {
        return Ok(());
    }
    let slots = slot_count(message, like);
    let last = slots.saturating_sub(1);
    let before = slots.saturating_sub(2);
    for (slot, took) in [
        (last, false),
        (last, true),
        (before, false),
        (before, true),
        (0, false),
    ] {
        let mut answer = like.clone()?;
        answer.holds = cut_at(alloc, slot)?;
        answer.took = took;
        answers.push(answer)?;
    }
    Ok(())
}

/// Whether a message reads STATUS_WORD.
fn reads_status(message: &Message) -> bool {
    message.form == Form::ReadWord && message.code == STATUS_WORD
}

/// Adds an answer like each of the first so many that is cut in its STOP: a status word that was
/// read by then is a report all the same.
fn push_cut_reports(
    alloc: Global,
    board: &Board,
    answers: &mut Vec<Answer>,
    message: &Message,
    count: usize,
) -> Result<(), AllocError> {
    if board.largest_stretch() < CUT || !reads_status(message) {
        return Ok(());
    }
    for index in 0..count {
        let Some(like) = answers.get(index) else {
            return Ok(());
        };
        let mut answer = like.clone()?;
        answer.holds = cut_at(alloc, slot_count(message, like).saturating_sub(1))?;
        answers.push(answer)?;
    }
    Ok(())
}

/// Adds a frame of another controller that wins over the message.
fn push_lost(
    alloc: Global,
    board: &Board,
    answers: &mut Vec<Answer>,
    message: &Message,
) -> Result<(), AllocError> {
    for address in board.foreign() {
        if *address < message.address {
            let mut answer = Answer::silent(alloc);
            answer.contender = Some(Contender {
                address: *address,
                read: false,
                bytes: Vec::new(alloc),
                holds: Vec::new(alloc),
            });
            answers.push(answer)?;
            break;
        }
    }
    Ok(())
}

/// Adds an answer like this one in which these targets begin to alert.
fn push_alert(answers: &mut Vec<Answer>, like: &Answer, alerts: u16) -> Result<(), AllocError> {
    let mut answer = like.clone()?;
    answer.alerts = alerts;
    answers.push(answer)?;
    Ok(())
}

/// Adds an answer like this one for each target that may begin to alert, and one in which all do.
fn push_alerting(
    board: &Board,
    answers: &mut Vec<Answer>,
    like: &Answer,
) -> Result<(), AllocError> {
    let mut all: u16 = 0;
    for (index, target) in board.targets().iter().enumerate() {
        if index < 16 && target.alerts() {
            all |= 1 << index;
            push_alert(answers, like, 1 << index)?;
        }
    }
    if all.count_ones() > 1 {
        push_alert(answers, like, all)?;
    }
    Ok(())
}

/// Adds, for each of the answers, those like it in which targets begin to alert.
fn push_alerts(board: &Board, answers: &mut Vec<Answer>) -> Result<(), AllocError> {
    for index in 0..answers.len() {
        let Some(like) = answers.get(index) else {
            return Ok(());
        };
        let like = like.clone()?;
        push_alerting(board, answers, &like)?;
    }
    Ok(())
}

/// Adds what goes wrong with a message behind the answers by which it is done.
fn push_others(
    alloc: Global,
    board: &Board,
    answers: &mut Vec<Answer>,
    message: &Message,
) -> Result<(), AllocError> {
    let done = answers.len();
    let like = match answers.first() {
        Some(first) => first.clone()?,
        None => Answer::silent(alloc),
    };
    push_refused(answers, message, &like)?;
    push_cut(alloc, board, answers, message, &like)?;
    push_cut_reports(alloc, board, answers, message, done)?;
    push_lost(alloc, board, answers, message)
}

/// The answers that the targets may give in this state, and that can be said.
fn fitting(
    alloc: Global,
    board: &Board,
    state: &BusState,
    message: Option<&Message>,
    answers: Vec<Answer>,
) -> Result<Vec<Answer>, AllocError> {
    let mut fitting = Vec::new(alloc);
    for answer in answers {
        if fits(board, state, message, &answer) && can_be_said(&answer) {
            fitting.push(answer)?;
        }
    }
    Ok(fitting)
}

impl Chooser {
    pub(crate) fn new(alloc: Global, program: &Program, tests: Vec<Test>) -> Chooser {
        Chooser {
            tests,
            alerts: has_alerts(program),
            values: IndexMap::new(alloc),
        }
    }

    /// The values of a range that make a difference.
    fn values_in(&mut self, alloc: Global, range: Range) -> Result<Vec<u16>, AllocError> {
        let ends = (range.low, range.high);
        if let Some(values) = self.values.get(&ends) {
            return values.clone();
        }
        let values = telling_values(alloc, &self.tests, range)?;
        let kept = values.clone()?;
        self.values.insert(ends, kept)?;
        Ok(values)
    }

    /// The values that may be read by a message and make a difference.
    fn values_for(
        &mut self,
        alloc: Global,
        board: &Board,
        state: &BusState,
        message: &Message,
    ) -> Result<Vec<u16>, AllocError> {
        match (message.form, stored(board, state, message)) {
            (Form::ReadByte, Some(stored)) => Ok(vec![in alloc; stored]?),
            _ => self.values_in(alloc, range_of(board, message)),
        }
    }

    /// Adds the answers by which a message reads a value.
    fn push_readings(
        &mut self,
        alloc: Global,
        board: &Board,
        answers: &mut Vec<Answer>,
        state: &BusState,
        message: &Message,
    ) -> Result<(), AllocError> {
        let values = self.values_for(alloc, board, state, message)?;
        for value in &values {
            answers.push(reading(alloc, board, message, *value)?)?;
        }
        Ok(())
    }

    /// Adds the answers by which a message is done.
    fn push_done(
        &mut self,
        alloc: Global,
        board: &Board,
        answers: &mut Vec<Answer>,
        state: &BusState,
        message: &Message,
    ) -> Result<(), AllocError> {
        match message.form {
            Form::Quick(_)
            | Form::SendByte
            | Form::WriteByte
            | Form::WriteWord
            | Form::BlockWrite => Ok(answers.push(Answer::silent(alloc))?),
            Form::Alert => push_alert_answers(alloc, board, answers),
            _ => self.push_readings(alloc, board, answers, state, message),
        }
    }

    /// The answers to a message, or to a step that sends nothing, that the targets may give in this
    /// state and that make a difference.
    pub(crate) fn answers_to(
        &mut self,
        alloc: Global,
        board: &Board,
        state: &BusState,
        message: Option<&Message>,
    ) -> Result<Vec<Answer>, AllocError> {
        let mut answers = Vec::new(alloc);
        match message {
            Some(message) => {
                self.push_done(alloc, board, &mut answers, state, message)?;
                push_others(alloc, board, &mut answers, message)?;
            }
            None => answers.push(Answer::silent(alloc))?,
        }
        if self.alerts {
            push_alerts(board, &mut answers)?;
        }
        fitting(alloc, board, state, message, answers)
    }
}
