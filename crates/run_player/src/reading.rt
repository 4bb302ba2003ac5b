//! What a target returns where it is read.

use crate::chance::Chance;
use board::{Board, Range, Target, full_length, full_values};
use pmbus_table::code::{PAGE, STATUS_WORD, WRITE_PROTECT};
use pmbus_table::reported_good;
use seq_program::{Instr, MOST_PLACES, Program};
use smbus::{Form, Message};
use std::alloc::{AllocError, Global};
use targets::BusState;

/// The number that a program compares a register with.
fn test_of(instr: &Instr) -> Option<u16> {
    match instr {
        Instr::If { value, .. } | Instr::Above { value, .. } => Some(*value),
        _ => None,
    }
}

/// The numbers that a program compares its registers with, in its order.
pub(crate) fn tests_of(alloc: Global, program: &Program) -> Result<Vec<u16>, AllocError> {
    let mut tests = Vec::new(alloc);
    for place in 0..program.places() {
        if let Some(test) = program.at(place).and_then(test_of) {
            tests.push(test)?;
        }
    }
    Ok(tests)
}

/// The least word of a range that reports good.
fn good_in(range: Range) -> Option<u16> {
    (range.low..=range.high).find(|word| reported_good(*word))
}

/// The least word by which a target reports good, where it has one.
fn good_of(target: &Target) -> Option<u16> {
    let entry = target.entry(Form::ReadWord, STATUS_WORD)?;
    good_in(entry.values())
}

/// The least word by which each target reports good.
pub(crate) fn good_words(alloc: Global, board: &Board) -> Result<Vec<Option<u16>>, AllocError> {
    let mut words = Vec::new(alloc);
    for target in board.targets() {
        words.push(good_of(target))?;
    }
    Ok(words)
}

/// What the values of a message's answers are drawn from.
#[derive(Clone, Copy)]
pub(crate) struct Values<'a> {
    pub board: &'a Board,
    /// The numbers that the program compares its registers with.
    pub tests: &'a [u16],
    /// The least word by which each target reports good.
    pub good: &'a [Option<u16>],
}

impl Values<'_> {
    /// The values that may be read by a message: the entry's, or all that its form has.
    pub(crate) fn range_of(&self, message: &Message) -> Range {
        match self.board.entry_for(message) {
            Some(entry) => entry.values(),
            None => full_values(message.form),
        }
    }

    /// The lengths of the block that may be read by a message.
    pub(crate) fn lengths_of(&self, message: &Message) -> Range {
        match self.board.entry_for(message) {
            Some(entry) => entry.length(),
            None => full_length(),
        }
    }

    /// The least word by which the target of a message reports good, if the message asks for it.
    fn good_for(&self, message: &Message) -> Option<u16> {
        if message.form != Form::ReadWord || message.code != STATUS_WORD {
            return None;
        }
        *self.good.get(self.board.target_at(message.address)?)?
    }

    /// A number at or beside one that the program compares with, in a range.
    fn tested(&self, chance: &mut Chance, range: Range) -> u16 {
        let index = chance.one_of(self.tests.len().min(MOST_PLACES) as u32) as usize;
        let test = match self.tests.get(index) {
            Some(test) => *test,
            None => range.high,
        };
        let beside = match chance.one_of(3) {
            0 => test.saturating_sub(1),
            1 => test,
            _ => test.saturating_add(1),
        };
        beside.max(range.low).min(range.high)
    }

    /// A number of a range: its ends and those that the program compares with more often than
    /// others.
    pub(crate) fn number(&self, chance: &mut Chance, range: Range) -> u16 {
        match chance.one_of(8) {
            0 => range.low,
            1 => range.high,
            2 | 3 => self.tested(chance, range),
            _ => chance.between(range.low, range.high),
        }
    }

    /// What is read by a message: where it asks for STATUS_WORD, mostly that all is good.
    pub(crate) fn value(&self, chance: &mut Chance, message: &Message) -> u16 {
        let range = self.range_of(message);
        match self.good_for(message) {
            Some(good) if chance.one_of(2) == 0 => good,
            _ => self.number(chance, range),
        }
    }
}

/// What a target stores at an index.
fn stored_at(stored: &[u8], index: Option<usize>) -> u16 {
    match index.and_then(|index| stored.get(index)) {
        Some(byte) => u16::from(*byte),
        None => 0,
    }
}

/// The byte that a Read Byte returns.
pub(crate) fn byte_read(
    values: &Values<'_>,
    chance: &mut Chance,
    state: &BusState,
    message: &Message,
) -> u16 {
    let index = values.board.target_at(message.address);
    match message.code {
        PAGE => stored_at(&state.page, index),
        WRITE_PROTECT => stored_at(&state.protect, index),
        _ => values.value(chance, message),
    }
}

/// The block that is read, beside so many bytes that are written: both have at most 255.
pub(crate) fn block_read(
    alloc: Global,
    values: &Values<'_>,
    chance: &mut Chance,
    message: &Message,
    written: usize,
) -> Result<Vec<u8>, AllocError> {
    let lengths = values.lengths_of(message);
    let room = 255usize.saturating_sub(written) as u16;
    let high = lengths.high.min(room).max(lengths.low);
    let count = values.number(
        chance,
        Range {
            low: lengths.low,
            high,
        },
    );
    let range = values.range_of(message);
    let mut bytes = Vec::new(alloc);
    for _ in 0..count {
        bytes.push(values.number(chance, range).min(255) as u8)?;
    }
    Ok(bytes)
}
