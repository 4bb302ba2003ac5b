//! States of a run: the machine, and which rails reported good.

ghost use Rattle.std.specs.Prelude.{IfOk, IfSome};
ghost use Rattle.simulator.specs.Machines.{IsMachine};

use crate::belonging::is_machine;
use crate::liveness::Live;
use board::Board;
use facts::GoodSet;
use seq_program::Program;
use simulator::{Ending, Machine};
use std::alloc::{AllocError, Global};
use targets::BusState;

/// A machine, and the rails that are known to be good.
#[derive(Drop)]
pub(crate) struct State {
    pub machine: Machine,
    pub good: GoodSet,
}

fn push_word(bytes: &mut Vec<u8>, word: u16) -> Result<(), AllocError> {
    bytes.extend_from_slice(&word.to_le_bytes())
}

/// Adds the registers, 0 for those that don't matter.
fn push_registers(bytes: &mut Vec<u8>, words: &[u16; 8], live: Live) -> Result<(), AllocError> {
    for (index, word) in words.iter().enumerate() {
        push_word(bytes, if live.has_register(index) { *word } else { 0 })?;
    }
    Ok(())
}

/// Adds the counters, 0 for those that don't matter.
fn push_counters(bytes: &mut Vec<u8>, words: &[u16; 4], live: Live) -> Result<(), AllocError> {
    for (index, word) in words.iter().enumerate() {
        push_word(bytes, if live.has_counter(index) { *word } else { 0 })?;
    }
    Ok(())
}

/// Adds a byte for each rail of the board.
fn push_rails(bytes: &mut Vec<u8>, board: &Board, good: GoodSet) -> Result<(), AllocError> {
    for rail in 0..64 {
        if usize::from(rail) < board.rails().len() {
            bytes.push(u8::from(good.contains(rail)))?;
        }
    }
    Ok(())
}

/// The bytes that tell a state of a running machine from all others that differ in what matters.
pub(crate) fn key_of(
    alloc: Global,
    board: &Board,
    machine: &Machine,
    good: GoodSet,
    live: Live,
) -> Result<Vec<u8>, AllocError> {
    let mut bytes = Vec::new(alloc);
    push_word(&mut bytes, machine.place.min(65_535) as u16)?;
    push_registers(&mut bytes, &machine.regs, live)?;
    push_counters(&mut bytes, &machine.counters, live)?;
    push_word(&mut bytes, machine.bus.alerting)?;
    push_word(&mut bytes, machine.bus.lost)?;
    bytes.extend_from_slice(&machine.bus.page)?;
    bytes.extend_from_slice(&machine.bus.protect)?;
    push_rails(&mut bytes, board, good)?;
    Ok(bytes)
}

/// Reads a key from its beginning.
#[derive(Drop)]
struct Reader<'a> {
    bytes: &'a [u8],
}

impl<'a> Reader<'a> {
    fn byte(&mut self) -> u8 {
        match self.bytes.split_first() {
            Some((first, rest)) => {
                self.bytes = rest;
                *first
            }
            None => 0,
        }
    }

    fn word(&mut self) -> u16 {
        let low = self.byte();
        u16::from_le_bytes([low, self.byte()])
    }

    fn counted(&mut self, alloc: Global, count: usize) -> Result<Vec<u8>, AllocError> {
        let (first, rest) = self.bytes.split_at(count.min(self.bytes.len()));
        self.bytes = rest;
        first.to_vec(alloc)
    }

    fn rails(&mut self, count: usize) -> GoodSet {
        let mut good = GoodSet::empty();
        for rail in 0..64 {
            if usize::from(rail) < count && self.byte() == 1 {
                good = good.with(rail);
            }
        }
        good
    }
}

fn words_in<const N: usize>(reader: &mut Reader<'_>) -> [u16; N] {
    let mut words = [0; N];
    for word in &mut words {
        *word = reader.word();
    }
    words
}

/// The state that a key tells.
fn told_by(alloc: Global, board: &Board, key: &[u8]) -> Result<State, AllocError> {
    let mut reader = Reader { bytes: key };
    let targets = board.targets().len();
    let place = usize::from(reader.word());
    let regs = words_in(&mut reader);
    let counters = words_in(&mut reader);
    let alerting = reader.word();
    let lost = reader.word();
    let page = reader.counted(alloc, targets)?;
    let protect = reader.counted(alloc, targets)?;
    let good = reader.rails(board.rails().len());
    Ok(State {
        machine: Machine {
            place,
            regs,
            counters,
            bus: BusState {
                page,
                protect,
                alerting,
                lost,
            },
            ended: Ending::Running,
        },
        good,
    })
}

/// The state that a key tells, which is one of the board and the program.
pub(crate) fn state_of(
    alloc: Global,
    board: &Board,
    program: &Program,
    key: &[u8],
) -> Result<Option<State>, AllocError>
    ensures { IfOk result
        (λ found. IfSome found (λ state. IsMachine board.now program.now state.machine)) }
{
    let state = told_by(alloc, board, key)?;
    if is_machine(board, program, &state.machine) {
        Ok(Some(state))
    } else {
        Ok(None)
    }
}
