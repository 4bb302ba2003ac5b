//! Another controller that starts at the same time, and how long slots are held.

use crate::chance::Chance;
use board::Board;
use smbus::{Contender, contender_slot_count};
use std::alloc::{AllocError, Global};

/// Adds slots that aren't held.
fn push_free(holds: &mut Vec<u16>, count: u32) -> Result<(), AllocError> {
    for _ in 0..count {
        holds.push(0)?;
    }
    Ok(())
}

/// No holds, or up to three of so many slots, each at most the longest. The last isn't 0.
pub(crate) fn holds(
    alloc: Global,
    chance: &mut Chance,
    slots: usize,
    longest: u16,
) -> Result<Vec<u16>, AllocError> {
    let mut holds = Vec::new(alloc);
    if longest == 0 || !chance.once_in(4) {
        return Ok(holds);
    }
    for _ in 0..chance.one_of(3) + 1 {
        let left = slots.saturating_sub(holds.len()).min(65_535);
        push_free(&mut holds, chance.one_of(left as u32))?;
        if left > 0 {
            holds.push(hold(chance, longest))?;
        }
    }
    Ok(holds)
}

/// A hold, mostly a short one, or the longest.
fn hold(chance: &mut Chance, longest: u16) -> u16 {
    match chance.one_of(4) {
        0 => longest,
        1 => chance.between(1, longest),
        _ => chance.between(1, longest.min(20)),
    }
}

/// The bytes of another controller's frame.
fn foreign_bytes(alloc: Global, chance: &mut Chance, most: u16) -> Result<Vec<u8>, AllocError> {
    let mut bytes = Vec::new(alloc);
    for _ in 0..chance.between(0, most) {
        bytes.push(chance.one_of(256) as u8)?;
    }
    Ok(bytes)
}

/// Now and again another controller of the board that starts at the same time.
pub(crate) fn contender(
    alloc: Global,
    board: &Board,
    chance: &mut Chance,
) -> Result<Option<Contender>, AllocError> {
    if board.foreign().is_empty() || !chance.once_in(6) {
        return Ok(None);
    }
    let address = chance.byte_of(board.foreign()).min(127);
    let mut contender = Contender {
        address,
        read: chance.one_of(2) == 1,
        bytes: foreign_bytes(alloc, chance, board.foreign_bytes())?,
        holds: Vec::new(alloc),
    };
    let slots = contender_slot_count(&contender);
    contender.holds = holds(alloc, chance, slots, board.foreign_stretch())?;
    Ok(Some(contender))
}
