//! Another controller that starts a frame at the same time as ours.

ghost use Rattle.std.specs.Prelude.{◌≡◌, ◌-◌, ◌^◌, length, min, option_map, IfOk};
ghost use Rattle.smbus.specs.Contenders.{contender_slots, contender_slot_count};
ghost use Rattle.smbus.specs.Winners.{winner, carried};

use crate::message::{Answer, Message};
use crate::slots::{push_byte, push_got, push_sent};
use bit_bus::Slot;
use std::alloc::{AllocError, Global};
use std::marker::Model;

/// What another controller says that starts a frame at the same time as ours (UM10204, 3.1.8): its
/// address and its data bytes are those of one segment, and all are acknowledged but the last byte
/// that it reads.
#[derive(Clone, Debug, Drop)]
pub struct Contender {
    /// Seven bits: at most 127.
    pub address: u8,
    /// The direction, `true` to read.
    pub read: bool,
    /// The data bytes, written or read.
    pub bytes: Vec<u8>,
    /// For how many ticks of 5 µs the low period of each slot is stretched. A missing hold is 0.
    pub holds: Vec<u16>,
}

impl Model for Contender {
    ghost use Rattle.std.specs.Prelude.{◌≤◌};
    ghost use Rattle.smbus.specs.Contenders.{Contender};

    ghost Value = { Contender };

    ghost view = { λ c. record {
      address = c.address;
      read = c.read;
      bytes = c.bytes.items;
      holds = c.holds.items;
    } };

    ghost invariant = { λ c. c.address ≤ 127 };
}

/// How many slots its frame has, the STOP among them, or the greatest number where there are more.
pub fn contender_slot_count(contender: &Contender) -> usize
    ensures { result ≡ min (contender_slot_count (length contender.now.bytes)) (2 ^ 64 - 1) }
{
    let bytes = contender.bytes.len().saturating_add(1);
    bytes.saturating_mul(9).saturating_add(1)
}

/// The slots of its frame, and then `End`. The holds aren't looked at. Fails only for want of
/// memory.
pub fn contender_slots(alloc: Global, contender: &Contender) -> Result<Vec<Slot>, AllocError>
    ensures { IfOk result (λ slots. slots.items ≡ contender_slots contender.now) }
{
    let address_byte = 2 * contender.address + u8::from(contender.read);
    let mut slots = Vec::with_capacity(alloc, contender_slot_count(contender))?;
    push_byte(&mut slots, address_byte, true)?;
    if contender.read {
        push_got(&mut slots, &contender.bytes)?;
    } else {
        push_sent(&mut slots, &contender.bytes)?;
    }
    slots.push(Slot::End)?;
    Ok(slots)
}

/// The controller that wins over a message, if one does: it starts at the same time, and its
/// address is lower (UM10204, 3.1.8).
pub fn contender_over<'a>(message: &Message, answer: &'a Answer) -> Option<&'a Contender>
    ensures { option_map (λ c. c.now) result ≡ winner message.now answer.now }
{
    match &answer.contender {
        Some(contender) if contender.address < message.address => Some(contender),
        _ => None,
    }
}

/// Of what a step sends, what the wire carries: all but a message over which another controller
/// wins (UM10204, 3.1.8).
pub fn carried<'a>(message: Option<&'a Message>, answer: &Answer) -> Option<&'a Message>
    ensures { option_map (λ m. m.now) result
        ≡ carried (option_map (λ m. m.now) message.entry) answer.now }
{
    let message = message?;
    match contender_over(message, answer) {
        Some(_) => None,
        None => Some(message),
    }
}
