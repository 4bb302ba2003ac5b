ghost use Rattle.std.specs.Prelude.{◌≡◌, ◌≤◌, ◌<◌, ◌+◌, ◌++◌, ◌↔◌, false, is_none, length, take};
ghost use Rattle.std.specs.Prelude.{vec_len, vec_capacity};
ghost use Rattle.std.specs.Prelude.{slice_index, IfOk, OnOk, IfSome, IfNone, IsTrue, IsErrOf};
ghost use Rattle.wires.specs.Bits.{bits_of};
ghost use Rattle.smbus.specs.Protocol.{sent, got, bit_marks, byte_marks, marks_of};
ghost use Rattle.smbus.specs.Protocol.{HasLength, AreGoodCounts};
ghost use Rattle.smbus.specs.Protocol.{low, high, sent_count, whole, IsNumbered};
ghost use Rattle.smbus.specs.Parts.{first_bytes, has_repeat, returned_bytes};
ghost use Rattle.smbus.specs.Parts.{rest_of, IsAfter};
ghost use Rattle.smbus.specs.Slots.{marks_sent, slots_of, IsGoodData, IsGoodBlock};

use crate::counting::{sent_count, slot_count};
use crate::fault::SmbusFault;
use crate::message::{Answer, Form, Message};
use crate::parts::{Returned, Written, parts_of};
use bit_bus::Slot;
use std::alloc::{AllocError, Global};

/// The bytes that the controller sends up to a repeated START, or all of them.
fn first_bytes(alloc: Global, message: &Message) -> Result<Vec<u8>, AllocError>
    requires { AreGoodCounts message.now.form (length message.now.out) 1 }
    ensures { IfOk result (λ bytes. bytes.items ≡ first_bytes message.now) }
{
    let to_write = 2 * message.address;
    let mut bytes = Vec::new(alloc);
    match parts_of(message.form).written {
        Written::Nothing(is_read) => bytes.push(to_write + u8::from(is_read))?,
        Written::Code => bytes.extend_from_slice(&[to_write, message.code])?,
        Written::Data(_) => {
            bytes.extend_from_slice(&[to_write, message.code])?;
            bytes.extend_from_slice(&message.out)?;
        }
        Written::Block => {
            let count = message.out.len() as u8;
            bytes.extend_from_slice(&[to_write, message.code, count])?;
            bytes.extend_from_slice(&message.out)?;
        }
    }
    Ok(bytes)
}

/// The bytes that a target sends.
fn returned_bytes(
    alloc: Global,
    form: Form,
    value: u16,
    block: &[u8],
) -> Result<Vec<u8>, AllocError>
    requires { AreGoodCounts form 1 (length block.now) }
    ensures { IfOk result (λ bytes. bytes.items ≡ returned_bytes form value block.now) }
{
    let low = (value % 256) as u8;
    let high = (value / 256) as u8;
    let mut bytes = Vec::new(alloc);
    match parts_of(form).returned {
        Returned::Nothing => {}
        Returned::Byte => bytes.push(low)?,
        Returned::Word => bytes.extend_from_slice(&[low, high])?,
        Returned::Block => {
            bytes.push(block.len() as u8)?;
            bytes.extend_from_slice(block)?;
        }
    }
    Ok(bytes)
}

const LOW: Slot = Slot::Bit(false);

const HIGH: Slot = Slot::Bit(true);

/// The bits of each number below 16, most significant first.
static NIBBLES: [[Slot; 4]; 16] = [
    [LOW, LOW, LOW, LOW],
    [LOW, LOW, LOW, HIGH],
    [LOW, LOW, HIGH, LOW],
    [LOW, LOW, HIGH, HIGH],
    [LOW, HIGH, LOW, LOW],
    [LOW, HIGH, LOW, HIGH],
    [LOW, HIGH, HIGH, LOW],
    [LOW, HIGH, HIGH, HIGH],
    [HIGH, LOW, LOW, LOW],
    [HIGH, LOW, LOW, HIGH],
    [HIGH, LOW, HIGH, LOW],
    [HIGH, LOW, HIGH, HIGH],
    [HIGH, HIGH, LOW, LOW],
    [HIGH, HIGH, LOW, HIGH],
    [HIGH, HIGH, HIGH, LOW],
    [HIGH, HIGH, HIGH, HIGH],
];

/// The bits of a number below 16, for which there is room.
#[inline(always)]
fn push_nibble(slots: &mut Vec<Slot>, nibble: u8)
    requires nibble { nibble < 16 }
    requires room { vec_len slots.old + 4 ≤ vec_capacity slots.old }
    ensures bits { slots.new.items ≡ slots.old.items ++ bit_marks (bits_of 4 nibble) }
    ensures len { vec_len slots.new ≡ vec_len slots.old + 4 }
    ensures capacity { vec_capacity slots.new ≡ vec_capacity slots.old }
{
    let [first, second, third, last] = NIBBLES[usize::from(nibble)];
    slots.push_reserved(first);
    slots.push_reserved(second);
    slots.push_reserved(third);
    slots.push_reserved(last);
}

/// The bits of a byte, most significant first, and its acknowledge.
#[inline(always)]
pub(crate) fn push_byte(
    slots: &mut Vec<Slot>,
    byte: u8,
    acknowledged: bool,
) -> Result<(), AllocError>
    ensures { OnOk result (slots.new.items ≡ slots.old.items ++ byte_marks byte acknowledged) }
{
    slots.reserve(9)?;
    push_nibble(slots, byte / 16);
    push_nibble(slots, byte % 16);
    slots.push_reserved(Slot::Bit(!acknowledged));
    Ok(())
}

pub(crate) fn push_sent(slots: &mut Vec<Slot>, bytes: &[u8]) -> Result<(), AllocError>
    ensures { OnOk result (slots.new.items ≡ slots.old.items ++ marks_of (sent bytes.now)) }
{
    for byte in bytes {
        push_byte(slots, *byte, true)?;
    }
    Ok(())
}

pub(crate) fn push_got(slots: &mut Vec<Slot>, bytes: &[u8]) -> Result<(), AllocError>
    ensures { OnOk result (slots.new.items ≡ slots.old.items ++ marks_of (got bytes.now)) }
{
    let count = bytes.len();
    for (place, byte) in bytes.iter().enumerate() {
        let is_last = count - place == 1;
        push_byte(slots, *byte, !is_last)?;
    }
    Ok(())
}

/// The bytes before the one of this number, and that one, which isn't acknowledged.
fn push_refused(slots: &mut Vec<Slot>, bytes: &[u8], number: usize) -> Result<(), AllocError>
    requires { number < length bytes.now }
    ensures { OnOk result (slots.new.items
        ≡ slots.old.items ++ marks_of (sent (take number bytes.now))
        ++ byte_marks (slice_index bytes.now number) false) }
{
    push_sent(slots, &bytes[..number])?;
    push_byte(slots, bytes[number], false)
}

/// The number of the refused byte, where it is one of the first so many.
fn refused_among(refuse: Option<u16>, count: usize) -> Option<usize>
    ensures among { IfSome result (λ number. (refuse ≡ Some number) × (number < count)) }
    ensures after { IfNone result (IsAfter refuse count) }
{
    match refuse {
        Some(number) if (number as usize) < count => Some(number as usize),
        _ => None,
    }
}

/// What follows the first bytes of the controller, if all of these were acknowledged.
fn push_rest(
    alloc: Global,
    slots: &mut Vec<Slot>,
    message: &Message,
    answer: &Answer,
) -> Result<(), AllocError>
    requires { IsGoodBlock message.now answer.now }
    ensures { OnOk result (slots.new.items ≡ slots.old.items
        ++ marks_of
        (rest_of (has_repeat message.now.form) (is_none answer.now.refuse) message.now.address
        (returned_bytes message.now.form answer.now.value answer.now.bytes))) }
{
    if parts_of(message.form).has_repeat() {
        let is_accepted = answer.refuse.is_none();
        slots.push(Slot::Again)?;
        push_byte(slots, 2 * message.address + 1, is_accepted)?;
        if !is_accepted {
            return Ok(());
        }
    }
    let returned = returned_bytes(alloc, message.form, answer.value, &answer.bytes)?;
    push_got(slots, &returned)
}

/// The marks of a frame, up to the byte that is refused.
fn push_frame(
    alloc: Global,
    slots: &mut Vec<Slot>,
    message: &Message,
    answer: &Answer,
) -> Result<(), AllocError>
    requires numbered { IsNumbered answer.now.refuse
        (sent_count (whole message.now answer.now.value answer.now.bytes)) }
    requires counted { IsGoodBlock message.now answer.now }
    ensures { OnOk result (slots.new.items
        ≡ slots.old.items
        ++ marks_sent message.now answer.now.refuse answer.now.value answer.now.bytes) }
{
    let first = first_bytes(alloc, message)?;
    match refused_among(answer.refuse, first.len()) {
        Some(number) => push_refused(slots, &first, number),
        None => {
            push_sent(slots, &first)?;
            push_rest(alloc, slots, message, answer)
        }
    }
}

fn has_length(form: Form, count: usize) -> bool
    ensures { IsTrue result ↔ HasLength form count }
{
    match parts_of(form).written {
        Written::Nothing(_) | Written::Code => count == 0,
        Written::Data(length) => count == length,
        Written::Block => true,
    }
}

/// Whether a message of so many sent bytes can have this refusal: none, or that of one of these
/// bytes, which are numbered from 0 (SMBus 3.2, 6.5).
pub fn is_numbered(refuse: Option<u16>, count: usize) -> bool
    ensures { IsTrue result ↔ IsNumbered refuse count }
{
    match refuse {
        None => true,
        Some(number) => (number as usize) < count,
    }
}

fn is_good_data(message: &Message, answer: &Answer) -> bool
    ensures { IsTrue result ↔ IsGoodData message.now answer.now }
{
    has_length(message.form, message.out.len()) && is_numbered(answer.refuse, sent_count(message))
}

fn is_good_block(form: Form, written: usize, returned: usize) -> bool
    ensures { IsTrue result ↔ AreGoodCounts form written returned }
{
    let parts = parts_of(form);
    match (parts.written, parts.returned) {
        (Written::Block, Returned::Block) => {
            0 < written && 0 < returned && written <= 255 && returned <= 255 - written
        }
        (Written::Block, _) => (1..=255).contains(&written),
        (_, Returned::Block) => (1..=255).contains(&returned),
        _ => true,
    }
}

/// The slots of a message under an answer: the whole frame, or its beginning up to the byte that
/// the answer refuses, and then `End`. The holds of the answer aren't looked at.
///
/// BadData comes before BadBlock, and neither with want of memory.
pub fn frame_slots(
    alloc: Global,
    message: &Message,
    answer: &Answer,
) -> Result<Vec<Slot>, SmbusFault>
    ensures slots { IfOk result (λ slots. slots.items ≡ slots_of message.now answer.now) }
    ensures good_data { OnOk result (IsGoodData message.now answer.now) }
    ensures good_block { OnOk result (IsGoodBlock message.now answer.now) }
    ensures bad_data { IsErrOf result SmbusFault.BadData ↔ (IsGoodData message.now answer.now → ⊥) }
    ensures bad_block { IsErrOf result SmbusFault.BadBlock
        ↔ (IsGoodData message.now answer.now × (IsGoodBlock message.now answer.now → ⊥)) }
{
    if !is_good_data(message, answer) {
        return Err(SmbusFault::BadData);
    }
    if !is_good_block(message.form, message.out.len(), answer.bytes.len()) {
        return Err(SmbusFault::BadBlock);
    }
    let mut slots = Vec::with_capacity(alloc, slot_count(message, answer))?;
    push_frame(alloc, &mut slots, message, answer)?;
    slots.push(Slot::End)?;
    Ok(slots)
}
