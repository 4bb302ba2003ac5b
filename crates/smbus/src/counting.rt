//! How many bytes and slots the frame of a message has.

ghost use Rattle.std.specs.Prelude.{◌≡◌, ◌-◌, ◌^◌, ℕ, List, length, min};
ghost use Rattle.smbus.specs.Protocol.{sent_count, whole};
ghost use Rattle.smbus.specs.Parts.{first_bytes, returned_bytes};
ghost use Rattle.smbus.specs.Slots.{slots_of};
ghost use Rattle.smbus.specs.SlotCounts.{most_slots};
ghost use Rattle.smbus.specs.Counts.{repeat_count, controller_count, byte_count};

use crate::message::{Answer, Form, Message};
use crate::parts::{Returned, Written, parts_of};

/// How many bytes the controller sends before a repeated START, or in all.
fn first_count(message: &Message) -> usize
    ensures { result ≡ length (first_bytes message.now) }
{
    match parts_of(message.form).written {
        Written::Nothing(_) => 1,
        Written::Code => 2,
        Written::Data(_) => message.out.len() + 2,
        Written::Block => message.out.len() + 3,
    }
}

/// How many repeated STARTs there are.
fn repeat_count(form: Form) -> usize
    ensures { result ≡ repeat_count form }
{
    usize::from(parts_of(form).has_repeat())
}

/// How many bytes the target sends.
fn returned_count(message: &Message, answer: &Answer) -> usize
    ensures { result ≡ length (returned_bytes message.now.form answer.now.value answer.now.bytes) }
{
    match parts_of(message.form).returned {
        Returned::Nothing => 0,
        Returned::Byte => 1,
        Returned::Word => 2,
        Returned::Block => answer.bytes.len() + 1,
    }
}

/// How many bytes of a message the controller sends, addresses, code and count among them
/// (SMBus 3.2, 6.5).
#[tactic(auto, using(crate::proofs::CountedSlots::controller_count_sent))]
pub fn sent_count(message: &Message) -> usize
    ensures count { result ≡ controller_count message.now }
    ensures sent { (value : ℕ) (block : List ℕ)
        → sent_count (whole message.now value block) ≡ result }
{
    first_count(message) + repeat_count(message.form)
}

/// How many bytes go out: up to the refused byte, or all.
fn byte_count(message: &Message, answer: &Answer) -> usize
    ensures { result ≡ min (byte_count message.now answer.now) (2 ^ 64 - 1) }
{
    let sent = sent_count(message);
    match answer.refuse {
        Some(number) if (number as usize) < sent => number as usize + 1,
        _ => sent.saturating_add(returned_count(message, answer)),
    }
}

/// How many slots a message has under an answer, the STOP among them, or the greatest number where
/// there are more.
pub fn slot_count(message: &Message, answer: &Answer) -> usize
    ensures { result ≡ min (length (slots_of message.now answer.now)) (2 ^ 64 - 1) }
{
    let bytes = byte_count(message, answer);
    let mut others = 1;
    if first_count(message) < bytes {
        others += repeat_count(message.form);
    }
    bytes.saturating_mul(9).saturating_add(others)
}

/// The most slots of a message of a form, where so many bytes of a block are sent and read at most.
pub fn most_slots(form: Form, sent: u16, read: u16) -> u32
    ensures { result ≡ most_slots form sent read }
{
    let sent = u32::from(sent);
    let read = u32::from(read);
    match form {
        Form::Quick(_) => 10,
        Form::SendByte | Form::ReceiveByte | Form::Alert => 19,
        Form::WriteByte => 28,
        Form::WriteWord => 37,
        Form::ReadByte => 38,
        Form::ReadWord => 47,
        Form::ProcessCall => 65,
        Form::BlockWrite => 28 + 9 * sent,
        Form::BlockRead => 38 + 9 * read,
        Form::BlockProcessCall => 47 + 9 * (sent + read),
    }
}
