//! What a message does to PAGE and WRITE_PROTECT of the target that it goes to.

ghost use Rattle.std.specs.Prelude.{◌≡◌, ◌↔◌, ◌&&◌, ℕ, Some, IfSome, IfNone, IsTrue};
ghost use Rattle.std.specs.Prelude.{option_map, length, ◌≤◌};
ghost use Rattle.smbus.specs.FirstSegment.{bytes_out};
ghost use Rattle.board.specs.Boards.{Target};
ghost use Rattle.board.specs.Valid.{IsBoard};
ghost use Rattle.targets.specs.States.{IsTargetAt};
ghost use Rattle.targets.specs.Outcomes.{IsDone, cut_of};
ghost use Rattle.targets.specs.WriteSlots.{reaches_value, cuts_after_value};
ghost use Rattle.targets.specs.Effects.{IsByteWrite, ValueWentOut, TakesEffect, IsPermitted};
ghost use Rattle.targets.specs.Effects.{WritesPage, WritesProtect};
ghost use Rattle.targets.specs.Registers.{code_of, takes, SetsRegister};

use crate::outcome::cut_of;
use crate::state::BusState;
use board::{Board, Target, is_page_value};
use pmbus_table::code::{PAGE, WRITE_PROTECT};
use pmbus_table::{is_protection, permits};
use smbus::{Answer, Form, Message};

/// Whether every byte is acknowledged and no slot cut.
pub(crate) fn is_done(message: &Message, answer: &Answer) -> bool
    ensures { IsTrue result ↔ IsDone message.now answer.now }
{
    answer.refuse.is_none() && cut_of(message, answer).is_none()
}

/// The last slot of a Write Byte's value: address and code have nine slots each, and the value
/// eight before its acknowledge.
const LAST_VALUE_SLOT: usize = 25;

fn reaches_value(refuse: Option<u16>) -> bool
    ensures { result ≡ reaches_value refuse }
{
    match refuse {
        None => true,
        Some(number) => number > 1,
    }
}

fn cuts_after_value(cut: Option<usize>) -> bool
    ensures { result ≡ cuts_after_value cut }
{
    match cut {
        None => true,
        Some(slot) => slot > LAST_VALUE_SLOT,
    }
}

/// Whether a frame goes on past the slots of a Write Byte's value.
fn goes_past_value(message: &Message, answer: &Answer) -> bool
    ensures { result
        ≡ (reaches_value answer.now.refuse && cuts_after_value (cut_of message.now answer.now)) }
{
    reaches_value(answer.refuse) && cuts_after_value(cut_of(message, answer))
}

/// Whether all eight bits of a Write Byte's value go out, its third byte: neither the address nor
/// the code is refused, and no slot before the value's acknowledge is cut (SMBus 3.2, 6.5.4).
pub fn value_goes_out(message: &Message, answer: &Answer) -> bool
    ensures marks { (address code value : ℕ) → IsByteWrite address code value message.now
        → IsTrue result ↔ ValueWentOut value message.now answer.now }
    ensures bytes { (address code value : ℕ) → IsByteWrite address code value message.now
        → IsTrue result ↔ (3 ≤ length (bytes_out message.now answer.now)) }
{
    goes_past_value(message, answer)
}

/// Whether a Write Byte takes effect.
fn takes_effect(message: &Message, answer: &Answer) -> bool
    ensures { (address code value : ℕ) → IsByteWrite address code value message.now
        → IsTrue result ↔ TakesEffect value message.now answer.now }
{
    is_done(message, answer) || (answer.took && value_goes_out(message, answer))
}

/// The value that a message writes to a command by a Write Byte.
fn written_byte(message: &Message, code: u8) -> Option<u8>
    ensures some { IfSome result (λ value. IsByteWrite message.now.address code value message.now) }
    ensures none { IfNone result
        ((address value : ℕ) → IsByteWrite address code value message.now → ⊥) }
{
    match (message.form, message.out.as_slice()) {
        (Form::WriteByte, [value]) if message.code == code => Some(*value),
        _ => None,
    }
}

fn is_permitted(state: &BusState, index: usize, code: u8) -> bool
    ensures { IsTrue result ↔ IsPermitted state.now index code }
{
    match state.protect.get(index) {
        Some(protect) => permits(*protect, code) == Some(true),
        None => false,
    }
}

/// The target of an address, and its index.
fn target_at(board: &Board, address: u8) -> Option<(usize, &Target)>
    ensures some { IfSome result
        (λ found. IsTargetAt board.now found.0 found.1.now × (found.1.now.address ≡ address)) }
    ensures only { IfSome result (λ found. IsBoard board.now
        → (i : ℕ) (t : Target) → IsTargetAt board.now i t → t.address ≡ address → i ≡ found.0) }
    ensures none { IfNone result
        ((i : ℕ) (t : Target) → IsTargetAt board.now i t → t.address ≡ address → ⊥) }
{
    let index = board.target_at(address)?;
    let target = board.target(index)?;
    Some((index, target))
}

/// The index and the target that a message writes a command of, and the value.
fn write_to<'a>(board: &'a Board, message: &Message, code: u8) -> Option<(usize, &'a Target, u8)>
    ensures some { IfSome result
        (λ w. IsTargetAt board.now w.0 w.1.now × IsByteWrite w.1.now.address code w.2 message.now) }
    ensures only { IfSome result
        (λ w. IsBoard board.now → (i : ℕ) (t : Target) (value : ℕ) → IsTargetAt board.now i t
        → IsByteWrite t.address code value message.now → (i ≡ w.0) × (value ≡ w.2)) }
    ensures none { IfNone result ((i : ℕ) (t : Target) (value : ℕ) → IsTargetAt board.now i t
        → IsByteWrite t.address code value message.now → ⊥) }
{
    let value = written_byte(message, code)?;
    let (index, target) = target_at(board, message.address)?;
    Some((index, target, value))
}

/// A register of a target that decides what becomes of its messages.
#[derive(Clone, Copy)]
pub(crate) enum Register {
    /// PAGE.
    Page,
    /// WRITE_PROTECT.
    Protect,
}

impl Register {
    fn code(self) -> u8
        ensures { result ≡ code_of self }
    {
        match self {
            Register::Page => PAGE,
            Register::Protect => WRITE_PROTECT,
        }
    }

    /// Whether a value is one of those that the register of a target takes.
    fn takes(self, target: &Target, value: u8) -> bool
        ensures { result ≡ takes self target.now value }
    {
        match self {
            Register::Page => is_page_value(target.pages(), value),
            Register::Protect => is_protection(value),
        }
    }
}

/// Whether the target of an index permits a write of a code, and the write takes effect.
fn is_taken(state: &BusState, index: usize, code: u8, message: &Message, answer: &Answer) -> bool
    ensures { (address value : ℕ) → IsByteWrite address code value message.now
        → IsTrue result
        ↔ (IsPermitted state.now index code × TakesEffect value message.now answer.now) }
{
    is_permitted(state, index, code) && takes_effect(message, answer)
}

/// The target whose register a message sets, by its index, and the value.
fn write_by(
    register: Register,
    board: &Board,
    state: &BusState,
    message: &Message,
    answer: &Answer,
) -> Option<(usize, u8)>
    ensures some { IfSome result
        (λ w. SetsRegister register board.now state.now (Some message.now) answer.now w.0 w.1) }
    ensures only { IsBoard board.now → (i value : ℕ)
        → SetsRegister register board.now state.now (Some message.now) answer.now i value
        → result ≡ Some (i, value) }
{
    let code = register.code();
    let (index, target, value) = write_to(board, message, code)?;
    let is_value = register.takes(target, value);
    if is_value && is_taken(state, index, code, message, answer) {
        Some((index, value))
    } else {
        None
    }
}

/// What a step writes to the registers of targets, each with its target's index.
#[derive(Clone, Copy)]
pub(crate) struct Writes {
    pub page: Option<(usize, u8)>,
    pub protect: Option<(usize, u8)>,
}

/// The writes of a step, which may send nothing.
pub(crate) fn writes_of(
    board: &Board,
    state: &BusState,
    message: Option<&Message>,
    answer: &Answer,
) -> Writes
    ensures page { IfSome result.page (λ w. WritesPage board.now state.now
        (option_map (λ m. m.now) message.entry) answer.now w.0 w.1) }
    ensures page_alone { IsBoard board.now → (i value : ℕ)
        → WritesPage board.now state.now
        (option_map (λ m. m.now) message.entry) answer.now i value
        → result.page ≡ Some (i, value) }
    ensures protect { IfSome result.protect (λ w. WritesProtect board.now state.now
        (option_map (λ m. m.now) message.entry) answer.now w.0 w.1) }
    ensures protect_alone { IsBoard board.now → (i value : ℕ)
        → WritesProtect board.now state.now
        (option_map (λ m. m.now) message.entry) answer.now i value
        → result.protect ≡ Some (i, value) }
{
    match message {
        Some(message) => Writes {
            page: write_by(Register::Page, board, state, message, answer),
            protect: write_by(Register::Protect, board, state, message, answer),
        },
        None => Writes {
            page: None,
            protect: None,
        },
    }
}
