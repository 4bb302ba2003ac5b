//! What a step tells of a rail: that it reported, or was turned off.

ghost use Rattle.std.specs.Prelude.{◌≡◌, ◌↔◌, ◌<◌, ℕ, false, IsTrue, IfSome, IfNone};
ghost use Rattle.std.specs.Prelude.{Some};
ghost use Rattle.std.specs.Prelude.{length, slice_index};
ghost use Rattle.bit_bus.specs.Levels.{first_cut};
ghost use Rattle.smbus.specs.MessageFrame.{IsCutLate};
ghost use Rattle.smbus.specs.Protocol.{marks_of, whole};
ghost use Rattle.smbus.specs.Slots.{plan_of};
ghost use Rattle.pmbus_table.specs.Codes.{operation_code, status_word_code};
ghost use Rattle.targets.specs.Effects.{IsByteWrite};
ghost use Rattle.simulator.specs.Does.{Reported};
ghost use Rattle.simulator.specs.Reports.{selects, IsRailAt};
ghost use Rattle.board.specs.Boards.{Rail as BoardRail, Target as BoardTarget};
ghost use Rattle.simulator.specs.StepDoes.{MessageReports, MessageWithdraws};
ghost use Rattle.run_monitor.specs.Telling.{TurnsOff, TellsAfter};

use board::{Board, Rail, Target};
use pmbus_table::code::{ALL_PAGES, OPERATION, STATUS_WORD};
use pmbus_table::{enables, reported_good};
use smbus::{Answer, Form, Message};
use targets::{BusState, cut_of, value_goes_out};

/// The slot of a Read Word's STOP: five bytes of nine slots each and a repeated START stand before
/// it.
const READ_WORD_STOP: usize = 46;

/// Whether a Read Word isn't cut before its STOP.
fn is_cut_late(message: &Message, answer: &Answer) -> bool
    requires { message.now.form ≡ Form.ReadWord }
    ensures { IsTrue result ↔ IsCutLate (first_cut (plan_of message.now answer.now))
        (length (marks_of (whole message.now answer.now.value answer.now.bytes))) }
{
    match cut_of(message, answer) {
        None => true,
        Some(slot) => slot == READ_WORD_STOP,
    }
}

/// Whether a message is a Read Word of STATUS_WORD at an address that returns its word.
fn is_report(message: &Message, answer: &Answer, address: u8) -> bool
    ensures { IsTrue result
        ↔ Reported message.now answer.now address status_word_code answer.now.value }
{
    message.form == Form::ReadWord
        && message.address == address
        && message.code == STATUS_WORD
        && answer.refuse.is_none()
        && is_cut_late(message, answer)
}

/// The value that a message writes to OPERATION at an address.
fn operation_in(message: &Message, address: u8) -> Option<u8>
    ensures some { IfSome result
        (λ value. IsByteWrite address operation_code value message.now) }
    ensures none { IfNone result
        ((value : ℕ) → IsByteWrite address operation_code value message.now → ⊥) }
{
    match (message.form, message.out.as_slice()) {
        (Form::WriteByte, [value]) if message.address == address && message.code == OPERATION =>
            Some(*value),
        _ => None,
    }
}

/// Whether a value that doesn't enable goes out to OPERATION at an address.
fn turns_off(message: &Message, answer: &Answer, address: u8) -> bool
    ensures { IsTrue result ↔ TurnsOff address message.now answer.now }
{
    match operation_in(message, address) {
        Some(value) => !enables(value) && value_goes_out(message, answer),
        None => false,
    }
}

/// The rail of an index, with its target.
fn rail_at(board: &Board, index: usize) -> Option<(&Rail, &Target)>
    ensures some { IfSome result (λ at. IsRailAt board.now index at.0.now at.1.now) }
    ensures none { IfNone result
        ((rail : BoardRail) (target : BoardTarget) → IsRailAt board.now index rail target → ⊥) }
{
    let rail = board.rail(index)?;
    let target = board.target(rail.target())?;
    Some((rail, target))
}

/// What a target stores in PAGE.
fn page_of(state: &BusState, target: usize) -> u8
    ensures { result ≡ slice_index state.now.page target }
{
    match state.page.get(target) {
        Some(page) => *page,
        None => 0,
    }
}

/// The word that a rail reports in a step.
fn reported_word(
    board: &Board,
    state: &BusState,
    message: &Message,
    answer: &Answer,
    index: usize,
) -> Option<u16>
    ensures some { IfSome result (λ word.
        MessageReports board.now state.now index word (Some message.now) answer.now) }
    ensures none { IfNone result ((word : ℕ)
        → MessageReports board.now state.now index word (Some message.now) answer.now → ⊥) }
{
    let (rail, target) = rail_at(board, index)?;
    let is_on_page = page_of(state, rail.target()) == rail.page();
    if is_on_page && is_report(message, answer, target.address()) {
        Some(answer.value)
    } else {
        None
    }
}

fn selects(stored: u8, page: u8) -> bool
    ensures { result ≡ selects stored page }
{
    stored == page || stored == ALL_PAGES
}

/// Whether a rail is turned off in a step.
fn is_withdrawn(
    board: &Board,
    state: &BusState,
    message: &Message,
    answer: &Answer,
    index: usize,
) -> bool
    ensures { IsTrue result
        ↔ MessageWithdraws board.now state.now index (Some message.now) answer.now }
{
    match rail_at(board, index) {
        Some((rail, target)) => {
            selects(page_of(state, rail.target()), rail.page())
                && turns_off(message, answer, target.address())
        }
        None => false,
    }
}

/// Whether the last report of a rail is good after a step, from whether it was before.
pub(crate) fn is_good_after(
    board: &Board,
    state: &BusState,
    message: &Message,
    answer: &Answer,
    index: usize,
    was_good: bool,
) -> bool
    ensures { TellsAfter board.now state.now (Some message.now) answer.now index was_good result }
{
    match reported_word(board, state, message, answer, index) {
        Some(word) => reported_good(word),
        None => was_good && !is_withdrawn(board, state, message, answer, index),
    }
}
