ghost use Rattle.std.specs.Prelude.{◌≡◌, ◌≢◌, ◌<◌, ◌⊎◌, ◌↔◌, ℕ, false, Some, IfOk, IfSome, IsTrue};
ghost use Rattle.std.specs.Prelude.{option_map, OnOk};
ghost use Rattle.wires.specs.Bits.{bit};
ghost use Rattle.smbus.specs.Winners.{carried};
ghost use Rattle.targets.specs.declared.outcome.Outcome.TheVariants.{Lost};
ghost use Rattle.targets.specs.Outcomes.{outcome_of};
ghost use Rattle.targets.specs.Effects.{StopsAlerting, lost_after, IsAfterStep};
ghost use Rattle.targets.specs.Stored.{with_write};

use crate::alerting::alert_winner;
use crate::effect::{is_done, writes_of};
use crate::outcome::{Outcome, outcome_of};
use crate::state::BusState;
use board::{Board, board_is_valid};
use smbus::{Answer, Form, Message, carried, contender_over};
use std::alloc::{AllocError, Global};

/// Makes bytes those that are stored. Of as many as there were before it takes no memory.
fn store(bytes: &mut Vec<u8>, stored: &[u8]) -> Result<(), AllocError>
    ensures { OnOk result (bytes.new.items ≡ stored.now) }
{
    if bytes.len() == stored.len() {
        bytes.copy_from_slice(stored);
        return Ok(());
    }
    bytes.clear();
    bytes.extend_from_slice(stored)
}

/// Makes bytes what is stored with one value written, at its index.
fn store_with_write(
    bytes: &mut Vec<u8>,
    stored: &[u8],
    write: Option<(usize, u8)>,
) -> Result<(), AllocError>
    ensures { OnOk result (bytes.new.items ≡ with_write write stored.now) }
{
    store(bytes, stored)?;
    if let Some((index, value)) = write {
        if let Some(byte) = bytes.get_mut(index) {
            *byte = value;
        }
    }
    Ok(())
}

/// The bits of some targets without one of them.
fn without(bits: u16, index: usize) -> u16
    requires { index < 16 }
    ensures same { bit result index ≡ false }
    ensures others { (i : ℕ) → i ≢ index → bit result i ≡ bit bits i }
{
    bits & !(1 << index)
}

/// Who goes on to alert, where one target may stop.
fn kept_alerting(alerting: u16, stops: Option<usize>) -> u16
    requires { IfSome stops (λ index. index < 16) }
    ensures { (i : ℕ) → IsTrue (bit result i) ↔ (IsTrue (bit alerting i) × (stops ≢ Some i)) }
{
    match stops {
        Some(index) => without(alerting, index),
        None => alerting,
    }
}

fn joined(some: u16, others: u16) -> u16
    ensures { (i : ℕ) → IsTrue (bit result i) ↔ (IsTrue (bit some i) ⊎ IsTrue (bit others i)) }
{
    some | others
}

/// The index of the target that a message makes stop alerting, if it does.
fn stops_alerting(
    board: &Board,
    state: &BusState,
    message: Option<&Message>,
    answer: &Answer,
) -> Option<usize>
    ensures some { IfSome result (λ index.
        StopsAlerting board.now state.now
        (option_map (λ m. m.now) message.entry) answer.now index) }
    ensures only { (i : ℕ)
        → StopsAlerting board.now state.now (option_map (λ m. m.now) message.entry) answer.now i
        → result ≡ Some i }
    ensures few { IfSome result (λ index. index < 16) }
{
    match message {
        Some(message) if message.form == Form::Alert && is_done(message, answer) => {
            alert_winner(board, state)
        }
        _ => None,
    }
}

/// How many arbitrations are lost after a step.
fn lost_after(message: Option<&Message>, answer: &Answer, lost: u16) -> u16
    requires { outcome_of (option_map (λ m. m.now) message) answer.now ≡ Lost → lost < 65535 }
    ensures { result ≡ lost_after (option_map (λ m. m.now) message.entry) answer.now lost }
{
    let Some(message) = message else {
        return lost;
    };
    match contender_over(message, answer) {
        Some(_) => lost + 1,
        None => lost,
    }
}

/// Makes a state the one that `after` gives, under its condition, and gives the outcome. Fails only
/// for want of memory, and then the state is of no more use.
pub fn after_into(
    new: &mut BusState,
    board: &Board,
    state: &BusState,
    message: Option<&Message>,
    answer: &Answer,
) -> Result<Outcome, AllocError>
    requires { outcome_of (option_map (λ m. m.now) message) answer.now ≡ Lost
        → state.now.lost < 65535 }
    ensures state { OnOk result (IsAfterStep board.now state.now
        (option_map (λ m. m.now) message.entry) answer.now new.new) }
    ensures outcome { IfOk result
        (λ outcome. outcome ≡ outcome_of (option_map (λ m. m.now) message.entry) answer.now) }
{
    board_is_valid(board);
    let sent = carried(message, answer);
    let stops = stops_alerting(board, state, sent, answer);
    let writes = writes_of(board, state, sent, answer);
    store_with_write(&mut new.page, &state.page, writes.page)?;
    store_with_write(&mut new.protect, &state.protect, writes.protect)?;
    new.alerting = joined(answer.alerts, kept_alerting(state.alerting, stops));
    new.lost = lost_after(message, answer, state.lost);
    Ok(outcome_of(message, answer))
}

/// The state and the outcome after a message and an answer of the targets, or after a step that
/// sends nothing. Where another controller wins over the message, the targets don't see it. The
/// lost arbitrations must not be too many to count, and aren't where the answer fits. Fails only
/// for want of memory.
pub fn after(
    alloc: Global,
    board: &Board,
    state: &BusState,
    message: Option<&Message>,
    answer: &Answer,
) -> Result<(BusState, Outcome), AllocError>
    requires { outcome_of (option_map (λ m. m.now) message) answer.now ≡ Lost
        → state.now.lost < 65535 }
    ensures state { IfOk result (λ r.
        IsAfterStep board.now state.now (option_map (λ m. m.now) message.entry) answer.now r.0) }
    ensures outcome { IfOk result
        (λ r. r.1 ≡ outcome_of (option_map (λ m. m.now) message.entry) answer.now) }
{
    let mut new = BusState::empty(alloc);
    let outcome = after_into(&mut new, board, state, message, answer)?;
    Ok((new, outcome))
}
