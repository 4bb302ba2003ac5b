//! A message that a drafted program sends, and whether its target's entries permit it.

ghost use Rattle.std.specs.Prelude.{◌≡◌};
ghost use Rattle.drafts.specs.Requests.{is_outside, is_refused};

use board::{Allow, Board};
use smbus::Form;

/// A message to a target: its form, its command code, and what it writes, if it writes something.
#[derive(Clone, Copy)]
pub(crate) struct Request {
    pub(crate) target: usize,
    pub(crate) form: Form,
    pub(crate) code: u8,
    pub(crate) value: Option<u16>,
}

fn is_outside(entry: &Allow, value: u16) -> bool
    ensures { result ≡ is_outside entry.now.values value }
{
    let values = entry.values();
    value < values.low || value > values.high
}

/// Whether no entry of its target permits a message with what it writes.
pub(crate) fn is_refused(board: &Board, request: &Request) -> bool
    ensures { result ≡ is_refused board.now request.now }
{
    match board.entry_at(request.target, request.form, request.code) {
        Some(entry) => request.value.is_some_and(|value| is_outside(entry, value)),
        None => true,
    }
}
