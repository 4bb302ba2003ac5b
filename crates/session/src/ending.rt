ghost use Rattle.std.specs.Prelude.{◌≡◌, IfOk, string_bytes};
ghost use Rattle.session.specs.Endings.{outcome_text};

use simulator::outcome_text;
use smbus::{Answer, Message};
use std::alloc::{AllocError, Global};
use targets::ending_of;

/// How a message ended: `timeout` where a slot was cut, else `nak` where a byte was refused, else
/// `done` and what was returned. Fails only for want of memory.
pub fn outcome_line(
    alloc: Global,
    message: &Message,
    answer: &Answer,
    cut: Option<usize>,
) -> Result<String, AllocError>
    ensures { IfOk result
        (λ text. string_bytes text ≡ outcome_text message.now.form answer.now cut) }
{
    outcome_text(alloc, ending_of(message.form, answer, cut))
}
