ghost use Rattle.std.specs.Prelude.{◌≡◌, ◌≤◌, ◌↔◌, IfOk, IfSome, IsNone, MatchOption, [], All};
ghost use Rattle.std.specs.Prelude.{Contains};
ghost use Rattle.wires.specs.Arbitration.{wire_byte, winners_of};

use std::alloc::{AllocError, Global};

fn least_of(sent: &[u8]) -> Option<u8>
    ensures { MatchOption result (sent.now ≡ [])
        (λ least. Contains sent.now least × All (λ byte. least ≤ byte) sent.now) }
{
    sent.iter().copied().min()
}

/// The byte on the wire when these bytes are sent together, and the indexes of the senders that win
/// the arbitration, ascending; None where nobody sends (UM10204, 3.1.8). Fails only for want of
/// memory.
pub fn arbitrate(alloc: Global, sent: &[u8]) -> Result<Option<(u8, Vec<usize>)>, AllocError>
    ensures none { IfOk result (λ won. IsNone won ↔ (sent.now ≡ [])) }
    // Bit by bit the wire is the AND of what those that still send drive.
    ensures wire { IfOk result (λ won. IfSome won (λ w. w.0 ≡ wire_byte sent.now)) }
    ensures winners { IfOk result (λ won. IfSome won (λ w. w.1.items ≡ winners_of sent.now)) }
    // So it is the least byte.
    ensures sent { IfOk result (λ won. IfSome won (λ w. Contains sent.now w.0)) }
    ensures least { IfOk result (λ won. IfSome won (λ w. All (λ byte. w.0 ≤ byte) sent.now)) }
{
    let Some(least) = least_of(sent) else {
        return Ok(None);
    };
    let mut winners = Vec::new(alloc);
    for (sender, byte) in sent.iter().enumerate() {
        if *byte == least {
            winners.push(sender)?;
        }
    }
    Ok(Some((least, winners)))
}
