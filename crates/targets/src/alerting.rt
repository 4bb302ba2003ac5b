ghost use Rattle.std.specs.Prelude.{◌≡◌, ◌≢◌, ◌<◌, ◌↔◌, ℕ, [], Some, Contains, IfSome, IsTrue};
ghost use Rattle.std.specs.Prelude.{MatchOption};
ghost use Rattle.wires.specs.Bits.{bit};
ghost use Rattle.wires.specs.Arbitration.{wire_byte};
ghost use Rattle.board.specs.Valid.{IsBoard};
ghost use Rattle.targets.specs.Alerting.{alert_bytes, WinsAlert, MayAlert, MayAllAlert};
ghost use Rattle.targets.specs.Least.{lesser};

use crate::state::BusState;
use board::Board;
use wires::least_byte_wins;

/// Whether the bit of a target is set.
pub(crate) fn is_set(bits: u16, index: usize) -> bool
    requires { index < 16 }
    ensures { result ≡ bit bits index }
{
    bits >> index & 1 == 1
}

fn may_alert(board: &Board, index: usize) -> bool
    ensures { IsTrue result ↔ MayAlert board.now index }
{
    match board.target(index) {
        Some(target) => target.alerts(),
        None => false,
    }
}

/// Whether only targets alert that may.
pub(crate) fn may_all_alert(board: &Board, alerts: u16) -> bool
    ensures { IsTrue result ↔ MayAllAlert board.now alerts }
{
    if alerts == 0 {
        return true;
    }
    for index in 0..16 {
        if is_set(alerts, index) && !may_alert(board, index) {
            return false;
        }
    }
    true
}

fn lesser(known: Option<u8>, byte: u8) -> u8
    ensures { result ≡ lesser known byte }
{
    match known {
        Some(other) => byte.min(other),
        None => byte,
    }
}

/// The byte that the wire carries in an alert response, if any target alerts.
pub(crate) fn alert_byte(board: &Board, state: &BusState) -> Option<u8>
    ensures byte { MatchOption result (alert_bytes board.now state.now ≡ [])
        (λ byte. (alert_bytes board.now state.now ≢ [])
        × (byte ≡ wire_byte (alert_bytes board.now state.now))) }
    ensures sent { IfSome result (λ byte. Contains (alert_bytes board.now state.now) byte) }
    ensures board { IsBoard board.now }
{
    least_byte_wins();
    let mut least = None;
    for (index, target) in board.targets().iter().enumerate() {
        if is_set(state.alerting, index) {
            least = Some(lesser(least, 2 * target.address()));
        }
    }
    least
}

/// The index of the target that wins an alert response, if any alerts.
pub(crate) fn alert_winner(board: &Board, state: &BusState) -> Option<usize>
    ensures some { IfSome result (λ index. WinsAlert board.now state.now index) }
    ensures only { (i : ℕ) → WinsAlert board.now state.now i → result ≡ Some i }
    ensures board { IsBoard board.now }
{
    let byte = alert_byte(board, state)?;
    board.target_at(byte / 2)
}
