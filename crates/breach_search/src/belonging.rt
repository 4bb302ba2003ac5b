//! Whether a machine is one of a board and a program.

ghost use Rattle.std.specs.Prelude.{◌≡◌, ◌<◌, ◌==◌, ◌↔◌, ℕ, IsTrue, length, slice_index};
ghost use Rattle.std.specs.Int.{bit_at};
ghost use Rattle.board.specs.Boards.{Target as BoardTarget};
ghost use Rattle.targets.specs.States.{IsTargetAt, MayStore, Belongs};
ghost use Rattle.simulator.specs.Machines.{IsMachine};

use board::{Board, Target, is_page_value};
use pmbus_table::is_protection;
use seq_program::Program;
use simulator::Machine;
use targets::BusState;

fn may_store(target: &Target, page: u8, protect: u8) -> bool
    ensures { IsTrue result ↔ MayStore target.now page protect }
{
    is_page_value(target.pages(), page) && is_protection(protect)
}

fn each_may_store(board: &Board, state: &BusState) -> bool
    requires pages { length state.now.page ≡ length board.now.targets }
    requires protects { length state.now.protect ≡ length board.now.targets }
    ensures { IsTrue result → (i : ℕ) (t : BoardTarget) → IsTargetAt board.now i t
        → MayStore t (slice_index state.now.page i) (slice_index state.now.protect i) }
{
    for (index, target) in board.targets().iter().enumerate() {
        if !may_store(target, state.page[index], state.protect[index]) {
            return false;
        }
    }
    true
}

/// Whether no bit stands from a place on.
fn has_none_from(bits: u16, place: usize) -> bool
    ensures { IsTrue result → (i : ℕ) → IsTrue (bit_at bits i == 1) → i < place }
{
    place >= 16 || bits >> place == 0
}

fn belongs(board: &Board, state: &BusState) -> bool
    ensures { IsTrue result → Belongs board.now state.now }
{
    let count = board.targets().len();
    if state.page.len() != count || state.protect.len() != count {
        return false;
    }
    if !has_none_from(state.alerting, count) {
        return false;
    }
    each_may_store(board, state)
}

/// Whether a machine is at a place of the program, and its targets keep what they may.
pub(crate) fn is_machine(board: &Board, program: &Program, machine: &Machine) -> bool
    ensures { IsTrue result → IsMachine board.now program.now machine.now }
{
    machine.place < program.places() && belongs(board, &machine.bus)
}
