ghost use Rattle.std.specs.Prelude.{◌≡◌, ◌⊎◌, ℕ, List, IfOk, IfErr, OnOk, IsErrOf};
ghost use Rattle.seq_program.specs.declared.instr.Instr.{Instr};
ghost use Rattle.seq_program.specs.Valid.{IsProgram};
ghost use Rattle.simulator.specs.declared.fault.RunFault.{RunFault};
ghost use Rattle.targets.specs.States.{IsStart};
ghost use Rattle.simulator.specs.Machines.{start_at, start_state, IsMachine};

use crate::fault::RunFault;
use crate::machine::{Ending, Machine};
use board::{Board, board_is_valid};
use std::alloc::Global;
use targets::{BusState, starts, states_belong};

/// A machine at place 0 with registers and counters 0, whose targets keep these values of PAGE and
/// WRITE_PROTECT, by their indices, and none alerts.
///
/// BadStart is answered where a list hasn't one value for each target, or the board doesn't name
/// the values as start values; Memory where a growth was refused.
pub fn start(
    alloc: Global,
    board: &Board,
    pages: &[u8],
    protects: &[u8],
) -> Result<Machine, RunFault>
    ensures machine { IfOk result (λ m. m ≡ start_at (start_state pages.now protects.now)) }
    ensures may { OnOk result (IsStart board.now (start_state pages.now protects.now)) }
    // It is a machine of every program of the board.
    ensures belongs { IfOk result
        (λ m. (p : List Instr) → IsProgram p → IsMachine board.now p m) }
    ensures bad { IsErrOf result RunFault.BadStart
        → IsStart board.now (start_state pages.now protects.now) → ⊥ }
    ensures only { IfErr result (λ e. (e ≡ RunFault.Memory) ⊎ (e ≡ RunFault.BadStart)) }
{
    board_is_valid(board);
    states_belong();
    let bus = BusState {
        page: pages.to_vec(alloc)?,
        protect: protects.to_vec(alloc)?,
        alerting: 0,
        lost: 0,
    };
    if !starts(board, &bus) {
        return Err(RunFault::BadStart);
    }
    Ok(Machine {
        place: 0,
        regs: [0; 8],
        counters: [0; 4],
        bus,
        ended: Ending::Running,
    })
}
