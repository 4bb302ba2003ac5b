//! All lints of a board.

ghost use Rattle.std.specs.Prelude.{IfOk};
ghost use Rattle.board_lints.specs.Lints.{AreLints};

use crate::circle::push_circles;
use crate::foreign::push_foreign;
use crate::lint::Lint;
use crate::never_enabled::push_idle_rails;
use crate::start_values::{messages_of, push_unready_targets};
use crate::unreachable_limit::push_loose_limits;
use board::Board;
use seq_program::Program;
use std::alloc::{AllocError, Global};

/// All lints of a board and a program on it: targets that may start so that they don't take
/// what the program sends them, needs that go round in a circle, rails that no entry of their
/// target can turn on, limits that no voltage can break, and other controllers that can't win.
/// Memory is answered where a growth was refused.
pub fn lints_on(alloc: Global, board: &Board, program: &Program) -> Result<Vec<Lint>, AllocError>
    ensures { IfOk result (λ lints. AreLints board.now program.now lints.items) }
{
    let messages = messages_of(alloc, board, program)?;
    let mut lints = Vec::new(alloc);
    push_unready_targets(&mut lints, board, &messages)?;
    push_circles(alloc, &mut lints, board)?;
    push_idle_rails(&mut lints, board)?;
    push_loose_limits(&mut lints, board)?;
    push_foreign(&mut lints, board)?;
    Ok(lints)
}
