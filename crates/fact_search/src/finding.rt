//! Finding a table of facts.

ghost use Rattle.std.specs.Prelude.{◌≡◌, IfOk, IfErr, length};
ghost use Rattle.fact_search.specs.Finds.{IsFound, TellsCause};
ghost use Rattle.fact_search.specs.Forward.{IsForward};
ghost use Rattle.fact_search.specs.declared.fault.FindFault.TheVariants.{Memory};
ghost use Rattle.table_check.specs.Tables.{table_view};
ghost use Rattle.table_check.specs.text.Writable.{IsShaped};

use crate::fault::FindFault;
use crate::forward::is_forward;
use crate::laws::premises;
use crate::loops::ticks_with_loops;
use crate::searching::search;
use crate::ticking::{ticks_onward, with_ticks};
use board::Board;
use seq_program::Program;
use std::alloc::Global;
use table_check::Table;

/// The facts of a program on a board: for each place that may be reached, what is known there and
/// how many ticks are left.
///
/// Where every jump of the program, `else` labels included, lands after its own place, it never
/// gives up, its table keeps the rule book if any table does, and where none does, the verdict on
/// it tells the instruction that breaks a duty of its own. For programs with jumps back, spans are
/// widened at their targets, and a counter must bound each loop; otherwise, or where a place is
/// visited too often, GaveUp is answered with the place. Lost arbitrations are paid for at each
/// message, or as often as they may come, whichever gives the lesser bound. Memory is answered
/// where a growth was refused.
pub fn find(alloc: Global, board: &Board, program: &Program) -> Result<Table, FindFault>
    ensures shaped { IfOk result (λ t. IsShaped board.now (table_view t)) }
    ensures places { IfOk result (λ t. length (table_view t) ≡ length program.now) }
    ensures found { IsForward program.now
        → IfOk result (λ t. IsFound board.now program.now (table_view t)) }
    ensures cause { IsForward program.now
        → IfOk result (λ t. TellsCause board.now program.now (table_view t)) }
    ensures gave_up { IsForward program.now → IfErr result (λ e. e ≡ Memory) }
{
    premises(board, program);
    let known = search(alloc, board, program)?;
    let lefts = if is_forward(program) {
        ticks_onward(alloc, board, program, &known)?
    } else {
        ticks_with_loops(alloc, board, program, &known.rows)?
    };
    Ok(Table {
        rows: with_ticks(alloc, known.rows, &lefts)?,
    })
}
