ghost use Rattle.std.specs.Prelude.{◌≡◌, IfOk, string_bytes};
ghost use Rattle.session.specs.Outcomes.{IsChecked, IsJudged};
ghost use Rattle.session.specs.Trials.{trial_view};

use crate::outcome::Judged;
use crate::trial::Trial;
use board::Board;
use seq_program::Program;
use std::alloc::{AllocError, Global};
use table_check::{Table, TableFault, judge, read_table};

/// A table with the judgement on it.
pub(crate) fn judged(
    alloc: Global,
    board: &Board,
    program: &Program,
    table: Table,
) -> Result<Judged, AllocError>
    ensures table { IfOk result (λ judged. judged.table ≡ table) }
    ensures judged { IfOk result (IsJudged board.now program.now) }
{
    let judgement = judge(alloc, board, program, &table)?;
    Ok(Judged { table, judgement })
}

/// The verdict on the table of a text, or its first line that is none of a table.
pub(crate) fn judge_text(alloc: Global, trial: &Trial) -> Result<Result<Judged, usize>, AllocError>
    ensures { IfOk result (IsChecked (trial_view trial.now)) }
{
    match read_table(alloc, &trial.board, &trial.table) {
        Ok(table) => Ok(Ok(judged(alloc, &trial.board, &trial.program, table)?)),
        Err(TableFault::BadLine(line)) => Ok(Err(line)),
        Err(TableFault::Memory) => Err(AllocError),
    }
}
