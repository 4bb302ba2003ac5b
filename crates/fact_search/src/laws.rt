ghost use Rattle.fact_search.specs.Searching.{Premises};

use board::{Board, board_is_valid};
use facts::covered_rows_follow;
use seq_program::{Program, program_is_valid};
use table_check::tables_are_judged_by_place;

/// What a search rests on.
pub(crate) fn premises(board: &Board, program: &Program)
    ensures { Premises board.now program.now }
{
    covered_rows_follow();
    tables_are_judged_by_place();
    board_is_valid(board);
    program_is_valid(program);
}
