//! Which tables can be written.

ghost use Rattle.std.specs.Prelude.{◌≡◌, ◌↔◌, IsTrue, All};
ghost use Rattle.board.specs.Valid.{IsBoard};
ghost use Rattle.facts.specs.domain.Rows.{row_view, IsSource};
ghost use Rattle.facts.specs.domain.Sets.{values_in, HasValue};
ghost use Rattle.table_check.specs.Tables.{table_view};
ghost use Rattle.table_check.specs.text.Writable.{IsShapedRow, IsShaped};
ghost use Rattle.table_check.specs.text.Shapes.{IsShapedByPart, IsShapedPlace};

use crate::table::Table;
use board::Board;
use facts::{ByteSet, Kind, Row, Source};

/// What every board keeps to.
pub(crate) fn is_board(board: &Board)
    ensures { IsBoard board.now }
{
    board.targets();
}

fn have_some<K: Kind>(sets: &[ByteSet<K>]) -> bool
    ensures { IsTrue result ↔ All (λ s. HasValue (values_in K.is_value K.place s)) sets.now }
{
    sets.iter().all(|set| set.has_some())
}

fn are_sources(board: &Board, sources: &[Source]) -> bool
    ensures { IsTrue result ↔ All (IsSource board.now) sources.now }
{
    sources.iter().all(|source| source.is_of(board))
}

fn is_shaped_by_part(board: &Board, row: &Row) -> bool
    ensures { IsTrue result ↔ IsShapedByPart board.now row.now }
{
    row.pages.len() == board.targets().len()
        && have_some(&row.pages)
        && row.protects.len() == board.targets().len()
        && have_some(&row.protects)
        && row.good.is_of(board)
        && are_sources(board, &row.sources)
}

fn is_row(board: &Board, row: &Row) -> bool
    ensures { IsTrue result ↔ IsShapedRow board.now (row_view row.now) }
{
    row.is_sized();
    is_shaped_by_part(board, row)
}

fn is_place(board: &Board, row: &Option<Row>) -> bool
    ensures { IsTrue result ↔ IsShapedPlace board.now row.now }
{
    match row {
        Some(row) => is_row(board, row),
        None => true,
    }
}

fn are_places(board: &Board, rows: &[Option<Row>]) -> bool
    ensures { IsTrue result ↔ All (IsShapedPlace board.now) rows.now }
{
    rows.iter().all(|row| is_place(board, row))
}

/// Whether a table can be written: in each row there is a nonempty set of each kind for each
/// target, and all rails and targets that it names are of the board.
pub fn shaped(board: &Board, table: &Table) -> bool
    ensures { IsTrue result ↔ IsShaped board.now (table_view table.now) }
{
    are_places(board, &table.rows)
}
