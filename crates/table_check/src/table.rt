ghost use Rattle.std.specs.Prelude.{◌≡◌, option_map};
ghost use Rattle.facts.specs.domain.Rows.{row_view};
ghost use Rattle.table_check.specs.Tables.{rows_view, row_of};

use facts::Row;

/// What is known at each place of a program, from place 0 on.
#[derive(Debug, Drop)]
pub struct Table {
    /// None where nothing is known, since the place isn't reached.
    pub rows: Vec<Option<Row>>,
}

/// The row of a place among a table's, if there is one.
pub fn row_at(rows: &[Option<Row>], place: usize) -> Option<&Row>
    ensures { option_map (λ row. row_view row.now) result ≡ row_of (rows_view rows.now) place }
{
    match rows.get(place) {
        Some(Some(row)) => Some(row),
        _ => None,
    }
}
