//! Numbers are within their types.

ghost use Rattle.std.specs.Prelude.{◌<◌, ◌^◌, All, IfSome, length, option_map};
ghost use Rattle.facts.specs.domain.Rows.{row_view};
ghost use Rattle.table_check.specs.Tables.{rows_view, table_view};
ghost use Rattle.table_check.specs.text.Writable.{IsTyped, IsTypedRow, IsWordSpan};

use crate::table::Table;
use facts::{Row, Span};

fn is_word_span(span: Span)
    ensures { IsWordSpan span }
{}

fn are_word_spans(spans: &[Span])
    ensures { All IsWordSpan spans.now }
{
    for span in spans {
        is_word_span(*span);
    }
}

fn are_long(coeffs: &[u64])
    ensures { All (λ k. k < 2 ^ 64) coeffs.now }
{}

fn is_long(base: u64)
    ensures { base < 2 ^ 64 }
{}

fn row_is_typed(row: &Row)
    ensures { IsTypedRow (row_view row.now) }
{
    are_word_spans(&row.regs);
    are_word_spans(&row.counters);
    is_long(row.base);
    are_long(&row.coeffs);
    is_word_span(row.lost);
    is_long(row.lost_coeff);
}

fn place_is_typed(place: &Option<Row>)
    ensures { IfSome (option_map row_view place.now) IsTypedRow }
{
    if let Some(row) = place {
        row_is_typed(row);
    }
}

fn rows_are_typed(rows: &[Option<Row>])
    ensures few { length rows.now < 2 ^ 64 }
    ensures typed { All (λ row. IfSome row IsTypedRow) (rows_view rows.now) }
{
    for place in rows {
        place_is_typed(place);
    }
}

/// What every table of the code keeps to: its numbers are within their types.
pub(crate) fn is_typed(table: &Table)
    ensures { IsTyped (table_view table.now) }
{
    rows_are_typed(&table.rows);
}
