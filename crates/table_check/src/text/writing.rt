//! Tables, as texts.

ghost use Rattle.std.specs.Fmt.{decimal};
ghost use Rattle.std.specs.Prelude.{◌≡◌, ◌<◌, ◌++◌, ◌∷◌, [], length, map, zip, IfOk, OnOk};
ghost use Rattle.std.specs.Prelude.{string_bytes, option_map, Some};
ghost use Rattle.facts.specs.domain.Sets.{rails_in, values_in};
ghost use Rattle.facts.specs.domain.Rows.{row_view};
ghost use Rattle.table_check.specs.Tables.{rows_view, table_view};
ghost use Rattle.table_check.specs.text.Lines.{set_words, good_words, register_words};
ghost use Rattle.table_check.specs.text.Lines.{counter_words, ticks_words, factors, head_words};
ghost use Rattle.table_check.specs.text.Lines.{each_at, version_words, words_of_table, lost_words};
ghost use Rattle.table_check.specs.declared.text.version.Version.TheVariants.{Second};
ghost use Rattle.table_check.specs.text.Lines.{none_words, place_lines, lines_from, table_text};
ghost use Rattle.table_check.specs.text.Texts.{IsTextOf};
ghost use Rattle.table_check.specs.text.Writable.{IsShaped};
ghost use Rattle.table_check.specs.text.Written.{all_spaced, line_text, text_of};

use crate::table::Table;
use crate::text::shape::is_board;
use crate::text::span_line::{counter_name, register_name};
use crate::text::typed::is_typed;
use crate::text::written::{
    push_good, push_number, push_source, push_values, push_word, target_name,
};
use board::Board;
use facts::{ByteSet, GoodSet, Kind, Row, Source, Span};
use seq_program::lines_read_back;
use std::alloc::{AllocError, Global};

/// The line of a target's set, behind the key of its kind.
fn push_set_line<K: Kind>(
    text: &mut String,
    board: &Board,
    key: &str,
    target: usize,
    set: ByteSet<K>,
) -> Result<(), AllocError>
    ensures { OnOk result (string_bytes text.new ≡ string_bytes text.old ++ line_text
        (set_words key.now board.now target (values_in K.is_value K.place set))) }
{
    text.push_str(key)?;
    push_word(text, target_name(board, target))?;
    push_values(text, set)?;
    text.push('\n')?;
    Ok(())
}

fn push_good_line(text: &mut String, board: &Board, set: GoodSet) -> Result<(), AllocError>
    ensures { OnOk result (string_bytes text.new
        ≡ string_bytes text.old ++ line_text (good_words board.now (rails_in set))) }
{
    text.push_str("good")?;
    push_good(text, board, set)?;
    text.push('\n')?;
    Ok(())
}

fn push_set_lines<K: Kind>(
    text: &mut String,
    board: &Board,
    key: &str,
    sets: &[ByteSet<K>],
) -> Result<(), AllocError>
    ensures { OnOk result (string_bytes text.new
        ≡ string_bytes text.old ++ text_of (each_at (set_words key.now board.now) 0
        (map (values_in K.is_value K.place) sets.now))) }
{
    for (target, set) in sets.iter().enumerate() {
        push_set_line(text, board, key, target, *set)?;
    }
    Ok(())
}

fn push_span(alloc: Global, text: &mut String, span: &Span) -> Result<(), AllocError>
    ensures { OnOk result (string_bytes text.new
        ≡ string_bytes text.old ++ all_spaced (decimal span.now.lo ∷ decimal span.now.hi ∷ [])) }
{
    push_number(alloc, text, u64::from(span.lo))?;
    push_number(alloc, text, u64::from(span.hi))
}

fn push_register_line(
    alloc: Global,
    text: &mut String,
    board: &Board,
    register: usize,
    span: &Span,
    source: &Source,
) -> Result<(), AllocError>
    ensures { OnOk result (string_bytes text.new
        ≡ string_bytes text.old
        ++ line_text (register_words board.now register (span.now, source.now))) }
{
    text.push_str("reg")?;
    push_word(text, register_name(register).unwrap_or(""))?;
    push_span(alloc, text, span)?;
    push_source(text, board, source)?;
    text.push('\n')?;
    Ok(())
}

fn push_counter_line(
    alloc: Global,
    text: &mut String,
    counter: usize,
    span: &Span,
) -> Result<(), AllocError>
    ensures { OnOk result (string_bytes text.new
        ≡ string_bytes text.old ++ line_text (counter_words counter span.now)) }
{
    text.push_str("counter")?;
    push_word(text, counter_name(counter).unwrap_or(""))?;
    push_span(alloc, text, span)?;
    text.push('\n')?;
    Ok(())
}

fn push_register_lines(
    alloc: Global,
    text: &mut String,
    board: &Board,
    spans: &[Span],
    sources: &[Source],
) -> Result<(), AllocError>
    requires { length spans.now ≡ length sources.now }
    ensures { OnOk result (string_bytes text.new
        ≡ string_bytes text.old
        ++ text_of (each_at (register_words board.now) 0 (zip spans.now sources.now))) }
{
    for (register, span) in spans.iter().enumerate() {
        push_register_line(alloc, text, board, register, span, &sources[register])?;
    }
    Ok(())
}

fn push_counter_lines(alloc: Global, text: &mut String, spans: &[Span]) -> Result<(), AllocError>
    ensures { OnOk result (string_bytes text.new
        ≡ string_bytes text.old ++ text_of (each_at counter_words 0 spans.now)) }
{
    for (counter, span) in spans.iter().enumerate() {
        push_counter_line(alloc, text, counter, span)?;
    }
    Ok(())
}

fn push_numbers(alloc: Global, text: &mut String, numbers: &[u64]) -> Result<(), AllocError>
    ensures { OnOk result (string_bytes text.new
        ≡ string_bytes text.old ++ all_spaced (map decimal numbers.now)) }
{
    for number in numbers {
        push_number(alloc, text, *number)?;
    }
    Ok(())
}

fn push_lost_line(alloc: Global, text: &mut String, span: &Span) -> Result<(), AllocError>
    ensures { OnOk result (string_bytes text.new
        ≡ string_bytes text.old ++ line_text (lost_words span.now)) }
{
    text.push_str("lost")?;
    push_span(alloc, text, span)?;
    text.push('\n')?;
    Ok(())
}

fn push_ticks_line(alloc: Global, text: &mut String, row: &Row) -> Result<(), AllocError>
    ensures { OnOk result (string_bytes text.new
        ≡ string_bytes text.old ++ line_text
        (ticks_words row.now.base (factors Second row.now.coeffs row.now.lost_coeff))) }
{
    text.push_str("ticks")?;
    push_number(alloc, text, row.base)?;
    push_numbers(alloc, text, &row.coeffs)?;
    push_number(alloc, text, row.lost_coeff)?;
    text.push('\n')?;
    Ok(())
}

fn push_head(alloc: Global, text: &mut String, place: usize) -> Result<(), AllocError>
    ensures { OnOk result (string_bytes text.new
        ≡ string_bytes text.old ++ line_text (head_words place)) }
{
    text.push_str("row")?;
    push_number(alloc, text, place as u64)?;
    text.push('\n')?;
    Ok(())
}

fn push_none(alloc: Global, text: &mut String, place: usize) -> Result<(), AllocError>
    ensures { OnOk result (string_bytes text.new
        ≡ string_bytes text.old ++ line_text (none_words place)) }
{
    text.push_str("row")?;
    push_number(alloc, text, place as u64)?;
    push_word(text, "none")?;
    text.push('\n')?;
    Ok(())
}

/// The lines of a row.
fn push_row(
    alloc: Global,
    text: &mut String,
    board: &Board,
    place: usize,
    row: &Row,
) -> Result<(), AllocError>
    ensures { OnOk result (string_bytes text.new
        ≡ string_bytes text.old
        ++ text_of (place_lines Second board.now place (Some (row_view row.now)))) }
{
    push_head(alloc, text, place)?;
    push_set_lines(text, board, "page", &row.pages)?;
    push_set_lines(text, board, "protect", &row.protects)?;
    push_good_line(text, board, row.good)?;
    push_register_lines(alloc, text, board, &row.regs, &row.sources)?;
    push_counter_lines(alloc, text, &row.counters)?;
    push_lost_line(alloc, text, &row.lost)?;
    push_ticks_line(alloc, text, row)
}

fn push_place(
    alloc: Global,
    text: &mut String,
    board: &Board,
    place: usize,
    row: &Option<Row>,
) -> Result<(), AllocError>
    ensures { OnOk result (string_bytes text.new
        ≡ string_bytes text.old
        ++ text_of (place_lines Second board.now place (option_map row_view row.now))) }
{
    match row {
        Some(row) => push_row(alloc, text, board, place, row),
        None => push_none(alloc, text, place),
    }
}

fn push_rows(
    alloc: Global,
    text: &mut String,
    board: &Board,
    rows: &[Option<Row>],
) -> Result<(), AllocError>
    ensures { OnOk result (string_bytes text.new
        ≡ string_bytes text.old ++ text_of (lines_from Second board.now 0 (rows_view rows.now))) }
{
    for (place, row) in rows.iter().enumerate() {
        push_place(alloc, text, board, place, row)?;
    }
    Ok(())
}

fn written(alloc: Global, board: &Board, table: &Table) -> Result<String, AllocError>
    ensures { IfOk result (λ text. string_bytes text
        ≡ text_of (words_of_table Second board.now (table_view table.now))) }
{
    let mut text = String::new(alloc);
    text.push_str("version 2\n")?;
    push_rows(alloc, &mut text, board, &table.rows)?;
    Ok(text)
}

/// The text of a table: its lines, each with its end. Reading it gives the table.
///
/// It fails only where a growth was refused.
pub fn write_table(alloc: Global, board: &Board, table: &Table) -> Result<String, AllocError>
    requires { IsShaped board.now (table_view table.now) }
    ensures text { IfOk result (λ text. string_bytes text
        ≡ table_text board.now (table_view table.now)) }
    ensures read { IfOk result (λ text.
        IsTextOf board.now (table_view table.now) (string_bytes text)) }
{
    is_board(board);
    is_typed(table);
    lines_read_back();
    written(alloc, board, table)
}
