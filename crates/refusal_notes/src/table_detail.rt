//! K8 and K9: what of a table's rows isn't of the board and the program, or of their start.

use crate::Result;
use crate::kept::{kept_values, may_keep};
use crate::roads::Judged;
use board::Board;
use facts::{Misfit, Row, Span, Unheld};
use sentences::Figure::{Count, Hex, Number};
use sentences::Word::Text;
use sentences::{Figure, Kept, Sentence, Word, say, told};
use seq_program::MOST_TURNS;
use simulator::MOST_TICKS;
use std::alloc::Global;

/// The span of a register, or a counter, that has no numbers.
fn empty_span(letter: &'static str, spans: &[Span], index: usize) -> Option<Sentence<'static>> {
    let Span { lo, hi } = *spans.get(index)?;
    Some(say![
        {Text(letter)} (Count(index)) " is from " (Number(u64::from(lo))) " to "
        (Number(u64::from(hi))) ", in no order"
    ])
}

/// The first page that a row has of a target which hasn't it.
fn foreign_page<'a>(board: &'a Board, row: &Row, target: usize) -> Option<Sentence<'a>> {
    let (count, pages) = (board.target(target)?.pages(), row.pages.get(target)?);
    let page = (count..32).find(|page| pages.contains(*page))?;
    let name = Word::target(board, target);
    Some(say![{name} " has no page " (Hex(u16::from(page), 2))])
}

/// What makes a row none of the board. A table that was read has only sets of its board's targets,
/// and names of rails and targets.
fn row_detail<'a>(board: &'a Board, row: &Row, misfit: Misfit) -> Option<Sentence<'a>> {
    let (low, high) = (u64::from(row.lost.lo), Number(u64::from(row.lost.hi)));
    match misfit {
        Misfit::Sets | Misfit::Protects(_) | Misfit::Good(_) | Misfit::Source(_) => None,
        Misfit::Pages(target) => foreign_page(board, row, target),
        Misfit::Register(index) => empty_span("r", &row.regs, index),
        Misfit::Counter(index) => empty_span("c", &row.counters, index),
        Misfit::Lost => {
            let low = Number(low);
            Some(say!["`lost` is from " (low) " to " (high) ", in no order"])
        }
        Misfit::Contentions => {
            let most = Number(u64::from(board.contentions()));
            Some(say!["`lost` is up to " (high) ", and `contentions` is " (most)])
        }
        Misfit::Turns(index) => {
            let most = Number(u64::from(MOST_TURNS));
            Some(say!["c" (Count(index)) " is over " (most)])
        }
        Misfit::Ticks => {
            let most = Number(MOST_TICKS);
            Some(say!["a number of `ticks` is over "(most)])
        }
    }
}

/// K9: the number of rows.
pub(crate) fn length_detail(judged: Judged<'_>) -> Sentence<'static> {
    let (rows, places) = (judged.table.rows.len(), judged.program.places());
    let unit = if rows == 1 { "row" } else { "rows" };
    let sort = if places == 1 {
        "instruction"
    } else {
        "instructions"
    };
    say![
        "it has " (Count(rows)) " " {Text(unit)} ", and the program has " (Count(places)) " "
        {Text(sort)}
    ]
}

/// K9: what is wrong with the row of a place.
pub(crate) fn shape_detail(
    alloc: Global,
    judged: Judged<'_>,
    place: usize,
    misfit: Misfit,
) -> Result<Option<String>> {
    match judged.row(place) {
        Some(row) => placed(alloc, place, row_detail(judged.board, row, misfit)),
        None => Ok(None),
    }
}

/// What is said of a row with its place before it.
fn placed(alloc: Global, place: usize, detail: Option<Sentence>) -> Result<Option<String>> {
    match told(alloc, detail)? {
        Some(detail) => Ok(Some(format!(in alloc; "in row {place} {detail}")?)),
        None => Ok(None),
    }
}

/// The first start value of what a target keeps that its set hasn't.
fn kept_start<'a>(
    board: &'a Board,
    row: &'a Row,
    kept: Kept,
    target: usize,
) -> Option<Sentence<'a>> {
    let starts = kept.starts(board.target(target)?);
    let value = starts
        .iter()
        .find(|value| !may_keep(row, kept, target, **value))?;
    let value = Hex(u16::from(*value), 2);
    Some(say![
        {Text(kept.command())} " of " {Word::target(board, target)} " may be " (value)
        " at the start, and row 0 has " {kept_values(row, kept, target)?}
    ])
}

/// The first start value of a target that row 0 hasn't.
fn target_start<'a>(board: &'a Board, row: &'a Row, target: usize) -> Option<Sentence<'a>> {
    let page = kept_start(board, row, Kept::Page, target);
    page.or(kept_start(board, row, Kept::Protect, target))
}

/// That a register, or a counter, isn't 0 in row 0.
fn span_start(letter: &'static str, spans: &[Span], index: usize) -> Option<Sentence<'static>> {
    let span = spans.get(index)?;
    Some(say![
        {Text(letter)} (Count(index)) " is 0 at the start, and row 0 has "
        (Figure::Span(span.lo, span.hi))
    ])
}

/// What of the start isn't in a row.
fn row_start<'a>(board: &'a Board, row: &'a Row, unheld: Unheld) -> Option<Sentence<'a>> {
    match unheld {
        Unheld::Target(target) => target_start(board, row, target),
        Unheld::Good(rail) => Some(say![
            "no rail is known to be good at the start, and row 0 has " {Word::rail(board, rail)}
        ]),
        Unheld::Register(index) => span_start("r", &row.regs, index),
        Unheld::Source(index) => Some(say![
            "nothing was read at the start, and row 0 has a source for r"(Count(index))
        ]),
        Unheld::Counter(index) => span_start("c", &row.counters, index),
        Unheld::Lost => {
            let lost = Figure::Span(row.lost.lo, row.lost.hi);
            Some(say!["`lost` is 0 at the start, and row 0 has "(lost)])
        }
        Unheld::LostTicks => Some(say![
            "the last number of `ticks` is 0 at the start, and row 0 has "(Number(row.lost_coeff))
        ]),
    }
}

/// K8: what of the start isn't in row 0.
pub(crate) fn start_detail(judged: Judged<'_>, unheld: Unheld) -> Option<Sentence<'_>> {
    row_start(judged.board, judged.row(0)?, unheld)
}
