//! K6 and K7: what isn't covered where a place leads, or where the ticks don't fall.

use crate::Result;
use crate::kept::kept_values;
use crate::roads::{Edge, Judged};
use board::Board;
use facts::{Row, RowPart, Source, Span};
use sentences::Figure::Count;
use sentences::Word::Text;
use sentences::{Figure, Kept, Sentence, Word, say};
use std::alloc::Global;
use table_check::{Breach, Spot};

/// What a target may keep, beside what the row has.
fn kept_detail<'a>(
    board: &'a Board,
    known: &'a Row,
    claimed: &'a Row,
    kept: Kept,
    target: usize,
) -> Option<Sentence<'a>> {
    Some(say![
        {Text(kept.command())} " of " {Word::target(board, target)} " may be "
        {kept_values(known, kept, target)?} ", and there the row has only "
        {kept_values(claimed, kept, target)?}
    ])
}

/// That a rail isn't known to be good.
fn good_detail(board: &Board, rail: usize) -> Sentence<'_> {
    say![{Word::rail(board, rail)} " isn't known to be good, and there the row has it for good"]
}

/// The numbers of a register, or a counter, beside those that the row has.
fn span_detail(
    letter: &'static str,
    known: &[Span],
    claimed: &[Span],
    index: usize,
) -> Option<Sentence<'static>> {
    let (more, span) = (known.get(index)?, claimed.get(index)?);
    Some(say![
        {Text(letter)} (Count(index)) " may be " (Figure::Span(more.lo, more.hi))
        ", and there the row has " (Figure::Span(span.lo, span.hi))
    ])
}

/// That it isn't known what a register was read from.
fn source_detail(board: &Board, register: usize, source: Source) -> Sentence<'_> {
    let (command, name) = match source {
        Source::None => {
            return say![
                "it isn't known that r" (Count(register))
                " was read from nothing, as there the row has it"
            ];
        }
        Source::Status(rail) => ("STATUS_WORD", Word::rail(board, rail)),
        Source::Page(target) => ("PAGE", Word::target(board, target)),
        Source::Protect(target) => ("WRITE_PROTECT", Word::target(board, target)),
    };
    say![
        "it isn't known that r" (Count(register)) " was read from " {Text(command)} " of " {name}
        ", as there the row has it"
    ]
}

/// How many arbitrations may be lost, beside how many the row has.
fn lost_detail(known: &Row, claimed: &Row) -> Sentence<'static> {
    say![
        "`lost` may be " (Figure::Span(known.lost.lo, known.lost.hi)) ", and there the row has "
        (Figure::Span(claimed.lost.lo, claimed.lost.hi))
    ]
}

/// What a row says that isn't known.
fn part_detail<'a>(
    board: &'a Board,
    known: &'a Row,
    claimed: &'a Row,
    part: RowPart,
) -> Option<Sentence<'a>> {
    match part {
        RowPart::Pages(target) => kept_detail(board, known, claimed, Kept::Page, target),
        RowPart::Protects(target) => kept_detail(board, known, claimed, Kept::Protect, target),
        RowPart::Good(rail) => Some(good_detail(board, rail)),
        RowPart::Register(index) => span_detail("r", &known.regs, &claimed.regs, index),
        RowPart::Source(index) => Some(source_detail(board, index, *claimed.sources.get(index)?)),
        RowPart::Counter(index) => span_detail("c", &known.counters, &claimed.counters, index),
        RowPart::Lost => Some(lost_detail(known, claimed)),
    }
}

/// The same, with the number of the row.
fn uncovered_text(
    alloc: Global,
    judged: Judged<'_>,
    known: &Row,
    to: usize,
    part: RowPart,
) -> Result<Option<String>> {
    let Some(claimed) = judged.row(to) else {
        return Ok(None);
    };
    match part_detail(judged.board, known, claimed, part) {
        Some(detail) => {
            let detail = detail.told(alloc)?;
            Ok(Some(format!(in alloc; "{detail} (row {to})")?))
        }
        None => Ok(None),
    }
}

/// What joins what counts to what was said.
fn joint(text: &str) -> &'static str {
    if text.is_empty() { ", where" } else { " and" }
}

/// The counters that count and the lost arbitrations, if they do.
fn spot_text(alloc: Global, spot: &Spot, row: &Row, next: &Row) -> Result<String> {
    let mut text = String::new(alloc);
    for (index, counter) in spot.counters.iter().enumerate() {
        if row.coeffs[index] > 0 || next.coeffs[index] > 0 {
            let joint = joint(&text);
            write!(text, "{joint} c{index} is {counter} then")?;
        }
    }
    if row.lost_coeff > 0 || next.lost_coeff > 0 {
        let (joint, lost) = (joint(&text), spot.lost);
        write!(text, "{joint} `lost` is {lost} then")?;
    }
    Ok(text)
}

/// Both sums, where the ticks that are left don't pay for what follows.
fn ticks_text(
    alloc: Global,
    judged: Judged<'_>,
    place: usize,
    edge: &Edge,
    at: &Spot,
    sums: (u128, u128),
) -> Result<Option<String>> {
    let (to, row, worst) = edge;
    let Some(next) = judged.row(*to) else {
        return Ok(None);
    };
    let (needed, before) = sums;
    let after = needed.saturating_sub(u128::from(*worst));
    let unit = if *worst == 1 { "tick" } else { "ticks" };
    let spot = spot_text(alloc, at, row, next)?;
    Ok(Some(format!(in alloc;
        "{worst} {unit} at most and the {after} of row {to} are {needed}, and row {place} leaves \
         {before} for them{spot}"
    )?))
}

/// What an edge of a place breaks.
fn breach_text(
    alloc: Global,
    judged: Judged<'_>,
    place: usize,
    edge: &Edge,
    breach: Breach,
) -> Result<Option<String>> {
    match breach {
        Breach::NoRow { to, .. } => Ok(Some(format!(in alloc; "row {to} is none")?)),
        Breach::Uncovered { to, part, .. } => {
            let (_to, known, _ticks) = edge;
            uncovered_text(alloc, judged, known, to, part)
        }
        Breach::Unpaid {
            at,
            needed,
            left,
            ..
        } => ticks_text(alloc, judged, place, edge, &at, (needed, left)),
        _ => Ok(None),
    }
}

/// What tells an edge from the others of its place: a third one is that of a lost arbitration.
fn way_name(number: usize) -> &'static str {
    if number < 2 {
        ""
    } else {
        " after a lost arbitration"
    }
}

/// What the edge of a place with this number breaks, with the line to which it leads.
pub(crate) fn edge_detail(
    alloc: Global,
    judged: Judged<'_>,
    place: usize,
    number: usize,
    breach: Breach,
) -> Result<Option<String>> {
    let edges = judged.edges(alloc, place)?;
    let Some(edge) = edges.get(number) else {
        return Ok(None);
    };
    let Some(detail) = breach_text(alloc, judged, place, edge, breach)? else {
        return Ok(None);
    };
    let (to, _row, _ticks) = edge;
    let line = judged.line(*to);
    let way = way_name(number);
    Ok(Some(format!(in alloc; "on the way to line {line}{way}, {detail}")?))
}

/// K7 at an end: it takes a tick.
pub(crate) fn end_detail(alloc: Global, place: usize) -> Result<Option<String>> {
    Ok(Some(format!(in alloc;
        "the end takes a tick, and the `ticks` of row {place} may leave none"
    )?))
}
