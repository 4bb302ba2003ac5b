//! Rows of what is known at a place: duties, edges, ticks, and what covers what.

use crate::cells::{board, or_dash};
use crate::row::{Flaw, Outcome, Row};
use crate::table_rows::{changes, row};
use board::Board;
use facts::{duty, edges, foreign_ticks, own_ticks, violation};
use seq_program::{Instr, Program, read_program};
use std::alloc::Global;

/// The board and the row of a section.
fn board_and_row(alloc: Global, given: &Row) -> Outcome<(Box<Board>, &str)> {
    let (text, base) = given.two_texts()?;
    Ok((board(alloc, text)?, base))
}

/// A program that begins with a line, which may lead to the label x at place 2.
fn begins_with(alloc: Global, board: &Board, line: &str) -> Outcome<Program> {
    let text = format!(in alloc; "{line}\nend\nx:\nend")?;
    match read_program(alloc, board, &text) {
        Ok(program) => Ok(program),
        Err(_) => Err(Flaw::Cell("line of a program").error()),
    }
}

fn first(program: &Program) -> Outcome<&Instr> {
    program.at(0).ok_or(Flaw::Cell("instruction").error())
}

/// `LINE | CHANGES | RULE`: the duty that a line doesn't meet.
fn duty_row(alloc: Global, given: &Row) -> Outcome {
    let (board, base) = board_and_row(alloc, given)?;
    let (line, known) = given.two()?;
    let program = begins_with(alloc, &board, line)?;
    let row = row(alloc, &board, base, known)?;
    match duty(&board, first(&program)?, &row) {
        Some(rule) => Ok(rule.name().to_string(alloc)?),
        None => Ok("-".to_string(alloc)?),
    }
}

/// `LINE | CHANGES | VIOLATION`: what is to blame where a line breaks a rule.
fn violation_row(alloc: Global, given: &Row) -> Outcome {
    let (board, base) = board_and_row(alloc, given)?;
    let (line, known) = given.two()?;
    let program = begins_with(alloc, &board, line)?;
    let row = row(alloc, &board, base, known)?;
    or_dash(alloc, violation(&board, first(&program)?, &row))
}

/// An edge: the place that it leads to, what is known there, and its ticks.
type Edge = (usize, facts::Row, u64);

/// The edges of a program's first place, if its duties are met.
fn first_edges(
    alloc: Global,
    board: &Board,
    program: &Program,
    row: &facts::Row,
) -> Outcome<Vec<Edge>> {
    let Some(instr) = program.at(0) else {
        return Err(Flaw::Cell("instruction").error());
    };
    if row.is_of(board) && duty(board, instr, row).is_none() {
        Ok(edges(alloc, board, program, 0, row)?)
    } else {
        Err(Flaw::Cell("line that may stand here").error())
    }
}

/// The edges of a line, if its duties are met.
fn edges_of(alloc: Global, board: &Board, line: &str, row: &facts::Row) -> Outcome<Vec<Edge>> {
    let program = begins_with(alloc, board, line)?;
    first_edges(alloc, board, &program, row)
}

/// `LINE | CHANGES | PLACE CHANGES / ..`: where a line leads and what is known there, with the
/// ticks if they are asked for.
fn edges_row(alloc: Global, given: &Row, is_timed: bool) -> Outcome {
    let (board, base) = board_and_row(alloc, given)?;
    let (line, known) = given.two()?;
    let before = row(alloc, &board, base, known)?;
    let mut text = String::new(alloc);
    for (to, row, ticks) in edges_of(alloc, &board, line, &before)? {
        let known = changes(alloc, &board, base, row)?;
        text.push_str(if text.is_empty() { "" } else { " / " })?;
        let edge = if is_timed {
            format!(in alloc; "{to} in {ticks}: {known}")?
        } else {
            format!(in alloc; "{to}: {known}")?
        };
        text.push_str(&edge)?;
    }
    if text.is_empty() {
        text.push('-')?;
    }
    Ok(text)
}

/// `LINE | TICKS`: the most ticks that a line takes by itself.
fn ticks_row(alloc: Global, given: &Row) -> Outcome {
    let board = board(alloc, given.text()?)?;
    let program = begins_with(alloc, &board, given.one()?)?;
    let ticks = own_ticks(&board, first(&program)?);
    Ok(format!(in alloc; "{ticks}")?)
}

/// `TICKS`: those of the longest frame of another controller.
fn foreign_row(alloc: Global, given: &Row) -> Outcome {
    let board = board(alloc, given.text()?)?;
    Ok(format!(in alloc; "{}", foreign_ticks(&board))?)
}

/// `LINE | CHANGES | N edges, lost LEAST MOST, base TICKS, TICKS ticks`: how many edges a line has,
/// and what the third one says.
fn third_edge_row(alloc: Global, given: &Row) -> Outcome {
    let (board, base) = board_and_row(alloc, given)?;
    let (line, known) = given.two()?;
    let before = row(alloc, &board, base, known)?;
    let edges = edges_of(alloc, &board, line, &before)?;
    let count = edges.len();
    let text = match edges.get(2) {
        Some((_to, row, ticks)) => {
            let (low, high, base) = (row.lost.lo, row.lost.hi, row.base);
            format!(in alloc; "{count} edges, lost {low} {high}, base {base}, {ticks} ticks")?
        }
        None => format!(in alloc; "{count} edges")?,
    };
    Ok(text)
}

/// `CHANGES | PART`: the first part of the section's wide row that doesn't cover another row's.
fn uncovered_row(alloc: Global, given: &Row) -> Outcome {
    let [text, wide, base] = given.texts.as_slice() else {
        return Err(Flaw::Texts.error());
    };
    let board = board(alloc, text)?;
    let wide = row(alloc, &board, wide, "")?;
    let other = row(alloc, &board, base, given.one()?)?;
    or_dash(alloc, wide.uncovered(&other))
}

/// `CHANGES | HOLDS`: whether a row holds every start of its board.
fn starts_row(alloc: Global, given: &Row) -> Outcome {
    let (board, base) = board_and_row(alloc, given)?;
    let row = row(alloc, &board, base, given.one()?)?;
    Ok(format!(in alloc; "{}", row.holds_starts(&board))?)
}

/// What a row of some kind comes out as.
pub(crate) fn outcome(alloc: Global, kind: &str, given: &Row) -> Outcome {
    match kind {
        "duty" => duty_row(alloc, given),
        "violation" => violation_row(alloc, given),
        "edges" => edges_row(alloc, given, false),
        "timed_edges" => edges_row(alloc, given, true),
        "ticks" => ticks_row(alloc, given),
        "foreign_ticks" => foreign_row(alloc, given),
        "third_edge" => third_edge_row(alloc, given),
        "uncovered" => uncovered_row(alloc, given),
        "starts" => starts_row(alloc, given),
        _ => Err(Flaw::Kind.error()),
    }
}
