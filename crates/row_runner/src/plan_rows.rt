//! Rows of plans and of their drafts.

use crate::cells::{board, count, or_dash, shown};
use crate::row::{Flaw, Outcome, Row};
use board::Board;
use drafts::{Draft, draft};
use plans::{Plan, PlanFault, read_plan};
use std::alloc::Global;
use texts::ReadError;

fn plan(alloc: Global, board: &Board, text: &str) -> Outcome<Plan> {
    match read_plan(alloc, board, text) {
        Ok(plan) => Ok(plan),
        Err(_) => Err(Flaw::Cell("plan").error()),
    }
}

/// The plan of a section, which is for its board.
fn plan_of(alloc: Global, given: &Row) -> Outcome<Plan> {
    let (board_text, text) = given.two_texts()?;
    let board = board(alloc, board_text)?;
    plan(alloc, &board, text)
}

/// What a plan asks for a rail or a target.
fn setting(alloc: Global, kind: &str, plan: &Plan, index: usize) -> Outcome {
    match kind {
        "voltage_of" => or_dash(alloc, plan.voltage_of(index)),
        "retries_of" => shown(alloc, plan.retries_of(index)),
        "polling_of" => shown(alloc, plan.polling_of(index)),
        "protect_of" => or_dash(alloc, plan.protect_of(index)),
        "clears" => shown(alloc, plan.clears(index)),
        _ => Err(Flaw::Kind.error()),
    }
}

/// `INDEX | VALUE`, `VALUE`, or `FIRST | SECOND | IS`: what a plan asks for.
fn setting_row(alloc: Global, kind: &str, given: &Row) -> Outcome {
    let plan = plan_of(alloc, given)?;
    match (kind, given.cells.as_slice()) {
        ("general_retries", _) => shown(alloc, plan.general_retries()),
        ("puts_before", [one, two]) => shown(alloc, plan.puts_before(count(one)?, count(two)?)),
        _ => setting(alloc, kind, &plan, count(given.one()?)?),
    }
}

/// `TEXT | LINE FAULT`: the first bad line of a plan, and why it is bad.
fn bad_line_row(alloc: Global, given: &Row) -> Outcome {
    let board = board(alloc, given.text()?)?;
    match read_plan(alloc, &board, given.one()?) {
        Ok(_) => Ok("-".to_string(alloc)?),
        Err(ReadError::Fault(PlanFault { line, why })) => Ok(format!(in alloc; "{line} {why:?}")?),
        Err(ReadError::Memory) => Err(ReadError::Memory),
    }
}

/// A part of a draft.
fn part(alloc: Global, kind: &str, draft: Draft) -> Outcome {
    match kind {
        "order" => shown(alloc, draft.order),
        "parts" => shown(alloc, draft.parts),
        "head" => Ok(draft.text.lines().next().unwrap_or("-").to_string(alloc)?),
        _ => Ok("-".to_string(alloc)?),
    }
}

/// `PLAN | PART`: a part of a plan's draft, or why there is none.
fn draft_row(alloc: Global, kind: &str, given: &Row) -> Outcome {
    let board = board(alloc, given.text()?)?;
    let plan = plan(alloc, &board, given.one()?)?;
    match draft(alloc, &board, &plan) {
        Ok(draft) => part(alloc, kind, draft),
        Err(ReadError::Fault(why)) => shown(alloc, why),
        Err(ReadError::Memory) => Err(ReadError::Memory),
    }
}

/// What a row of some kind comes out as.
pub(crate) fn outcome(alloc: Global, kind: &str, given: &Row) -> Outcome {
    match kind {
        "bad_line" => bad_line_row(alloc, given),
        "order" | "parts" | "head" | "undraftable" => draft_row(alloc, kind, given),
        _ => setting_row(alloc, kind, given),
    }
}
