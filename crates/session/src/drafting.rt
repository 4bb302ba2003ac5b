//! A program that is drafted for a board and a plan, and judged before it is told.

ghost use Rattle.std.specs.Prelude.{◌≡◌, IfErr, IfOk, Ok, string_bytes};
ghost use Rattle.plans.specs.Plans.{IsPlanOf};
ghost use Rattle.seq_program.specs.Programs.{program_of};
ghost use Rattle.session.specs.DraftReplies.{IsDraftable, IsDrafted, IsVerdictOn, OnDraftFault};
ghost use Rattle.session.specs.DraftReplies.{SaysDraft, SparesPlan, TellsBound};
ghost use Rattle.session.specs.Planned.{planned_view};
ghost use Rattle.texts.specs.Words.{lines_by_feed};

use crate::checking::judged;
use crate::draft_fault::DraftFault;
use crate::planned::Planned;
use board::Board;
use drafts::{Undraftable, draft};
use fact_search::{FindFault, find};
use facts::Rule;
use plans::{Plan, read_plan};
use seq_program::{Program, ProgramFault, read_program};
use std::alloc::{AllocError, Global};
use table_check::{Table, Verdict, row_at};
use texts::ReadError;

/// The plan of a text.
fn plan_of(alloc: Global, planned: &Planned) -> Result<Plan, ReadError<DraftFault>>
    ensures plan { IfOk result (λ plan. IsPlanOf planned.now.board
        (lines_by_feed (string_bytes planned.now.plan)) plan.wishes.items) }
    ensures fault { IfErr result (OnDraftFault (planned_view planned.now)) }
{
    match read_plan(alloc, &planned.board, &planned.plan) {
        Ok(plan) => Ok(plan),
        Err(ReadError::Fault(fault)) => Err(ReadError::Fault(DraftFault::BadPlan(fault))),
        Err(ReadError::Memory) => Err(ReadError::Memory),
    }
}

/// The program of a draft's text. Where it is none, what is told is that it has too many
/// instructions: nothing else is known that it could have.
fn program_in(alloc: Global, board: &Board, text: &str) -> Result<Program, ReadError<DraftFault>>
    ensures program { IfOk result (λ p. program_of board.now text.now ≡ Ok p) }
    ensures fault { IfErr result SparesPlan }
{
    match read_program(alloc, board, text) {
        Ok(program) => Ok(program),
        Err(ProgramFault::Memory) => Err(ReadError::Memory),
        Err(_) => Err(ReadError::Fault(DraftFault::TooLong)),
    }
}

/// The error of a program that isn't accepted.
fn not_accepted(place: usize, rule: Rule) -> ReadError<DraftFault>
    ensures { SparesPlan result }
{
    ReadError::Fault(DraftFault::NotAccepted { place, rule })
}

/// The table that a search finds. Where it gives up, nothing bounds the ticks.
fn table_for(
    alloc: Global,
    board: &Board,
    program: &Program,
) -> Result<Table, ReadError<DraftFault>>
    ensures { IfErr result SparesPlan }
{
    match find(alloc, board, program) {
        Ok(table) => Ok(table),
        Err(FindFault::GaveUp(place)) => Err(not_accepted(place, Rule::K7)),
        Err(FindFault::Memory) => Err(ReadError::Memory),
    }
}

/// The text of the program that is drafted, below the line of its bound.
fn body_of(alloc: Global, planned: &Planned) -> Result<String, ReadError<DraftFault>>
    ensures drafted { IfOk result (λ text. IsDraftable (planned_view planned.now)) }
    ensures fault { IfErr result (OnDraftFault (planned_view planned.now)) }
{
    let plan = plan_of(alloc, planned)?;
    match draft(alloc, &planned.board, &plan) {
        Ok(draft) => Ok(draft.text),
        Err(ReadError::Fault(Undraftable::Circle(rail))) => {
            Err(ReadError::Fault(DraftFault::Circle(rail)))
        }
        Err(ReadError::Fault(Undraftable::NoEntry { target, form, code })) => {
            Err(ReadError::Fault(DraftFault::NoEntry { target, form, code }))
        }
        Err(ReadError::Fault(Undraftable::OverLimit(rail))) => {
            Err(ReadError::Fault(DraftFault::OverLimit(rail)))
        }
        Err(ReadError::Memory) => Err(ReadError::Memory),
    }
}

/// Ticks of 5 µs as milliseconds.
fn milliseconds(alloc: Global, ticks: u64) -> Result<String, AllocError> {
    let (whole, rest) = (ticks / 200, ticks % 200 * 5);
    format!(in alloc; "{whole}.{rest:03}")
}

/// The lines of a plan that aren't blank, as comments of a program.
fn plan_comments(alloc: Global, plan: &str) -> Result<String, AllocError> {
    let mut text = String::new(alloc);
    for line in plan.split('\n') {
        if !line.trim().is_empty() {
            write!(text, "# plan: {line}\n")?;
        }
    }
    Ok(text)
}

/// The text of a draft below the line that tells its bound, and the plan.
fn with_heading(alloc: Global, bound: u64, plan: &str, body: &str) -> Result<String, AllocError>
    ensures { IfOk result (λ text. TellsBound bound (string_bytes text)) }
{
    let time = milliseconds(alloc, bound)?;
    let plan = plan_comments(alloc, plan)?;
    format!(in alloc; "# accepted bound {bound} ticks, {time} ms\n{plan}{body}")
}

/// The bound that a table gives, if it is accepted.
fn bound_of(table: &Table) -> u64 {
    row_at(&table.rows, 0).map_or(0, |row| row.base)
}

/// The verdict on the program of a text and a table.
fn verdict_on(
    alloc: Global,
    board: &Board,
    text: &str,
    table: Table,
) -> Result<Verdict, ReadError<DraftFault>>
    ensures verdict { IfOk result (IsVerdictOn board.now text.now) }
    ensures fault { IfErr result SparesPlan }
{
    let program = program_in(alloc, board, text)?;
    let judged = judged(alloc, board, &program, table)?;
    Ok(judged.judgement.verdict())
}

/// The text of a program, if it is accepted with a table and with the bound that it tells.
fn accepted_text(
    alloc: Global,
    board: &Board,
    table: Table,
    bound: u64,
    text: String,
) -> Result<String, ReadError<DraftFault>>
    requires { TellsBound bound (string_bytes text) }
    ensures says { IfOk result (λ text. SaysDraft board.now (string_bytes text)) }
    ensures fault { IfErr result SparesPlan }
{
    match verdict_on(alloc, board, &text, table)? {
        Verdict::Accepted { bound: accepted } if accepted == bound => Ok(text),
        Verdict::Accepted { .. } => Err(not_accepted(0, Rule::K7)),
        Verdict::Refused { place, rule } => Err(not_accepted(place, rule)),
    }
}

/// The text of a draft, which is accepted.
fn draft_text(alloc: Global, planned: &Planned) -> Result<String, ReadError<DraftFault>>
    ensures says { IfOk result
        (λ text. SaysDraft planned.now.board (string_bytes text)) }
    ensures fault { IfErr result (OnDraftFault (planned_view planned.now)) }
{
    let board = &planned.board;
    let body = body_of(alloc, planned)?;
    let program = program_in(alloc, board, &body)?;
    let table = table_for(alloc, board, &program)?;
    let bound = bound_of(&table);
    let text = with_heading(alloc, bound, &planned.plan, &body)?;
    accepted_text(alloc, board, table, bound, text)
}

/// The text of the draft for a plan, or why there is none.
pub(crate) fn drafted(
    alloc: Global,
    planned: &Planned,
) -> Result<Result<String, DraftFault>, AllocError>
    ensures { IfOk result (IsDrafted (planned_view planned.now)) }
{
    match draft_text(alloc, planned) {
        Ok(text) => Ok(Ok(text)),
        Err(ReadError::Fault(fault)) => Ok(Err(fault)),
        Err(ReadError::Memory) => Err(AllocError),
    }
}
