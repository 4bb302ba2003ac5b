//! The checker.

ghost use Rattle.std.specs.Prelude.{◌≡◌, IfOk, IfSome, option_map, slice_get, Some};
ghost use Rattle.facts.specs.domain.Rows.{row_view, IsRow};
ghost use Rattle.table_check.specs.Tables.{table_view, rows_view};
ghost use Rattle.table_check.specs.checker.Breaches.{BreaksAt, IsJudgement, verdict_of};
ghost use Rattle.table_check.specs.checker.Looking.{HasRowsOf, at_place};
ghost use Rattle.table_check.specs.checker.Looking.{fault_at, fault_in, Blames};
ghost use Rattle.table_check.specs.checker.Obligations.{IsFirstFault, IsVerdict, bound_of};
ghost use Rattle.table_check.specs.checker.Obligations.{obligations};
ghost use Rattle.table_check.specs.checker.Obligations.{of_places, of_row};
ghost use Rattle.table_check.specs.checker.SafeTables.{IsSafeVerdict};

use crate::checker::breach::{Breach, Judgement, Refusal};
use crate::checker::forming::form_breach;
use crate::checker::leading::{edges_breach, end_breach, shaped_edges};
use crate::checker::verdict::Verdict;
use crate::law::inductive_runs_are_safe;
use crate::table::{Table, row_at};
use board::{Board, board_is_valid};
use facts::{Row, violation};
use seq_program::{Instr, Program, program_is_valid};
use std::alloc::{AllocError, Global};

/// What an instruction breaks first at its row, or the first of its edges that breaks a rule.
fn instr_breach(
    alloc: Global,
    board: &Board,
    program: &Program,
    rows: &[Option<Row>],
    place: usize,
    instr: &Instr,
    row: &Row,
) -> Result<Option<Breach>, AllocError>
    requires here { slice_get program.now place ≡ Some instr.now }
    requires rows { HasRowsOf board.now (rows_view rows.now) }
    requires row { IsRow board.now (row_view row.now) }
    ensures first { IfOk result (λ found. IsFirstFault board.now program.now (rows_view rows.now)
        (of_row board.now place instr.now (row_view row.now))
        (option_map (fault_at place) found)) }
    ensures blame { IfOk result (λ found. IfSome found
        (BreaksAt board.now (rows_view rows.now) place instr.now (row_view row.now))) }
{
    if let Some(violation) = violation(board, instr, row) {
        return Ok(Some(Breach::Duty(violation)));
    }
    let edges = shaped_edges(alloc, board, program, place, instr, row)?;
    match edges_breach(board, rows, &edges) {
        Some(breach) => Ok(Some(breach)),
        None => Ok(end_breach(board, instr, row)),
    }
}

/// What is broken first at a place; nothing where the table has no row there.
fn place_breach(
    alloc: Global,
    board: &Board,
    program: &Program,
    rows: &[Option<Row>],
    place: usize,
) -> Result<Option<Refusal>, AllocError>
    requires rows { HasRowsOf board.now (rows_view rows.now) }
    ensures first { IfOk result (λ found. IsFirstFault board.now program.now (rows_view rows.now)
        (at_place board.now program.now (rows_view rows.now) place)
        (option_map fault_in found)) }
    ensures blame { IfOk result (λ found. IfSome found
        (Blames board.now program.now (rows_view rows.now))) }
{
    let Some(row) = row_at(rows, place) else {
        return Ok(None);
    };
    let Some(instr) = program.at(place) else {
        return Ok(None);
    };
    match instr_breach(alloc, board, program, rows, place, instr, row)? {
        Some(breach) => Ok(Some(Refusal { place, breach })),
        None => Ok(None),
    }
}

/// What is broken first at a place, places upwards.
fn places_breach(
    alloc: Global,
    board: &Board,
    program: &Program,
    rows: &[Option<Row>],
) -> Result<Option<Refusal>, AllocError>
    requires rows { HasRowsOf board.now (rows_view rows.now) }
    ensures first { IfOk result (λ found. IsFirstFault board.now program.now (rows_view rows.now)
        (of_places board.now 0 program.now (rows_view rows.now)) (option_map fault_in found)) }
    ensures blame { IfOk result (λ found. IfSome found
        (Blames board.now program.now (rows_view rows.now))) }
{
    for place in 0..rows.len() {
        if let Some(refusal) = place_breach(alloc, board, program, rows, place)? {
            return Ok(Some(refusal));
        }
    }
    Ok(None)
}

/// The first obligation that fails, and what is to blame.
fn first_breach(
    alloc: Global,
    board: &Board,
    program: &Program,
    rows: &[Option<Row>],
) -> Result<Option<Refusal>, AllocError>
    ensures first { IfOk result (λ found. IsFirstFault board.now program.now (rows_view rows.now)
        (obligations board.now program.now (rows_view rows.now)) (option_map fault_in found)) }
    ensures blame { IfOk result (λ found. IfSome found
        (Blames board.now program.now (rows_view rows.now))) }
{
    match form_breach(board, program, rows) {
        Some(refusal) => Ok(Some(refusal)),
        None => places_breach(alloc, board, program, rows),
    }
}

/// The ticks that are left at the start.
fn bound_of(rows: &[Option<Row>]) -> u64
    ensures { result ≡ bound_of (rows_view rows.now) }
{
    match row_at(rows, 0) {
        Some(row) => row.base,
        None => 0,
    }
}

/// The judgement: a refusal, or without one the rows are accepted.
fn judgement_on(
    alloc: Global,
    board: &Board,
    program: &Program,
    rows: &[Option<Row>],
) -> Result<Judgement, AllocError>
    ensures { IfOk result (λ j. IsJudgement board.now program.now (rows_view rows.now) j) }
{
    match first_breach(alloc, board, program, rows)? {
        Some(refusal) => Ok(Judgement::Refused(refusal)),
        None => Ok(Judgement::Accepted {
            bound: bound_of(rows),
        }),
    }
}

/// What `check` answers on a table of facts for a program on a board, and with a refusal what is
/// to blame for it: the first obligation that fails, in the order that `check` says, and of that
/// the first thing that breaks it, with ticks counted where most are lacking. The table may be any.
/// Fails only for want of memory.
pub fn judge(
    alloc: Global,
    board: &Board,
    program: &Program,
    table: &Table,
) -> Result<Judgement, AllocError>
    ensures exactly { IfOk result
        (λ j. IsJudgement board.now program.now (table_view table.now) j) }
    ensures safe { IfOk result (λ j. IsSafeVerdict board.now program.now (verdict_of j)) }
{
    inductive_runs_are_safe();
    board_is_valid(board);
    program_is_valid(program);
    judgement_on(alloc, board, program, &table.rows)
}

/// The verdict on a table of facts for a program on a board.
///
/// A table that keeps the rule book is accepted. Then, whatever the targets answer within the
/// board's ranges, the program ends within `bound` ticks with SCL and SDA high, every frame on the
/// wire is one its target allows, a beginning that a target broke off, or a whole frame of another
/// controller to an address that the board names for them, no write is protected, no commanded
/// voltage exceeds its limit, and no rail is enabled before its needs reported good.
/// Otherwise the first place that breaks a rule is told, and the rule: first K9, the length and the
/// rows of the table, then K8, its start, then places upwards, at each K1 to K5 and then K6 and K7
/// along its edges. The table may be any. Fails only for want of memory.
pub fn check(
    alloc: Global,
    board: &Board,
    program: &Program,
    table: &Table,
) -> Result<Verdict, AllocError>
    ensures exactly { IfOk result
        (λ v. IsVerdict board.now program.now (table_view table.now) v) }
    ensures safe { IfOk result (λ v. IsSafeVerdict board.now program.now v) }
{
    Ok(judge(alloc, board, program, table)?.verdict())
}
