//! The search by its calls. What it finds for whole programs is tried with the cases of
//! `examples/cases`.

use super::boards::two_board;
use super::expected::{made, same};
use board::Board;
use fact_search::{FindFault, find};
use seq_program::read_program;
use std::alloc::Global;
use std::process::Abort;
use std::test::*;
use table_check::{
    Table, Verdict, check, read_table, row_at, shaped, tables_are_judged_by_place,
    uncounted_tables_are_judged, write_table,
};

/// The ticks that are left at a place.
fn base_at(table: &Table, place: usize) -> Option<u64> {
    Some(row_at(&table.rows, place)?.base)
}

/// How many rows a table has, the ticks that are left at places 1 and 2, and whether it belongs to
/// the board.
type Found = (usize, Option<u64>, Option<u64>, bool);

fn found_in(board: &Board, table: &Table) -> Found {
    let (first, second) = (base_at(table, 1), base_at(table, 2));
    (table.rows.len(), first, second, shaped(board, table))
}

#[test]
fn found_by_call(rt: HostRuntime) {
    tables_are_judged_by_place();
    uncounted_tables_are_judged();
    let alloc = rt.alloc();
    let board = made(&rt, two_board(alloc));
    let program = made(&rt, read_program(alloc, &board, "wait 1\nend\n"));
    let table = made(&rt, find(alloc, &board, &program));
    same(&rt, found_in(&board, &table), (2, Some(1), None, true));
    let verdict = made(&rt, check(alloc, &board, &program, &table));
    same(&rt, verdict, Verdict::Accepted { bound: 3 });
}

#[test]
fn faults_of_the_search(rt: HostRuntime) {
    let gave_up = FindFault::GaveUp(7);
    same(&rt, (gave_up.number(), gave_up.name()), (2, "GaveUp"));
    same(&rt, gave_up.place(), Some(7));
    let memory = FindFault::Memory;
    same(&rt, (memory.number(), memory.name()), (1, "Memory"));
    same(&rt, memory.place(), None);
}

/// What is known where a program of one place begins, and that it takes a tick.
const ONE_ROW: &str = "version 2
row 0
page a 00
page b 00
protect a 00
protect b 00
good
reg r0 0 0 none
reg r1 0 0 none
reg r2 0 0 none
reg r3 0 0 none
reg r4 0 0 none
reg r5 0 0 none
reg r6 0 0 none
reg r7 0 0 none
counter c0 0 0
counter c1 0 0
counter c2 0 0
counter c3 0 0
lost 0 0
ticks 1 0 0 0 0 0
";

/// What is written of the table of a text.
fn written_again(rt: &impl Abort, alloc: Global, board: &Board, text: &str) -> String {
    let table = made(rt, read_table(alloc, board, text));
    assert!(rt; shaped(board, &table));
    made(rt, write_table(alloc, board, &table))
}

#[test]
fn a_table_is_written_as_it_was_read(rt: HostRuntime) {
    let alloc = rt.alloc();
    let board = made(&rt, two_board(alloc));
    let text = written_again(&rt, alloc, &board, ONE_ROW);
    same(&rt, text.as_str(), ONE_ROW);
}

/// The same table in the first form, which doesn't count lost arbitrations.
fn first_form(rt: &impl Abort, alloc: Global) -> String {
    let text = made(rt, ONE_ROW.replace(alloc, "version 2\n", ""));
    let text = made(rt, text.replace(alloc, "lost 0 0\n", ""));
    made(
        rt,
        text.replace(alloc, "ticks 1 0 0 0 0 0", "ticks 1 0 0 0 0"),
    )
}

#[test]
fn a_table_of_the_first_form_is_written_in_the_second(rt: HostRuntime) {
    let alloc = rt.alloc();
    let board = made(&rt, two_board(alloc));
    let first = first_form(&rt, alloc);
    let text = written_again(&rt, alloc, &board, &first);
    same(&rt, text.as_str(), ONE_ROW);
}
