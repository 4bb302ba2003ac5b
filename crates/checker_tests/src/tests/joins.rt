//! Joins of rows cover what they join, and parts of rows are a board's.

use super::boards::two_board;
use super::expected::{found, made, same};
use board::Board;
use facts::{GoodSet, PageSet, Part, ProtectSet, Row, Source, Span};
use std::alloc::Global;
use std::process::Abort;
use std::test::*;

/// A row for two targets. The first one's PAGE and WRITE_PROTECT may be some values.
fn row_of(rt: &impl Abort, alloc: Global, pages: &[u8], protects: &[u8]) -> Row {
    let zero = [0].as_slice();
    let pages = [page_set(rt, alloc, pages), page_set(rt, alloc, zero)];
    let protects = [
        protect_set(rt, alloc, protects),
        protect_set(rt, alloc, zero),
    ];
    let pages = made(rt, Vec::from_array(alloc, pages));
    Row::at_start(pages, made(rt, Vec::from_array(alloc, protects)))
}

fn page_set(rt: &impl Abort, alloc: Global, pages: &[u8]) -> PageSet {
    found(rt, made(rt, PageSet::of(alloc, pages)))
}

fn protect_set(rt: &impl Abort, alloc: Global, protects: &[u8]) -> ProtectSet {
    found(rt, made(rt, ProtectSet::of(alloc, protects)))
}

/// A row whose r7 equals a page, with these values and ticks of c0.
fn counted_row(rt: &impl Abort, alloc: Global, most: u16, base: u64, coeff: u64) -> Row {
    let mut row = row_of(rt, alloc, &[0], &[0]);
    row.sources[7] = Source::Page(1);
    row.counters[0] = Span { lo: 0, hi: most };
    row.base = base;
    row.coeffs = [coeff, 5, 0, 0];
    row
}

/// Whether the join of two parts covers both.
fn joins<P: Part + Drop>(rt: &impl Abort, alloc: Global, first: &P, second: &P) -> bool
    requires { P.Alike first.now second.now }
{
    let joined = made(rt, first.join(alloc, second));
    joined.covers(first) && joined.covers(second)
}

/// Whether the joins of the parts of two rows cover them.
fn parts_join(rt: &impl Abort, alloc: Global, first: &Row, second: &Row) -> bool {
    assert!(rt; !first.pages.is_empty() && !first.protects.is_empty());
    assert!(rt; !second.pages.is_empty() && !second.protects.is_empty());
    joins(rt, alloc, &first.pages[0], &second.pages[0])
        && joins(rt, alloc, &first.protects[0], &second.protects[0])
        && joins(rt, alloc, &first.good, &second.good)
        && joins(rt, alloc, &first.counters[0], &second.counters[0])
        && joins(rt, alloc, &first.sources[7], &second.sources[7])
}

/// Whether the join of two rows covers them.
fn rows_join(rt: &impl Abort, alloc: Global, first: &Row, second: &Row) -> bool {
    assert!(rt; first.pages.len() == second.pages.len());
    assert!(rt; first.protects.len() == second.protects.len());
    joins(rt, alloc, first, second)
}

#[test]
fn joins_cover_what_they_join(rt: HostRuntime) {
    let alloc = rt.alloc();
    let first = counted_row(&rt, alloc, 0, 50, 0);
    let second = counted_row(&rt, alloc, 3, 13, 12);
    same(&rt, parts_join(&rt, alloc, &first, &second), true);
    same(&rt, rows_join(&rt, alloc, &first, &second), true);
}

#[test]
fn a_rail_more(rt: HostRuntime) {
    same(&rt, GoodSet::empty().has_some(), false);
    let third = GoodSet::empty().with(2).with(2);
    same(&rt, (third.contains(2), third.contains(1)), (true, false));
}

/// Whether the first sets of a row have a value, and a set of rails and a source are a board's.
fn parts_are_of(
    rt: &impl Abort,
    alloc: Global,
    board: &Board,
    (values, rail): (&[u8], u8),
) -> [bool; 4] {
    assert!(rt; rail < 64);
    let row = row_of(rt, alloc, values, values);
    [
        found(rt, row.pages.first()).has_some(),
        found(rt, row.protects.first()).has_some(),
        GoodSet::empty().with(rail).is_of(board),
        Source::Status(usize::from(rail)).is_of(board),
    ]
}

/// The board has two rails.
#[test]
fn parts_of_a_board(rt: HostRuntime) {
    let alloc = rt.alloc();
    let board = made(&rt, two_board(alloc));
    let last = parts_are_of(&rt, alloc, &board, (&[0], 1));
    let beyond = parts_are_of(&rt, alloc, &board, (&[], 2));
    drop(board);
    same(&rt, (last, beyond), ([true; 4], [false; 4]));
}
