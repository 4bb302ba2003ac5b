//! Ways on which a rule may fail.

use super::boards::two_board;
use super::expected::{found, made, same};
use board::Board;
use facts::Rule;
use seq_program::read_program;
use std::alloc::Global;
use std::process::Abort;
use std::test::*;
use ways::{Search, Step, bad_way};

/// Turns on b, which needs a: where a's report isn't read, it is turned on all the same.
const PROGRAM: &str = "write a VOUT_COMMAND 4505 else bad
write a OPERATION 0x80 else bad
read a STATUS_WORD r0 else on
if r0 0x0840 0x0000 on
goto bad
on:
write b OPERATION 0x80 else bad
end
bad:
fail
";

/// The places of a way.
fn places_of(rt: &impl Abort, alloc: Global, way: &[Step]) -> Vec<usize> {
    let mut places = Vec::new(alloc);
    for step in way {
        made(rt, places.push(step.place));
    }
    places
}

/// The places of what a search found, and which edge leads to the last, of how many.
type Found = (Vec<usize>, usize, usize);

fn found_in(rt: &impl Abort, alloc: Global, search: &Search) -> Option<Found> {
    match search {
        Search::Found(way) => {
            let last = found(rt, way.last());
            Some((places_of(rt, alloc, way), last.edge, last.edges))
        }
        Search::Nowhere | Search::Unknown => None,
    }
}

fn found_on(
    rt: &impl Abort,
    alloc: Global,
    board: &Board,
    place: usize,
    rule: Rule,
) -> Option<Found> {
    let program = made(rt, read_program(alloc, board, PROGRAM));
    let search = made(rt, bad_way(alloc, board, &program, place, rule));
    found_in(rt, alloc, &search)
}

/// The write of OPERATION stands at place 5; the second edge of the read leads there.
#[test]
fn ways_on_which_a_rule_fails(rt: HostRuntime) {
    let alloc = rt.alloc();
    let board = two_board(&rt, alloc);
    let places = made(&rt, vec![in alloc; 0, 1, 2, 5]);
    let way = found_on(&rt, alloc, &board, 5, Rule::K5);
    same(&rt, way, Some((places, 1, 2)));
    same(&rt, found_on(&rt, alloc, &board, 5, Rule::K4), None);
    same(&rt, found_on(&rt, alloc, &board, 1, Rule::K5), None);
}
