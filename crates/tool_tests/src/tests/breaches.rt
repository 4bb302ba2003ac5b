//! Runs that break a rule, which are searched.

ghost use Rattle.std.specs.Prelude.{length, All};
ghost use Rattle.seq_program.specs.Valid.{IsOnBoard};

use super::boards::two_board;
use super::expected::{made, same};
use board::Board;
use breach_search::{MOST_STATES, find_breach};
use facts::Rule;
use run_monitor::Breach;
use seq_program::{Program, read_program};
use std::alloc::Global;
use std::process::Abort;
use std::test::*;

fn breach_of(
    rt: &impl Abort,
    alloc: Global,
    board: &Board,
    program: &Program,
    most: usize,
) -> Option<Breach>
    requires { All (λ i. IsOnBoard (length board.now.targets) i) program.now }
{
    match made(rt, find_breach(alloc, board, program, 5, most)) {
        Some(harm) => Some(harm.breach),
        None => None,
    }
}

fn breach_on(
    rt: &impl Abort,
    alloc: Global,
    board: &Board,
    program: &str,
    most: usize,
) -> Option<Breach> {
    match read_program(alloc, board, program) {
        Ok(program) => breach_of(rt, alloc, board, &program, most),
        Err(fault) => panic!(rt; "{fault:?}"),
    }
}

/// Where a program on TWO is found to break a rule, by at most so many states.
fn breach_in(rt: &impl Abort, alloc: Global, program: &str, most: usize) -> Option<Breach> {
    let board = two_board(rt, alloc);
    let breach = breach_on(rt, alloc, &board, program, most);
    drop(board);
    breach
}

/// The first rail reports good, and is turned off before the second is turned on, which needs it.
const OFF_AGAIN: &str = "write a OPERATION 0x80 else bad
read a STATUS_WORD r0 else bad
if r0 0x0840 0 good
fail
good:
write a OPERATION 0 else bad
write b OPERATION 0x80 else bad
end
bad:
fail
";

#[test]
fn a_need_that_is_turned_off(rt: HostRuntime) {
    let breach = Breach {
        index: 4,
        place: 5,
        rule: Rule::K5,
    };
    let alloc = rt.alloc();
    let most = MOST_STATES;
    same(&rt, breach_in(&rt, alloc, OFF_AGAIN, most), Some(breach));
    same(&rt, breach_in(&rt, alloc, OFF_AGAIN, 1), None);
    same(&rt, breach_in(&rt, alloc, "end\n", most), None);
}
