//! Runs that are played: the plain one, worked out by hand. Others are tried with the program as it
//! was built.

ghost use Rattle.std.specs.Prelude.{length, All};
ghost use Rattle.seq_program.specs.Valid.{IsOnBoard};

use super::boards::{boxed, shared_board, two_text};
use super::expected::{made, same};
use board::{Board, read_board};
use run_player::{Played, play};
use seq_program::{Program, read_program};
use simulator::Ending;
use smbus::Answer;
use std::alloc::Global;
use std::process::Abort;
use std::test::*;

/// TWO with ranges, and with two start values each.
fn ranged_board(rt: &impl Abort, alloc: Global) -> Box<Board> {
    let mut text = made(rt, two_text(alloc, ""));
    for (old, new) in &RANGES {
        text = made(rt, text.replace(alloc, old, new));
    }
    boxed(rt, alloc, read_board(alloc, &text))
}

/// A text of TWO, and what stands for it.
static RANGES: [(&str, &str); 4] = [
    ("start_pages = [0]", "start_pages = [255, 0]"),
    ("start_protects = [0]", "start_protects = [128, 0]"),
    ("\"STATUS_WORD\"", "\"STATUS_WORD\", values = [64, 4096]"),
    (
        "\"writeword\", command = \"VOUT_COMMAND\"",
        "\"readword\", command = \"READ_VOUT\", values = [7, 9]",
    ),
];

/// Asks the second target of TWO for its power until it reports good.
const POLLING: &str = "write b OPERATION 0x80 else bad
count c0 20
poll:
read b STATUS_WORD r0 else next
if r0 0x0840 0x0000 good
next:
again c0 poll
bad:
fail
good:
end
";

/// Reads what is stored, a status and a voltage, and sends a command.
const READING: &str = "read a PAGE r0 else bad
read a STATUS_WORD r1 else bad
if r1 0x0840 0x0000 good
bad:
fail
good:
read b READ_VOUT r2 else bad
write b OPERATION 0x80 else bad
end
";

/// The value, the refused byte and the new alerts of an answer.
type Said = (u16, Option<u16>, u16);

/// A step in which nothing is said.
const NOTHING: Said = (0, None, 0);

/// The plain answers to it: FFh is stored; 80h is the least status from 40h up without bit 6; 7 is
/// the least voltage.
static READ: [Said; 6] = [
    (0xFF, None, 0),
    (0x80, None, 0),
    NOTHING,
    (7, None, 0),
    NOTHING,
    NOTHING,
];

/// Whether an answer holds no slot, reads no block, takes no write and has no other controller.
fn is_plain(answer: &Answer) -> bool {
    answer.holds.is_empty() && answer.bytes.is_empty() && !answer.took && answer.contender.is_none()
}

/// The values, the refused bytes and the alerts of answers.
fn said_of(rt: &impl Abort, alloc: Global, answers: &[Answer]) -> Vec<Said> {
    let mut said = Vec::new(alloc);
    for answer in answers {
        made(rt, said.push((answer.value, answer.refuse, answer.alerts)));
    }
    said
}

fn played(rt: &impl Abort, alloc: Global, board: &Board, program: &Program, seed: u64) -> Played
    requires { All (λ i. IsOnBoard (length board.now.targets) i) program.now }
{
    made(rt, play(alloc, board, program, seed))
}

fn played_of(rt: &impl Abort, alloc: Global, board: &Board, program: &str, seed: u64) -> Played {
    match read_program(alloc, board, program) {
        Ok(program) => played(rt, alloc, board, &program, seed),
        Err(fault) => panic!(rt; "{fault:?}"),
    }
}

fn plain_run(rt: &impl Abort, alloc: Global) -> Played {
    let board = ranged_board(rt, alloc);
    let played = played_of(rt, alloc, &board, READING, 0);
    drop(board);
    played
}

#[test]
fn the_plain_run_has_the_first_of_all_choices(rt: HostRuntime) {
    let played = plain_run(&rt, rt.alloc());
    same(&rt, played.pages.as_slice(), [255, 255].as_slice());
    same(&rt, played.protects.as_slice(), [128, 128].as_slice());
    let said = said_of(&rt, rt.alloc(), &played.answers);
    same(&rt, said.as_slice(), READ.as_slice());
    same(&rt, played.answers.iter().all(is_plain), true);
    same(&rt, played.ended, Ending::Finished);
}

/// The answers of a seed on a bus with other controllers, as they are printed.
fn printed(rt: &impl Abort, alloc: Global, seed: u64) -> String {
    let board = shared_board(rt, alloc);
    let played = played_of(rt, alloc, &board, POLLING, seed);
    drop(board);
    made(rt, format!(in alloc; "{:?}", played.answers))
}

#[test]
fn a_seed_always_plays_the_same(rt: HostRuntime) {
    let first = printed(&rt, rt.alloc(), 7);
    let again = printed(&rt, rt.alloc(), 7);
    same(&rt, first.as_str(), again.as_str());
}
