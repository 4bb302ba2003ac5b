//! Calls that are made again where they answered Memory. With ample memory each answers at once;
//! `bench/calls` runs these tests with the first allocation refused, then with the second, and so
//! on.

ghost use Rattle.std.specs.Prelude.{length, All, IfOk};
ghost use Rattle.seq_program.specs.Valid.{IsOnBoard};

use super::boards::{alert_board, shared_board, two_board};
use super::expected::{found, made, same};
use board::{Board, BoardFault, FaultKind};
use bundles::answer_line_of;
use fact_search::{FindFault, find};
use seq_program::{Program, ProgramFault, program_is_valid, read_program};
use simulator::{RunFault, Trace, run, start};
use smbus::{Answer, Frame, ObserveFault, Observer, frame_text};
use std::alloc::{AllocError, Global};
use std::process::Abort;
use std::test::*;
use table_check::{Table, TableFault, Verdict, check, read_table};
use texts::ReadError;
use wires::{Event, Runs, Sample};

/// A call, made again where its answer was that memory was refused.
macro_rules! again {
    ($call:expr, $refused:pat) => {
        match $call {
            Err($refused) => $call,
            answered => answered,
        }
    };
}

fn board_again(rt: &impl Abort, alloc: Global) -> Box<Board> {
    let board = again!(
        two_board(alloc),
        BoardFault {
            kind: FaultKind::Memory,
            ..
        }
    );
    boxed(rt, alloc, made(rt, board))
}

/// A board on the heap, which is proved more cheaply than all its parts.
fn boxed(rt: &impl Abort, alloc: Global, board: Board) -> Box<Board> {
    match Box::new(alloc, board) {
        Ok(board) => board,
        Err(refused) => made(rt, Box::new(alloc, refused.value)),
    }
}

#[test]
fn a_board_is_read_again(rt: HostRuntime) {
    let board = board_again(&rt, rt.alloc());
    same(&rt, (board.targets().len(), board.rails().len()), (2, 2));
    drop(board);
}

fn program_again(alloc: Global, board: &Board, text: &str) -> Result<Program, ProgramFault>
    ensures { IfOk result (λ p. All (λ i. IsOnBoard (length board.now.targets) i) p) }
{
    again!(read_program(alloc, board, text), ProgramFault::Memory)
}

/// The bound that a table is accepted with.
fn bound_again(
    rt: &impl Abort,
    alloc: Global,
    board: &Board,
    program: &Program,
    table: &Table,
) -> Option<u64> {
    match made(rt, again!(check(alloc, board, program, table), AllocError)) {
        Verdict::Accepted { bound } => Some(bound),
        _ => None,
    }
}

/// Asks at most eleven times whether a rail is good.
const POLL: &str = "write a OPERATION 0x80 else bad\ncount c0 10\npoll:\n\
    read a STATUS_WORD r0 else next\nif r0 0x0840 0x0000 good\nnext:\nwait 1000\nagain c0 poll\n\
    fail\ngood:\nwrite b OPERATION 0x80 else bad\nend\nbad:\nfail";

/// The bound with the table that is found for a program.
fn searched_again(rt: &impl Abort, alloc: Global, board: &Board, program: &Program) -> Option<u64> {
    let table = made(rt, again!(find(alloc, board, program), FindFault::Memory));
    let bound = bound_again(rt, alloc, board, program, &table);
    drop(table);
    bound
}

#[test]
fn a_table_is_found_again(rt: HostRuntime) {
    let board = board_again(&rt, rt.alloc());
    let program = made(&rt, program_again(rt.alloc(), &board, POLL));
    let bound = searched_again(&rt, rt.alloc(), &board, &program);
    drop((board, program));
    let bound = found(&rt, bound);
    same(&rt, 12_694 <= bound && bound <= 20_000, true);
}

const SPIN: &str = "count c0 3\nspin:\nwait 10\nagain c0 spin\nend\n";

/// What each row of SPIN's table has before its counter c0, and between that and its ticks.
static COMMON: [&str; 2] = [
    "page a 00\npage b 00\nprotect a 00\nprotect b 00\ngood\nreg r0 0 0 none\nreg r1 0 0 none\n\
     reg r2 0 0 none\nreg r3 0 0 none\nreg r4 0 0 none\nreg r5 0 0 none\nreg r6 0 0 none\n\
     reg r7 0 0 none\n",
    "counter c1 0 0\ncounter c2 0 0\ncounter c3 0 0\n",
];

/// The most of c0 and the ticks of each of its rows.
static ROWS: [(u16, &str); 4] = [
    (0, "50 0 0 0 0"),
    (3, "13 12 0 0 0"),
    (3, "2 12 0 0 0"),
    (3, "1 0 0 0 0"),
];

fn spin_text(alloc: Global) -> Result<String, AllocError> {
    let [head, tail] = COMMON;
    let mut text = String::new(alloc);
    for (place, (most, ticks)) in ROWS.iter().enumerate() {
        write!(
            text,
            "row {place}\n{head}counter c0 0 {most}\n{tail}ticks {ticks}\n"
        )?;
    }
    Ok(text)
}

/// The bound of a program with the table of SPIN.
fn judged_again(rt: &impl Abort, alloc: Global, board: &Board, program: &Program) -> Option<u64> {
    let text = made(rt, again!(spin_text(alloc), AllocError));
    let table = again!(read_table(alloc, board, &text), TableFault::Memory);
    let table = made(rt, table);
    let bound = bound_again(rt, alloc, board, program, &table);
    drop(table);
    bound
}

#[test]
fn a_table_is_checked_again(rt: HostRuntime) {
    let board = board_again(&rt, rt.alloc());
    let program = made(&rt, program_again(rt.alloc(), &board, SPIN));
    let bound = judged_again(&rt, rt.alloc(), &board, &program);
    drop((board, program));
    same(&rt, bound, Some(50));
}

/// The run of a program of a board of two targets.
fn trace_of(
    alloc: Global,
    board: &Board,
    program: &Program,
    answers: &[Answer],
) -> Result<Trace, RunFault>
    requires { All (λ i. IsOnBoard (length board.now.targets) i) program.now }
{
    program_is_valid(program);
    let machine = start(alloc, board, &[0, 0], &[0, 0])?;
    run(alloc, board, program, &machine, answers)
}

/// How many steps the run of a program takes, and how many ticks.
fn run_again(
    rt: &impl Abort,
    alloc: Global,
    board: &Board,
    program: &Program,
    answers: &[Answer],
) -> (usize, u64)
    requires { All (λ i. IsOnBoard (length board.now.targets) i) program.now }
{
    let trace = again!(trace_of(alloc, board, program, answers), RunFault::Memory);
    let trace = made(rt, trace);
    let mut ticks = 0u64;
    for entry in &trace.entries {
        ticks = ticks.saturating_add(entry.ticks);
    }
    (trace.entries.len(), ticks)
}

/// The same of a text.
fn text_run_again(
    rt: &impl Abort,
    alloc: Global,
    board: &Board,
    text: &str,
    answers: &[Answer],
) -> (usize, u64) {
    match program_again(alloc, board, text) {
        Ok(program) => run_again(rt, alloc, board, &program, answers),
        Err(fault) => panic!(rt; "{fault:?}"),
    }
}

/// The answers of some lines.
fn answers_of(alloc: Global, lines: &[&str]) -> Result<Vec<Answer>, AllocError> {
    let mut answers = Vec::new(alloc);
    for line in lines {
        match answer_line_of(alloc, 1, line) {
            Ok(answer) => answers.push(answer)?,
            Err(ReadError::Memory) => return Err(AllocError),
            Err(ReadError::Fault(_)) => return Ok(answers),
        }
    }
    Ok(answers)
}

/// Asks three times who alerts.
const ASKING: &str = "wait 1\nalert r0 else no\nalert r1 else no\nalert r2 else no\nend\nno:\nfail";

/// Both targets begin to alert in the first step, and then each answers as it must.
static ASKED: [&str; 5] = ["alerts=3", "value=42", "value=80", "refuse=0", "-"];

#[test]
fn a_program_is_run_again(rt: HostRuntime) {
    let alloc = rt.alloc();
    let board = again!(
        alert_board(alloc),
        BoardFault {
            kind: FaultKind::Memory,
            ..
        }
    );
    let board = boxed(&rt, alloc, made(&rt, board));
    let answers = made(&rt, again!(answers_of(alloc, &ASKED), AllocError));
    let counts = text_run_again(&rt, alloc, &board, ASKING, &answers);
    drop((board, answers));
    same(&rt, counts, (5, 108));
}

const WRITING: &str = "write a OPERATION 0x80 else bad\nend\nbad:\nfail";

/// The first message is lost to a controller that wins over a message to 0x40.
static LOST: [&str; 2] = ["contender=21:55 cholds=3:2", "-"];

#[test]
fn a_message_is_lost_again(rt: HostRuntime) {
    let alloc = rt.alloc();
    let board = again!(
        shared_board(alloc),
        BoardFault {
            kind: FaultKind::Memory,
            ..
        }
    );
    let board = boxed(&rt, alloc, made(&rt, board));
    let answers = made(&rt, again!(answers_of(alloc, &LOST), AllocError));
    let counts = text_run_again(&rt, alloc, &board, WRITING, &answers);
    drop((board, answers));
    same(&rt, counts, (2, 44));
}

/// Pushes samples, again where that was refused, which changes nothing.
fn push_again(rt: &impl Abort, samples: &mut Runs, sample: Sample, count: u64) {
    let before = (samples.total(), samples.runs().len());
    assert!(rt; before.0 < 1000 && count < 1000);
    if samples.push(sample, count).is_err() {
        assert!(rt; (samples.total(), samples.runs().len()) == before);
        made(rt, samples.push(sample, count));
    }
}

/// A sample with SMBALERT# high.
fn lines(scl: bool, sda: bool) -> Sample {
    Sample {
        scl,
        sda,
        alert: true,
    }
}

#[test]
fn samples_are_pushed_again(rt: HostRuntime) {
    let mut samples = Runs::new(rt.alloc());
    push_again(&rt, &mut samples, lines(true, true), 2);
    for _ in 0..4 {
        push_again(&rt, &mut samples, lines(false, true), 3);
        push_again(&rt, &mut samples, lines(false, false), 4);
    }
    same(&rt, (samples.total(), samples.runs().len()), (30, 9));
}

/// Feeds a piece, again where that was refused, which changes nothing.
fn feed_again(
    rt: &impl Abort,
    observer: &mut Observer,
    piece: &[Event],
) -> Result<Vec<Frame>, ObserveFault> {
    let before = (observer.fed(), observer.finish());
    assert!(rt; before.0 < 1000 && piece.len() < 1000);
    match observer.feed(piece) {
        Err(ObserveFault::Memory) => {
            assert!(rt; (observer.fed(), observer.finish()) == before);
            observer.feed(piece)
        }
        frames => frames,
    }
}

/// Adds the clocks of a byte and of its acknowledge.
fn push_byte(events: &mut Vec<Event>, byte: u8, is_acknowledged: bool) -> Result<(), AllocError> {
    for bit in [0x80, 0x40, 0x20, 0x10, 0x08, 0x04, 0x02, 0x01] {
        events.push(Event::Rise(byte & bit != 0))?;
    }
    events.push(Event::Rise(!is_acknowledged))?;
    Ok(())
}

/// A Read Word of STATUS_WORD that returns 0840h: what comes before each byte, the byte, and
/// whether it is acknowledged.
static WORD: [(&[Event], u8, bool); 5] = [
    (&[Event::Start], 0x80, true),
    (&[], 0x79, true),
    (&[Event::Rise(true), Event::Start], 0x81, true),
    (&[], 0x40, true),
    (&[], 0x08, false),
];

fn word_events(alloc: Global) -> Result<Vec<Event>, AllocError> {
    let mut events = Vec::new(alloc);
    for (before, byte, is_acknowledged) in &WORD {
        events.extend_from_slice(before)?;
        push_byte(&mut events, *byte, *is_acknowledged)?;
    }
    events.extend_from_slice(&[Event::Rise(false), Event::Stop])?;
    Ok(events)
}

/// The frames of events that are fed in two pieces.
fn frames_again(rt: &impl Abort, alloc: Global, events: &[Event]) -> Vec<Frame> {
    let (first, later) = events.split_at(events.len() / 2);
    let mut observer = Observer::new(alloc);
    let frames = made(rt, feed_again(rt, &mut observer, first));
    same(rt, frames.len(), 0);
    made(rt, feed_again(rt, &mut observer, later))
}

#[test]
fn events_are_fed_again(rt: HostRuntime) {
    let alloc = rt.alloc();
    let events = made(&rt, again!(word_events(alloc), AllocError));
    let frames = frames_again(&rt, alloc, &events);
    let frame = found(&rt, frames.first());
    let text = made(&rt, again!(frame_text(alloc, frame), AllocError));
    same(&rt, text.as_str(), "S 80A 79A Sr 81A 40A 08N P");
}
