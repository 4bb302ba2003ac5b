//! Runs by their calls. What is printed of whole runs is tried with the cases of
//! `examples/cases`.

ghost use Rattle.std.specs.Prelude.{length, All};
ghost use Rattle.seq_program.specs.Valid.{IsOnBoard};

use super::boards::alert_board;
use super::devices::SlowWriter;
use super::expected::{made, same};
use board::Board;
use seq_program::{Program, program_is_valid, read_program};
use simulator::{
    Ending, Entry, RunFault, Trace, WriteFault, last_line, run, start, step, write_trace,
};
use smbus::Answer;
use std::alloc::{AllocError, Global};
use std::process::Abort;
use std::test::*;

/// The step of the longest wait: its ticks, its runs of samples, and the levels of SCL and SDA in
/// its last sample and behind that.
type Waited = (u64, usize, Option<(bool, bool)>, Option<(bool, bool)>);

fn levels_at(entry: &Entry, place: u64) -> Option<(bool, bool)> {
    let sample = entry.samples.sample_at(place)?;
    Some((sample.scl, sample.sda))
}

/// The first step of a program, in which nothing is said.
fn first_step(rt: &impl Abort, alloc: Global, board: &Board, program: &Program) -> Entry
    requires { All (λ i. IsOnBoard (length board.now.targets) i) program.now }
{
    program_is_valid(program);
    let Ok(machine) = start(alloc, board, &[0, 0], &[0, 0]) else {
        panic!(rt; "no start");
    };
    let answer = Answer::silent(alloc);
    let (_, entry) = made(rt, step(alloc, board, program, &machine, &answer));
    entry
}

fn waited(rt: &impl Abort, alloc: Global, board: &Board) -> Waited {
    let Ok(program) = read_program(alloc, board, "wait 10000000\nend\n") else {
        panic!(rt; "no program");
    };
    let entry = first_step(rt, alloc, board, &program);
    let last = levels_at(&entry, 10_000_000);
    let behind = levels_at(&entry, 10_000_001);
    (entry.ticks, entry.samples.runs().len(), last, behind)
}

#[test]
fn a_wait_is_one_run(rt: HostRuntime) {
    let alloc = rt.alloc();
    let board = alert_board(&rt, alloc);
    let want = (10_000_001, 1, Some((true, true)), None);
    same(&rt, waited(&rt, alloc, &board), want);
}

fn trace_text(rt: &impl Abort, alloc: Global, trace: &Trace) -> String {
    let mut bytes = Vec::new(alloc);
    made(rt, write_trace(alloc, trace, &mut bytes));
    made(rt, String::from_utf8(bytes))
}

/// The run of a program of a board of two targets.
fn trace_of(
    alloc: Global,
    board: &Board,
    program: &Program,
    answers: &[Answer],
) -> Result<Trace, RunFault>
    requires { All (λ i. IsOnBoard (length board.now.targets) i) program.now }
{
    program_is_valid(program);
    let machine = start(alloc, board, &[0, 0], &[0, 0])?;
    run(alloc, board, program, &machine, answers)
}

/// The run of a program for a board whose targets both alert.
fn run_of(
    rt: &impl Abort,
    alloc: Global,
    text: &str,
    answers: &[Answer],
) -> Result<Trace, RunFault> {
    let board = alert_board(rt, alloc);
    let Ok(program) = read_program(alloc, &board, text) else {
        panic!(rt; "no program");
    };
    trace_of(alloc, &board, &program, answers)
}

/// Asks three times who alerts.
const ASKING: &str = "wait 1\nalert r0 else no\nalert r1 else no\nalert r2 else no\nend\nno:\nfail";

/// Both targets begin to alert in the first step, and then each answers as it must: the value, the
/// refused byte and the new alerts.
static ASKED: [(u16, Option<u16>, u16); 5] = [
    (0, None, 3),
    (0x42, None, 0),
    (0x80, None, 0),
    (0, Some(0), 0),
    (0, None, 0),
];

fn answers_of(alloc: Global) -> Result<Vec<Answer>, AllocError> {
    let mut answers = Vec::new(alloc);
    for (value, refuse, alerts) in &ASKED {
        let (value, refuse, alerts) = (*value, *refuse, *alerts);
        answers.push(Answer {
            refuse,
            value,
            alerts,
            ..Answer::silent(alloc)
        })?;
    }
    Ok(answers)
}

#[test]
fn lowest_address_answers_first(rt: HostRuntime) {
    let alloc = rt.alloc();
    let want = "0 2 - -
1 41 S 19A 42N P done 0042
2 41 S 19A 80N P done 0080
3 23 S 19N P nak
5 1 - -
fail ticks 108
";
    let answers = made(&rt, answers_of(alloc));
    let trace = made(&rt, run_of(&rt, alloc, ASKING, &answers));
    same(&rt, trace_text(&rt, alloc, &trace).as_str(), want);
}

/// The run of a program that waits again and again, with so many answers that say nothing.
fn spin(rt: &impl Abort, alloc: Global, count: usize) -> Result<Trace, RunFault> {
    let mut answers = Vec::new(alloc);
    for _ in 0..count {
        made(rt, answers.push(Answer::silent(alloc)));
    }
    run_of(
        rt,
        alloc,
        "spin:\nwait 10000000\ngoto spin\nend\n",
        &answers,
    )
}

#[test]
fn runs_take_two_to_the_fortieth_ticks_at_most(rt: HostRuntime) {
    let alloc = rt.alloc();
    let trace = made(&rt, spin(&rt, alloc, 219_902));
    let text = trace_text(&rt, alloc, &trace);
    drop(trace);
    let end = "\n1 1 - -\nrunning ticks 1099510219902\n";
    same(&rt, text.ends_with(end), true);
    let fault = spin(&rt, alloc, 219_903).err();
    same(&rt, fault, Some(RunFault::TooLong));
}

#[test]
fn faults_of_runs(rt: HostRuntime) {
    let fault = RunFault::AnswerDoesNotFit(1);
    same(&rt, (fault.number(), fault.name()), (2, "AnswerDoesNotFit"));
    same(&rt, fault.index(), Some(1));
    let fault = RunFault::TooLong;
    same(&rt, (fault.number(), fault.name()), (4, "TooLong"));
    same(&rt, fault.index(), None);
}

/// How many bytes a writer takes, and whether it fails then.
static WRITERS: [(usize, bool); 5] = [(0, true), (0, false), (7, true), (7, false), (16, true)];

/// Tries what a writer gets that takes so many bytes.
fn is_written(rt: &impl Abort, alloc: Global, trace: &Trace, calls_left: usize, fails: bool) {
    let text = b"running ticks 0\n".as_slice();
    let mut output = SlowWriter {
        taken: Vec::new(alloc),
        calls_left,
        fails,
    };
    let written = write_trace(alloc, trace, &mut output);
    let want = if calls_left < text.len() {
        Err(WriteFault::Write)
    } else {
        Ok(())
    };
    same(rt, written, want);
    same(rt, Some(output.taken.as_slice()), text.get(..calls_left));
}

#[test]
fn writer_fails_on_the_way(rt: HostRuntime) {
    let alloc = rt.alloc();
    let trace = made(&rt, run_of(&rt, alloc, "end\n", &[]));
    for (calls_left, fails) in &WRITERS {
        is_written(&rt, alloc, &trace, *calls_left, *fails);
    }
}

#[test]
fn the_last_line_of_a_trace(rt: HostRuntime) {
    let line = made(&rt, last_line(rt.alloc(), Ending::Failed, 108));
    same(&rt, line.as_str(), "fail ticks 108\n");
}
