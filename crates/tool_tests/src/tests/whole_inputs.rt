//! What a whole input is answered beside its reply, where no case has it: how many notes there are,
//! inputs of 16 MiB, and what was read of an input that is run.

use super::boards::two_text;
use super::expected::{found, made, same, says};
use bundles::Section;
use diagnostics::{Answered, Beside, Untold, answer};
use facts::Rule;
use run_monitor::Breach;
use session::{Input, Outcome, Ran, Status, judge, outcome_line, section_of};
use smbus::{Answer, Form, Message};
use std::alloc::Global;
use std::process::Abort;
use std::test::*;

fn answered(rt: &impl Abort, alloc: Global, input: &[u8], beside: Beside) -> Answered {
    let mut reader = input;
    let mut output = Vec::new(alloc);
    made(rt, answer(alloc, &mut reader, &mut output, beside))
}

/// Whether there is a note on what to mend, how many warnings of the board, and whether one of the
/// run.
type Told = (Status, bool, usize, bool);

fn told_of(answered: &Answered) -> Told {
    let notes = &answered.notes;
    let warnings = &notes.warnings;
    (
        answered.status,
        notes.error.is_some(),
        warnings.of_board.len(),
        warnings.of_run.is_some(),
    )
}

fn tells(rt: &impl Abort, alloc: Global, input: &[u8], want: Told) {
    let answered = answered(rt, alloc, input, Beside::Nothing);
    let told = told_of(&answered);
    drop(answered);
    same(rt, told, want);
}

const FAULT: Told = (Status::InputFault, true, 0, false);

/// No commands: nothing, no text, and a section without its command.
#[test]
fn faults_are_told(rt: HostRuntime) {
    tells(&rt, rt.alloc(), b"", FAULT);
    tells(&rt, rt.alloc(), b"%run\n\xff", FAULT);
    tells(&rt, rt.alloc(), b"%board\n", FAULT);
}

/// What a program is answered that is to be verified.
fn verified(rt: &impl Abort, alloc: Global, program: &str, beside: Beside) -> Answered {
    let board = made(rt, two_text(alloc, ""));
    let input = made(
        rt,
        format!(in alloc; "%verify\n%board\n{board}%program\n{program}"),
    );
    answered(rt, alloc, input.as_bytes(), beside)
}

/// A program of so many lines of an unknown word: how many have a note beside the first, and how
/// many are only counted.
fn others_of(rt: &impl Abort, alloc: Global, count: usize) -> (usize, Untold) {
    let lines = made(rt, "goo\n".repeat(alloc, count));
    let answered = verified(rt, alloc, &lines, Beside::Nothing);
    let others = &answered.notes.others;
    let counts = (others.notes.len(), others.untold);
    drop(answered);
    counts
}

/// Twenty lines are told in all, the first of them with the reply.
#[test]
fn other_lines_are_told(rt: HostRuntime) {
    same(&rt, others_of(&rt, rt.alloc(), 1), (0, Untold(0)));
    same(&rt, others_of(&rt, rt.alloc(), 20), (19, Untold(0)));
    same(&rt, others_of(&rt, rt.alloc(), 23), (19, Untold(3)));
}

/// So many blank lines, which are no bundle.
fn blank_tells(rt: &impl Abort, alloc: Global, count: usize, want: Told) {
    let text = made(rt, "\n".repeat(alloc, count));
    tells(rt, alloc, text.as_bytes(), want);
}

/// However long an input is, its fault is told.
#[test]
fn long_inputs_have_notes(rt: HostRuntime) {
    blank_tells(&rt, rt.alloc(), 1 << 24, FAULT);
    blank_tells(&rt, rt.alloc(), (1 << 24) + 1, FAULT);
}

/// Bytes as an input.
fn input_of(rt: &impl Abort, alloc: Global, bytes: &[u8]) -> Input {
    let bytes = made(rt, bytes.to_vec(alloc));
    Input {
        bytes,
        too_large: false,
    }
}

/// Tries how far an input is text.
fn front_is(rt: &impl Abort, alloc: Global, bytes: &[u8], want: &str) {
    let input = input_of(rt, alloc, bytes);
    let case = made(rt, judge(alloc, &input));
    same(rt, case.text, want);
    drop(case);
}

#[test]
fn what_stands_before_a_byte_that_is_no_text(rt: HostRuntime) {
    front_is(&rt, rt.alloc(), b"gr\xFCn", "gr");
    front_is(&rt, rt.alloc(), "gr\u{FC}n".as_bytes(), "gr\u{FC}n");
}

/// Tries how a Read Word that returns 0840h ends.
fn ends(rt: &impl Abort, alloc: Global, refuse: Option<u16>, cut: Option<usize>, want: &str) {
    let message = Message {
        address: 0x40,
        form: Form::ReadWord,
        code: 0x79,
        out: Vec::new(alloc),
    };
    let answer = Answer {
        refuse,
        value: 0x0840,
        ..Answer::silent(alloc)
    };
    says(rt, outcome_line(alloc, &message, &answer, cut), want);
}

#[test]
fn outcomes(rt: HostRuntime) {
    ends(&rt, rt.alloc(), None, None, "done 0840");
    ends(&rt, rt.alloc(), Some(2), None, "nak");
    ends(&rt, rt.alloc(), Some(2), Some(9), "timeout");
}

const BUNDLE: &str = "%check\n%board\n# none\n%program\nend\n\nfail\n%table\n";

/// Tries the text of a section and the number of its first line, and that there are three.
fn are_three(rt: &impl Abort, alloc: Global, sections: &[Section<'_>], want: (&str, usize)) {
    let text = found(rt, made(rt, section_of(alloc, sections, 1)));
    let program = found(rt, sections.get(1));
    same(rt, (text.as_str(), program.first_line), want);
    let past = made(rt, section_of(alloc, sections, 3));
    same(rt, past.as_deref(), None);
}

#[test]
fn sections(rt: HostRuntime) {
    let input = input_of(&rt, rt.alloc(), BUNDLE.as_bytes());
    let case = made(&rt, judge(rt.alloc(), &input));
    are_three(&rt, rt.alloc(), &case.sections, ("end\n\nfail\n", 5));
    // by a call, since the proof has a path for each part that may be there to drop
    drop(case);
}

/// The second rail needs the first, which wasn't turned on.
const EARLY: &str = "wait 1\nwrite b OPERATION 0x80 else bad\nend\nbad:\nfail\n";

/// The answers to it, whether its run comes to the last of them, and what it breaks first: a read's
/// value doesn't fit a write.
static FOUND: [(&str, (bool, Option<Breach>)); 3] = [
    ("-\n-\n", (true, Some(K5))),
    ("-\nvalue=7\n", (false, Some(K5))),
    ("-\n", (true, None)),
];

const K5: Breach = Breach {
    index: 1,
    place: 1,
    rule: Rule::K5,
};

/// Whether a run comes to its last answer, and what it breaks first.
fn run_of(ran: &Ran<'_>) -> (bool, Option<Breach>) {
    let breach = match &ran.found {
        Some(found) => Some(found.breach),
        None => None,
    };
    (ran.told.is_ok(), breach)
}

/// The same of a bundle that is run.
fn run_in(rt: &impl Abort, alloc: Global, text: &str) -> Option<(bool, Option<Breach>)> {
    let input = input_of(rt, alloc, text.as_bytes());
    let case = made(rt, judge(alloc, &input));
    let run = match &case.outcome {
        Outcome::Ran(ran) => Some(run_of(ran)),
        _ => None,
    };
    drop(case);
    run
}

/// A bundle of EARLY with answers.
fn early_text(rt: &impl Abort, alloc: Global, answers: &str) -> String {
    let run = format!(in alloc; "%program\n{EARLY}%answers\nstart 00,00 00,00\n{answers}");
    let run = made(rt, run);
    let board = made(rt, two_text(alloc, ""));
    made(rt, format!(in alloc; "%run\n%board\n{board}{run}"))
}

#[test]
fn breaches(rt: HostRuntime) {
    for (answers, want) in &FOUND {
        let text = early_text(&rt, rt.alloc(), answers);
        let run = run_in(&rt, rt.alloc(), &text);
        same(&rt, (*answers, run), (*answers, Some(*want)));
    }
}
