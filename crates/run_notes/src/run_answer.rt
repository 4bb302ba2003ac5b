//! Notes on answers.

ghost use Rattle.std.specs.Prelude.{◌≡◌, codes, IfOk, None, IsSomeAnd};
ghost use Rattle.std.specs.Prelude.{MatchOption};
ghost use Rattle.texts.specs.Words.{lines_by_feed};
ghost use Rattle.run_notes.specs.AnswerPlaces.{run_line};
ghost use Rattle.notes.specs.Notes.{IsOn};

use crate::Result;
use crate::bad_start::bad_start;
use crate::counted::run_line;
use crate::misfit::misfit;
use notes::{Level, Note, line_at};
use sentences::{Remark, note_in};
use seq_program::{message_of, place_line};
use session::{Ran, Scenario, Stop};
use simulator::RunFault;
use std::alloc::Global;
use texts::without_comment;

/// A place of a program in words: `place 4, line 9 of the program: end`.
fn place_text(alloc: Global, program: &str, place: usize) -> Result<String> {
    match place_line(alloc, program, place)? {
        Some(number) => {
            let line = without_comment(line_at(program, number).unwrap_or("")).trim();
            format!(in alloc; "place {place}, line {number} of the program: {line}")
        }
        None => format!(in alloc; "place {place} of the program"),
    }
}

/// What is wrong with an answer that doesn't fit to the step for which it stands.
fn step_misfit(alloc: Global, scenario: &Scenario<'_>, stop: &Stop) -> Result<String> {
    let (board, machine) = (&scenario.board, &stop.machine);
    let Some(instr) = scenario.program.at(machine.place) else {
        return String::from_str(alloc, "no step is left");
    };
    let message = message_of(alloc, board, instr, &machine.regs)?;
    misfit(alloc, board, &machine.bus, message.as_ref(), &stop.answer)
}

/// What is said of an answer that doesn't fit where a run stops.
fn stop_remark(
    alloc: Global,
    scenario: &Scenario<'_>,
    program: &str,
    index: usize,
    stop: &Stop,
) -> Result<Remark> {
    let misfit = step_misfit(alloc, scenario, stop)?;
    let place = place_text(alloc, program, stop.machine.place)?;
    let message = format!(in alloc; "answer {index} doesn't fit: {misfit}")?;
    let help = format!(in alloc; "it answers {place}")?;
    Ok(Remark {
        message,
        help: Some(help),
    })
}

/// What is said of an answer behind the last step.
fn late_remark(alloc: Global, program: &str, index: usize, stop: &Stop) -> Result<Remark> {
    let place = place_text(alloc, program, stop.machine.place)?;
    let message = format!(in alloc; "answer {index} comes after the end of the program")?;
    let help = format!(in alloc; "it ended with the answer above, at {place}")?;
    Ok(Remark {
        message,
        help: Some(help),
    })
}

/// What is said of a fault.
fn remark_on(alloc: Global, ran: &Ran<'_>, program: &str, fault: RunFault) -> Result<Remark> {
    let scenario = &ran.scenario;
    match (fault, &ran.stop) {
        (RunFault::AnswerDoesNotFit(index), Some(stop)) => stop_remark(
            alloc, scenario, program, index, stop,
        ),
        (RunFault::AfterEnd(index), Some(stop)) => late_remark(alloc, program, index, stop),
        (RunFault::BadStart, _) => bad_start(alloc, scenario),
        _ => Ok(Remark::bare(format!(in alloc; "{fault}")?)),
    }
}

/// What a person needs to mend answers that don't fit: the line of the answer with its number, the
/// part that the targets can't answer so, with its numbers, and the instruction that it answers.
/// `None` where the fault has no answer, or the text has no such line.
///
/// The texts are those of the run's program and answers, and the fault is that of the run. Fails
/// only for want of memory.
pub fn answer_note(
    alloc: Global,
    ran: &Ran<'_>,
    program: &str,
    answers: &str,
    fault: RunFault,
) -> Result<Option<Note>>
    ensures { IfOk result (λ note. MatchOption (run_line fault (lines_by_feed answers.now))
        (note ≡ None)
        (λ number. IsSomeAnd note
        (IsOn Level.Error (codes "%answers") number (lines_by_feed answers.now)))) }
{
    let Some(number) = run_line(answers, fault) else {
        return Ok(None);
    };
    let remark = remark_on(alloc, ran, program, fault)?;
    Ok(Some(note_in(alloc, Level::Error, "%answers", answers, number, remark)?))
}
