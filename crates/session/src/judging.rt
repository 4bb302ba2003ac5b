//! Judges an input: reads its bundle, does what that asks for, and keeps what was found.

ghost use Rattle.std.specs.Prelude.{◌≡◌, ℕ, List, [], Result, IfOk, vec_len, length};
ghost use Rattle.bundles.specs.Bundles.{headers_of};
ghost use Rattle.bundles.specs.Views.{bundle_view, section_view};
ghost use Rattle.session.specs.Cases.{IsCaseIn, IsCaseOf, IsTextCase, text_front};
ghost use Rattle.session.specs.Commands.{bundle_task, check_task, find_task, frame_task, run_task};
ghost use Rattle.session.specs.Commands.{draft_task, play_task, refute_task, verify_task, Task};
ghost use Rattle.session.specs.Intake.{IsFrontOf};
ghost use Rattle.session.specs.Outcomes.{Becomes, IsOutcomeOf, IsTrue};
ghost use Rattle.session.specs.declared.fault.InputFault.{InputFault};
ghost use Rattle.session.specs.declared.outcome.Outcome.TheVariants as outcomes;
ghost use Rattle.session.specs.declared.unread.Unread.TheVariants as unread;

use crate::checking::judge_text;
use crate::drafting::drafted;
use crate::frame::frame_of;
use crate::harming::harm_beside;
use crate::intake::{Input, text_of};
use crate::outcome::{
    Case, Checked, Drafted, Framed, Outcome, Played, Ran, Refuted, Searched, Verified,
};
use crate::planned::planned_in;
use crate::playing::{play_text, seed_of};
use crate::refuting::refute;
use crate::report::Telling;
use crate::scenario::scenario_in;
use crate::searching::{search, verify};
use crate::sequence::sequence_in;
use crate::tracing::{Run, run_of};
use crate::trial::trial_in;
use crate::unread::{Unread, of_bundle};
use bundles::{Bundle, BundleFault, Command, Section, exchange_in, read_bundle};
use std::alloc::{AllocError, Global};
use texts::ReadError;

/// A message and the answer to it.
fn framed<'a>(alloc: Global, message: &Section<'_>) -> Result<Outcome<'a>, ReadError<Unread>>
    ensures { Becomes result (frame_task (section_view message.now)) }
{
    let exchange = exchange_in(alloc, message).map_err(of_bundle)?;
    let told = frame_of(alloc, &exchange.message, &exchange.answer)?;
    Ok(Outcome::Framed(Framed { exchange, told }))
}

/// A run, which is told so.
fn ran<'a>(
    alloc: Global,
    on: &Section<'_>,
    program: &Section<'_>,
    answered: &Section<'a>,
    telling: Telling,
) -> Result<Outcome<'a>, ReadError<Unread>>
    ensures { Becomes result (run_task telling (section_view on.now) (section_view program.now)
        (section_view answered.now)) }
{
    let scenario = scenario_in(alloc, on, program, answered)?;
    let Run { told, stop, found } = run_of(alloc, &scenario, telling)?;
    Ok(Outcome::Ran(Ran {
        scenario,
        telling,
        told,
        stop,
        found,
    }))
}

/// A program with a table of facts.
fn checked<'a>(
    alloc: Global,
    on: &Section<'_>,
    program: &Section<'_>,
    table: &Section<'_>,
) -> Result<Outcome<'a>, ReadError<Unread>>
    ensures { Becomes result (check_task (section_view on.now) (section_view program.now)
        (section_view table.now)) }
{
    let trial = trial_in(alloc, on, program, table)?;
    let judged = judge_text(alloc, &trial)?;
    Ok(Outcome::Checked(Checked { trial, judged }))
}

/// A program whose facts are asked for.
fn searched<'a>(
    alloc: Global,
    on: &Section<'_>,
    program: &Section<'_>,
) -> Result<Outcome<'a>, ReadError<Unread>>
    ensures { Becomes result (find_task (section_view on.now) (section_view program.now)) }
{
    let sequence = sequence_in(alloc, on, program)?;
    let found = search(alloc, &sequence)?;
    Ok(Outcome::Searched(Searched { sequence, found }))
}

/// A program that is to be verified.
fn verified<'a>(
    alloc: Global,
    on: &Section<'_>,
    program: &Section<'_>,
) -> Result<Outcome<'a>, ReadError<Unread>>
    ensures { Becomes result (verify_task (section_view on.now) (section_view program.now)) }
{
    let sequence = sequence_in(alloc, on, program)?;
    let judged = verify(alloc, &sequence)?;
    let shown = harm_beside(alloc, &sequence, &judged)?;
    Ok(Outcome::Verified(Verified {
        sequence,
        judged,
        shown,
    }))
}

/// A program of which a run is played.
fn played<'a>(
    alloc: Global,
    on: &Section<'_>,
    program: &Section<'_>,
    seed: &Section<'_>,
) -> Result<Outcome<'a>, ReadError<Unread>>
    ensures { Becomes result (play_task (section_view on.now) (section_view program.now)
        (section_view seed.now)) }
{
    let sequence = sequence_in(alloc, on, program)?;
    let seed = seed_of(seed)?;
    let text = play_text(alloc, &sequence, seed)?;
    Ok(Outcome::Played(Played {
        sequence,
        seed,
        text,
    }))
}

/// A program for which a run is searched that breaks a rule.
fn refuted<'a>(
    alloc: Global,
    on: &Section<'_>,
    program: &Section<'_>,
) -> Result<Outcome<'a>, ReadError<Unread>>
    ensures { Becomes result (refute_task (section_view on.now) (section_view program.now)) }
{
    let sequence = sequence_in(alloc, on, program)?;
    let found = refute(alloc, &sequence)?;
    Ok(Outcome::Refuted(Refuted { sequence, found }))
}

/// A program that is drafted for a plan.
fn draft<'a>(
    alloc: Global,
    on: &Section<'_>,
    plan: &Section<'_>,
) -> Result<Outcome<'a>, ReadError<Unread>>
    ensures { Becomes result (draft_task (section_view on.now) (section_view plan.now)) }
{
    let planned = planned_in(alloc, on, plan)?;
    let told = drafted(alloc, &planned)?;
    Ok(Outcome::Drafted(Drafted { planned, told }))
}

/// What becomes of a bundle, or why a part of it can't be read. Its sections are read in order.
fn outcome_of<'a>(alloc: Global, bundle: &Bundle<'a>) -> Result<Outcome<'a>, ReadError<Unread>>
    requires { vec_len bundle.now.sections ≡ length (headers_of bundle.now.command) }
    ensures { Becomes result (bundle_task (bundle_view bundle.now)) }
{
    let parts = &bundle.sections;
    match bundle.command {
        Command::Frame => framed(alloc, &parts[0]),
        Command::Run => ran(alloc, &parts[0], &parts[1], &parts[2], Telling::Lines),
        Command::Wave => ran(alloc, &parts[0], &parts[1], &parts[2], Telling::Levels),
        Command::Check => checked(alloc, &parts[0], &parts[1], &parts[2]),
        Command::Find => searched(alloc, &parts[0], &parts[1]),
        Command::Verify => verified(alloc, &parts[0], &parts[1]),
        Command::Play => played(alloc, &parts[0], &parts[1], &parts[2]),
        Command::Refute => refuted(alloc, &parts[0], &parts[1]),
        Command::Draft => draft(alloc, &parts[0], &parts[1]),
    }
}

/// What became of an input, of which nothing is done where a part can't be read.
fn settled<'a>(became: Result<Outcome<'a>, ReadError<Unread>>) -> Result<Outcome<'a>, AllocError>
    ensures { IfOk result (λ outcome. (read : Result Task InputFault) → Becomes became.entry read
        → IsOutcomeOf read outcome) }
{
    match became {
        Ok(outcome) => Ok(outcome),
        Err(ReadError::Fault(unread)) => Ok(Outcome::Unread(unread)),
        Err(ReadError::Memory) => Err(AllocError),
    }
}

/// An input that is no bundle.
fn no_bundle(alloc: Global, text: &str, fault: BundleFault) -> Case<'_>
    ensures text { result.text ≡ text.entry }
    ensures sections { result.sections.items ≡ [] }
    ensures outcome { result.outcome ≡ outcomes.Unread (unread.Bundle fault) }
{
    Case {
        text,
        sections: Vec::new(alloc),
        outcome: Outcome::Unread(Unread::Bundle(fault)),
    }
}

/// What becomes of the text of a bundle.
fn judge_bundle(alloc: Global, text: &str) -> Result<Case<'_>, AllocError>
    ensures { IfOk result (IsTextCase text.now) }
{
    match read_bundle(alloc, text) {
        Ok(bundle) => {
            let outcome = settled(outcome_of(alloc, &bundle))?;
            let sections = bundle.sections;
            Ok(Case {
                text,
                sections,
                outcome,
            })
        }
        Err(ReadError::Fault(fault)) => Ok(no_bundle(alloc, text, fault)),
        Err(ReadError::Memory) => Err(AllocError),
    }
}

/// The longest beginning of some bytes that is text (UTF-8).
pub fn text_front(input: &[u8]) -> &str
    ensures { result.now ≡ text_front input.now }
{
    match input.utf8_chunks().next() {
        Some(chunk) => chunk.valid(),
        None => "",
    }
}

/// What becomes of the bytes that are kept of an input.
fn judge_kept(alloc: Global, input: &Input) -> Result<Case<'_>, AllocError>
    ensures { IfOk result (IsCaseOf input.now.bytes.items input.now.too_large) }
{
    match text_of(input) {
        Ok(text) => judge_bundle(alloc, text),
        Err(fault) => Ok(no_bundle(alloc, text_front(&input.bytes), fault)),
    }
}

/// Judges an input: reads its bundle and the sections of that in order, does what it asks for, and
/// keeps what was read and what was found. Nothing is written. AllocError is answered where a
/// growth was refused.
pub fn judge(alloc: Global, input: &Input) -> Result<Case<'_>, AllocError>
    ensures is_true { IfOk result (λ case. IsTrue case.outcome) }
    ensures is_case { IfOk result (λ case. (all : List ℕ)
        → IsFrontOf input.now.bytes.items input.now.too_large all → IsCaseIn all case) }
{
    judge_kept(alloc, input)
}
