//! A run that shows the harm of a program that is refused.

ghost use Rattle.std.specs.Prelude.{length, All, IfOk, IfSome};
ghost use Rattle.breach_search.specs.Harms.{IsHarm};
ghost use Rattle.seq_program.specs.Valid.{IsOnBoard};
ghost use Rattle.session.specs.Outcomes.{IsRunOfHarm, IsShown};

use crate::outcome::Judged;
use crate::sequence::Sequence;
use breach_search::{Harm, Shown, find_breach};
use facts::Rule;
use seq_program::program_is_valid;
use simulator::{Machine, RunFault, Trace, run, start};
use std::alloc::{AllocError, Global};
use table_check::Verdict;

/// The most states that are kept beside a refusal, where nobody asked for a run: a search over them
/// takes some tens of milliseconds, and a poll of a thousand turns has some five thousand.
const FEW_STATES: usize = 6_000;

/// The place of a refusal by a rule that a run may break, if it is refused by one.
fn harmful_place(judged: &Result<Judged, usize>) -> Option<usize> {
    let Ok(judged) = judged else {
        return None;
    };
    match judged.judgement.verdict() {
        Verdict::Refused {
            place,
            rule: Rule::K1 | Rule::K2 | Rule::K3 | Rule::K4 | Rule::K5,
        } => Some(place),
        _ => None,
    }
}

/// The run of a program as far as it breaks a rule.
fn trace_of(alloc: Global, sequence: &Sequence, harm: &Harm) -> Result<Trace, RunFault>
    requires { All (λ i. IsOnBoard (length sequence.now.board.targets) i) sequence.now.program }
    ensures { IfOk result
        (λ trace. IsRunOfHarm sequence.now.board sequence.now.program harm.now trace) }
{
    let (board, program) = (&sequence.board, &sequence.program);
    program_is_valid(program);
    let machine: Machine = start(alloc, board, &harm.pages, &harm.protects)?;
    run(alloc, board, program, &machine, &harm.answers)
}

/// A run that breaks a rule, with its steps.
fn shown(alloc: Global, sequence: &Sequence, harm: Harm) -> Result<Option<Shown>, AllocError>
    requires on_board { All (λ i. IsOnBoard (length sequence.now.board.targets) i)
        sequence.now.program }
    requires harm { IsHarm sequence.now.board sequence.now.program harm }
    ensures { IfOk result
        (λ found. IfSome found (IsShown sequence.now.board sequence.now.program)) }
{
    match trace_of(alloc, sequence, &harm) {
        Ok(trace) => Ok(Some(Shown { harm, trace })),
        Err(RunFault::Memory) => Err(AllocError),
        Err(_) => Ok(None),
    }
}

/// A run in which a program breaks a rule, with its steps, where one of K1 to K5 refuses it and a
/// short search finds one.
pub(crate) fn harm_beside(
    alloc: Global,
    sequence: &Sequence,
    judged: &Result<Judged, usize>,
) -> Result<Option<Shown>, AllocError>
    requires { All (λ i. IsOnBoard (length sequence.now.board.targets) i) sequence.now.program }
    ensures { IfOk result
        (λ found. IfSome found (IsShown sequence.now.board sequence.now.program)) }
{
    let Some(place) = harmful_place(judged) else {
        return Ok(None);
    };
    match find_breach(alloc, &sequence.board, &sequence.program, place, FEW_STATES)? {
        Some(harm) => shown(alloc, sequence, harm),
        None => Ok(None),
    }
}
