//! What happened on a way that its lines don't tell.

use crate::Result;
use crate::happened::{Happened, count, push_times};
use crate::kept::{KEPT, kept_values, may_keep};
use crate::roads::Judged;
use board::{Board, Target};
use facts::Row;
use sentences::Figure::Count;
use sentences::Word::Text;
use sentences::{Kept, Sentence, Word, say};
use seq_program::Instr;
use std::alloc::Global;
use ways::Step;

/// So many branches at most are told, the last ones.
const MOST_TOLD: usize = 4;

/// What an instruction came to, where that matters.
#[derive(Clone, Copy, PartialEq, Eq)]
enum Branch {
    /// Its message isn't done.
    NotDone,
    /// Its counter is used up.
    UsedUp(usize),
    /// Its test holds, or doesn't, and both lead to the next place.
    Tested(bool),
}

/// What an instruction came to, of whose edges the way took one.
fn branch_of(instr: &Instr, place: usize, to: usize, edge: usize, edges: usize) -> Option<Branch> {
    if instr.otherwise().is_some() {
        return if edge == 1 {
            Some(Branch::NotDone)
        } else {
            None
        };
    }
    match instr {
        Instr::Again { counter, jump } => {
            if to == *jump {
                None
            } else {
                Some(Branch::UsedUp(counter.index()))
            }
        }
        Instr::If { jump, .. } | Instr::Above { jump, .. } => {
            // The jump is the first edge, where it may be taken.
            let is_told = *jump != place.saturating_add(1) || edges < 2;
            if is_told {
                None
            } else {
                Some(Branch::Tested(edge == 0))
            }
        }
        _ => None,
    }
}

/// What the instruction of a step's place came to, which led to the next step.
fn branch_at(judged: Judged<'_>, step: &Step, next: &Step) -> Option<Branch> {
    let instr = judged.program.at(step.place)?;
    branch_of(instr, step.place, next.place, next.edge, next.edges)
}

/// The branches of a way that its lines don't tell, in the order in which they are first taken.
fn branches_of(alloc: Global, judged: Judged<'_>, way: &[Step]) -> Result<Vec<Happened<Branch>>> {
    let mut taken = Vec::new(alloc);
    for (step, next) in way.iter().zip(way.iter().skip(1)) {
        if let Some(branch) = branch_at(judged, step, next) {
            count(&mut taken, step.place, branch)?;
        }
    }
    Ok(taken)
}

/// A branch in words.
fn branch_sentence(judged: Judged<'_>, taken: &Happened<Branch>) -> Sentence<'static> {
    let line = Count(judged.line(taken.place));
    match taken.what {
        Branch::NotDone => say!["; line " (line) ": not done"],
        Branch::UsedUp(counter) => { say!["; line " (line) ": c" (Count(counter)) " is used up"] }
        Branch::Tested(true) => say!["; line " (line) ": the test holds"],
        Branch::Tested(false) => say!["; line " (line) ": the test doesn't hold"],
    }
}

/// The last branches of a way that its lines don't tell.
pub(crate) fn push_branches(
    alloc: Global,
    text: &mut String,
    judged: Judged<'_>,
    way: &[Step],
) -> Result<()> {
    let taken = branches_of(alloc, judged, way)?;
    let first = taken.len().saturating_sub(MOST_TOLD);
    for taken in taken.iter().skip(first) {
        text.push_str(&branch_sentence(judged, taken).told(alloc)?)?;
        push_times(text, taken.times)?;
    }
    Ok(())
}

/// How what a target keeps starts, where it may start in several ways and one is known.
fn kept_start<'a>(
    board: &'a Board,
    row: &'a Row,
    kept: Kept,
    index: usize,
    target: &Target,
) -> Option<Sentence<'a>> {
    let starts = kept.starts(target);
    let known = starts
        .iter()
        .filter(|value| may_keep(row, kept, index, **value))
        .count();
    if starts.len() < 2 || known != 1 {
        return None;
    }
    let (command, name) = (Text(kept.command()), Word::target(board, index));
    Some(say!["; " {command} " of " {name} " is " {kept_values(row, kept, index)?} " at the start"])
}

/// Adds the start of what a target keeps, if it is to be told.
fn push_kept(
    alloc: Global,
    text: &mut String,
    board: &Board,
    row: &Row,
    (index, target): (usize, &Target),
) -> Result<()> {
    for kept in KEPT {
        if let Some(sentence) = kept_start(board, row, kept, index, target) {
            text.push_str(&sentence.told(alloc)?)?;
        }
    }
    Ok(())
}

/// Adds the start at a row of those registers that may start in several ways, where one is known.
pub(crate) fn push_start(alloc: Global, text: &mut String, board: &Board, row: &Row) -> Result<()> {
    for target in board.targets().iter().enumerate() {
        push_kept(alloc, text, board, row, target)?;
    }
    Ok(())
}
