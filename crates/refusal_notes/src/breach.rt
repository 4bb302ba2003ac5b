//! Warnings of runs that break a rule.

ghost use Rattle.std.specs.Prelude.{IfOk};
ghost use Rattle.texts.specs.Words.{lines_by_feed};
ghost use Rattle.refusal_notes.specs.Refusals.{IsBreachNote};

use crate::Result;
use crate::cause::Cause;
use crate::detail::instr_cause;
use crate::refusal::{RefusalKind, blaming, page_of};
use board::Board;
use facts::{Row, Rule};
use notes::{Level, Note};
use run_monitor::{Breach, Reached};
use sentences::{Remark, note_in};
use seq_program::{Program, place_line};
use std::alloc::Global;

/// What breaks a rule, in a sentence.
fn sentence_of(rule: Rule) -> &'static str {
    match rule {
        Rule::K1 => "K1: no entry of the target's `allow` permits this",
        Rule::K2 => "K2: this reads at a page, and PAGE is FFh, all pages",
        Rule::K3 => "K3: what WRITE_PROTECT is here forbids this write",
        Rule::K4 => "K4: this commands a voltage over the limit of a rail that it touches",
        Rule::K5 => {
            "K5: this turns on a rail, and a rail that it needs hasn't reported good, or was \
             turned off since"
        }
        Rule::K6 | Rule::K7 | Rule::K8 | Rule::K9 => "the rules aren't kept here",
    }
}

/// What is to blame for a breach.
fn cause_of(
    alloc: Global,
    board: &Board,
    program: &Program,
    breach: Breach,
    row: &Row,
) -> Result<Cause> {
    match program.at(breach.place) {
        Some(instr) => instr_cause(alloc, board, instr, row),
        None => Ok(Cause::none(alloc)),
    }
}

/// What is said of a breach.
fn remark_on(
    alloc: Global,
    board: &Board,
    program: &Program,
    breach: Breach,
    row: &Row,
) -> Result<Remark> {
    let Breach { index, rule, .. } = breach;
    let cause = cause_of(alloc, board, program, breach, row)?;
    let sentence = sentence_of(rule);
    let sentence = format!(in alloc; "{sentence} (answer {index} of the run)")?;
    blaming(alloc, &sentence, RefusalKind::Breaks(rule), cause.blame)
}

/// The warning of a run of a program with this text that breaks a rule, on the line of the step's
/// place. Fails only for want of memory.
pub fn breach_note(
    alloc: Global,
    text: &str,
    board: &Board,
    program: &Program,
    reached: &Reached,
) -> Result<Note>
    ensures { IfOk result (IsBreachNote (lines_by_feed text.now) reached.now.breach.place
        reached.now.breach.rule) }
{
    let Reached { breach, row } = reached;
    let number = place_line(alloc, text, breach.place)?.unwrap_or(1);
    let remark = remark_on(alloc, board, program, *breach, row)?;
    let note = note_in(alloc, Level::Warning, "%program", text, number, remark)?;
    let page = page_of(RefusalKind::Breaks(breach.rule));
    Ok(Note { page, ..note })
}
