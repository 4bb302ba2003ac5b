//! Where the ticks of an accepted program's bound go.

ghost use Rattle.std.specs.Prelude.{IfOk};
ghost use Rattle.diagnostics.specs.Bounds.{IsBoundOf, IsBoundOfJudgement};
ghost use Rattle.session.specs.Parts.{sections_view};

use crate::Result;
use crate::input::{found_on, program_text};
use bundles::Section;
use notes::Note;
use refusal_notes::bound_note;
use session::{Case, Judged, Outcome, Sequence};
use std::alloc::Global;
use table_check::Judgement;

/// What is told beside a verdict.
#[derive(Clone, Copy, Debug, PartialEq, Eq)]
pub enum Beside {
    Nothing,
    /// Where the ticks of the bound go.
    Bound,
}

/// The note on a judgement of facts that were found.
fn judgement_note(
    alloc: Global,
    sections: &[Section<'_>],
    sequence: &Sequence,
    judged: &Judged,
) -> Result<Option<Note>>
    ensures { IfOk result
        (IsBoundOfJudgement (sections_view sections.now) judged.now.judgement) }
{
    let Judgement::Accepted { bound } = judged.judgement else {
        return Ok(None);
    };
    let text = program_text(alloc, sections)?;
    bound_note(alloc, &text, found_on(sequence, judged), bound)
}

/// Where the ticks of the bound go of a program that was verified, if that is asked for: the
/// dearest way, loop by loop, on the line of its first instruction. Fails only for want of memory.
pub fn bound_on(alloc: Global, case: &Case<'_>, beside: Beside) -> Result<Option<Note>>
    ensures { IfOk result
        (IsBoundOf beside (sections_view case.now.sections.items) case.now.outcome) }
{
    match (beside, &case.outcome) {
        (Beside::Bound, Outcome::Verified(verified)) => match &verified.judged {
            Ok(judged) => judgement_note(alloc, &case.sections, &verified.sequence, judged),
            Err(_) => Ok(None),
        },
        _ => Ok(None),
    }
}
