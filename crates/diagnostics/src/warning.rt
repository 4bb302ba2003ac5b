//! Warnings of boards, of accepted programs and of runs.

ghost use Rattle.std.specs.Prelude.{◌≡◌, option_map, IfOk};
ghost use Rattle.diagnostics.specs.LabelWarnings.{WarnsOfLabels};
ghost use Rattle.diagnostics.specs.ProgramWarnings.{WarnsOfJudged};
ghost use Rattle.diagnostics.specs.Warnings.{AreWarningsOf, WarnsOfBoard, WarnsOfBreach, judged_in};
ghost use Rattle.session.specs.Parts.{sections_view};

mod allowed;
mod board_warning;
mod label_warning;
mod program_lint;
mod program_warning;

use crate::Result;
use crate::input::program_text;
use crate::warning::board_warning::board_warnings;
use crate::warning::label_warning::label_warnings;
use crate::warning::program_warning::program_warnings;
use board::Board;
use bundles::Section;
use notes::Note;
use refusal_notes::breach_note;
use run_monitor::Reached;
use seq_program::Program;
use session::{Case, Judged, Outcome, Scenario, Sequence, Trial};
use std::alloc::Global;
use table_check::Judgement;

/// The warning of a run.
fn run_warning(
    alloc: Global,
    sections: &[Section<'_>],
    board: &Board,
    program: &Program,
    found: Option<&Reached>,
) -> Result<Option<Note>>
    ensures { IfOk result (WarnsOfBreach (sections_view sections.now)
        (option_map (λ x. x.now.breach) found.entry)) }
{
    match found {
        Some(reached) => {
            let text = program_text(alloc, sections)?;
            Ok(Some(breach_note(alloc, &text, board, program, reached)?))
        }
        None => Ok(None),
    }
}

/// What is warned of.
#[derive(Debug, Drop)]
pub struct Warnings {
    /// What of a board may be meant otherwise.
    pub of_board: Vec<Note>,
    /// What of an accepted program may be meant otherwise.
    pub of_program: Vec<Note>,
    /// The labels of an accepted program to which no line jumps: the first 20, and how many more.
    pub of_labels: Vec<Note>,
    /// The first step of a run that breaks a rule.
    pub of_run: Option<Note>,
}

impl Warnings {
    ghost use Rattle.diagnostics.specs.Warnings.{WarnsOfNothing};

    /// Nothing is warned of.
    pub fn none(alloc: Global) -> Warnings
        ensures { WarnsOfNothing result }
    {
        Warnings {
            of_board: Vec::new(alloc),
            of_program: Vec::new(alloc),
            of_labels: Vec::new(alloc),
            of_run: None,
        }
    }
}

/// What is warned of a program, if there is a judgement on it.
fn judged_warnings(
    alloc: Global,
    sections: &[Section<'_>],
    board: &Board,
    program: &Program,
    judged: Option<&Judged>,
) -> Result<Vec<Note>>
    ensures { IfOk result (λ warnings. WarnsOfJudged (sections_view sections.now) board.now
        program.now (option_map (λ x. x.now) judged.entry) warnings.items) }
{
    match judged {
        Some(judged) => program_warnings(alloc, sections, board, program, judged),
        None => Ok(Vec::new(alloc)),
    }
}

/// What is warned of a program's labels, if there is a judgement that accepts it.
fn labels_judged(
    alloc: Global,
    sections: &[Section<'_>],
    judged: Option<&Judged>,
) -> Result<Vec<Note>>
    ensures { IfOk result (λ warnings. WarnsOfLabels (sections_view sections.now)
        (option_map (λ x. x.now) judged.entry) warnings.items) }
{
    match judged {
        Some(judged) if matches!(judged.judgement, Judgement::Accepted { .. }) => {
            let text = program_text(alloc, sections)?;
            label_warnings(alloc, &text)
        }
        _ => Ok(Vec::new(alloc)),
    }
}

/// What is warned of a board, a program on it, the judgement on that, and its run, if that breaks a
/// rule first here.
fn warnings_of(
    alloc: Global,
    sections: &[Section<'_>],
    board: &Board,
    program: &Program,
    judged: Option<&Judged>,
    found: Option<&Reached>,
) -> Result<Warnings>
    ensures board { IfOk result (λ warnings. WarnsOfBoard (sections_view sections.now) board.now
        program.now warnings.of_board.items) }
    ensures program { IfOk result (λ warnings. WarnsOfJudged (sections_view sections.now) board.now
        program.now (option_map (λ x. x.now) judged.entry) warnings.of_program.items) }
    ensures labels { IfOk result (λ warnings. WarnsOfLabels (sections_view sections.now)
        (option_map (λ x. x.now) judged.entry) warnings.of_labels.items) }
    ensures run { IfOk result (λ warnings. WarnsOfBreach (sections_view sections.now)
        (option_map (λ x. x.now.breach) found.entry) warnings.of_run) }
{
    let of_board = board_warnings(alloc, sections, board, program)?;
    let of_program = judged_warnings(alloc, sections, board, program, judged)?;
    let of_labels = labels_judged(alloc, sections, judged)?;
    let of_run = run_warning(alloc, sections, board, program, found)?;
    Ok(Warnings {
        of_board,
        of_program,
        of_labels,
        of_run,
    })
}

/// The judgement on a table, if it is one.
fn judged_in(judged: &Result<Judged, usize>) -> Option<&Judged>
    ensures { option_map (λ x. x.now) result ≡ judged_in judged.now }
{
    match judged {
        Ok(judged) => Some(judged),
        Err(_) => None,
    }
}

/// What is warned of an input, by what became of it.
///
/// Of its board: needs that go round in a circle, a rail that no entry of its target can turn on, a
/// limit that no voltage can break, and start values with which a target doesn't take what the
/// program sends it. Each of them has a warning, on a line of the board.
///
/// Of a program that is accepted: `fail` where rails may be on, a rail that may be turned on before
/// a voltage was written to it, and one that may be turned off while another may be on that needs
/// it, and what else `program_lints` finds. Each is on the line of its place, and a comment there
/// allows it: `# allow on-at-fail`. So has each label to which no line jumps, on its own line; the
/// first 20 are told, and the last of these says how many there are more.
///
/// Of a run: the first step that breaks what programs are checked by, a message that no entry
/// allows, a write that is protected, a voltage over its limit, a rail that is turned on before its
/// needs reported good. It is on the line of the step's place. A run ends where an answer doesn't
/// fit. The run of a program that is accepted has no warning.
///
/// Fails only for want of memory.
pub fn warnings_on(alloc: Global, case: &Case<'_>) -> Result<Warnings>
    ensures { IfOk result
        (AreWarningsOf (sections_view case.now.sections.items) case.now.outcome) }
{
    let sections = &case.sections;
    match &case.outcome {
        Outcome::Unread(_) | Outcome::Framed(_) | Outcome::Drafted(_) => Ok(Warnings::none(alloc)),
        Outcome::Ran(ran) => {
            let Scenario { board, program, .. } = &ran.scenario;
            warnings_of(alloc, sections, board, program, None, ran.found.as_ref())
        }
        Outcome::Checked(checked) => {
            let Trial { board, program, .. } = &checked.trial;
            let judged = judged_in(&checked.judged);
            warnings_of(alloc, sections, board, program, judged, None)
        }
        Outcome::Searched(searched) => {
            let Sequence { board, program } = &searched.sequence;
            warnings_of(alloc, sections, board, program, None, None)
        }
        Outcome::Verified(verified) => {
            let Sequence { board, program } = &verified.sequence;
            let judged = judged_in(&verified.judged);
            warnings_of(alloc, sections, board, program, judged, None)
        }
        Outcome::Played(played) => {
            let Sequence { board, program } = &played.sequence;
            warnings_of(alloc, sections, board, program, None, None)
        }
        Outcome::Refuted(refuted) => {
            let Sequence { board, program } = &refuted.sequence;
            warnings_of(alloc, sections, board, program, None, None)
        }
    }
}
