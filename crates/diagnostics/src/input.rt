//! Notes on whole inputs.

ghost use Rattle.std.specs.Prelude.{◌≡◌, ◌≢◌, None, IfOk, MatchOption, MatchResult, IsSomeAnd};
ghost use Rattle.std.specs.Prelude.{codes, slice_get, string_bytes};
ghost use Rattle.seq_program.specs.Faults.{line_of};
ghost use Rattle.notes.specs.Notes.{IsOn};
ghost use Rattle.board.specs.declared.fault.FaultKind.TheVariants.{Memory};
ghost use Rattle.session.specs.SectionTexts.{section_text};
ghost use Rattle.session.specs.Parts.{sections_view};
ghost use Rattle.text_notes.specs.Boards.{IsOnSomeLine};
ghost use Rattle.texts.specs.Words.{lines_by_feed};
ghost use Rattle.diagnostics.specs.DraftPlaces.{IsOnDraftFault};
ghost use Rattle.diagnostics.specs.Inputs.{IsOnLine, IsOnUnread, IsOnJudgement, IsErrorOf};
ghost use Rattle.diagnostics.specs.Inputs.{IsOnMessage, IsOnRunFault};
ghost use Rattle.diagnostics.specs.ProgramPlaces.{program_lines, IsOnStop};

use crate::Result;
use crate::bundle::bundle_note;
use crate::drafted::draft_fault_note;
use board::{Board, BoardFault};
use bundles::{Exchange, Section};
use notes::{Level, Note};
use refusal_notes::{Tried, check_note, gave_up_note, verify_note};
use run_notes::{answer_note, frame_note};
use sentences::{note_in, say};
use seq_program::ProgramFault;
use session::{
    Case, Checked, Drafted, Framed, Judged, Outcome, Ran, Searched, Sequence, Trial, Unread,
    Verified, section_of,
};
use simulator::RunFault;
use smbus::SmbusFault;
use std::alloc::Global;
use table_check::Judgement;
use text_notes::{board_note, program_note};

/// The text of a bundle's program, or nothing.
pub(crate) fn program_text(alloc: Global, sections: &[Section<'_>]) -> Result<String>
    ensures { IfOk result (λ text. lines_by_feed (string_bytes text)
        ≡ program_lines (sections_view sections.now)) }
{
    match section_of(alloc, sections, 1)? {
        Some(text) => Ok(text),
        None => Ok(String::new(alloc)),
    }
}

/// The note on the fault of an input's board.
fn board_fault_note(
    alloc: Global,
    sections: &[Section<'_>],
    fault: BoardFault,
) -> Result<Option<Note>>
    ensures { IfOk result (λ note. fault.kind ≢ Memory
        → MatchOption (slice_get (sections_view sections.now) 0) (note ≡ None)
        (λ section. IsOnSomeLine (section_text section) note)) }
{
    match section_of(alloc, sections, 0)? {
        Some(board) => board_note(alloc, &board, fault),
        None => Ok(None),
    }
}

/// The note on the fault of an input's program.
fn program_fault_note(
    alloc: Global,
    sections: &[Section<'_>],
    board: &Board,
    fault: ProgramFault,
) -> Result<Option<Note>>
    ensures { IfOk result (IsOnLine (sections_view sections.now) (line_of fault)) }
{
    let text = program_text(alloc, sections)?;
    program_note(alloc, board, &text, fault)
}

/// The note on an input of which nothing is done.
fn unread_note(
    alloc: Global,
    text: &str,
    sections: &[Section<'_>],
    unread: &Unread,
) -> Result<Option<Note>>
    ensures { IfOk result (IsOnUnread text.now (sections_view sections.now) unread.now) }
{
    match unread {
        Unread::Bundle(fault) => Ok(Some(bundle_note(alloc, text, sections, *fault)?)),
        Unread::Board(fault) => board_fault_note(alloc, sections, *fault),
        Unread::Program(board, fault) => program_fault_note(alloc, sections, board, *fault),
    }
}

/// The note on a table that was judged.
fn verdict_note(
    alloc: Global,
    sections: &[Section<'_>],
    trial: &Trial,
    judged: &Judged,
) -> Result<Option<Note>>
    ensures { IfOk result (IsOnJudgement (sections_view sections.now) judged.now.judgement) }
{
    match judged.judgement {
        Judgement::Accepted { .. } => Ok(None),
        Judgement::Refused(refusal) => {
            let text = program_text(alloc, sections)?;
            let tried = Tried {
                board: &trial.board,
                program: &trial.program,
                table: &judged.table,
            };
            check_note(alloc, &text, tried, refusal)
        }
    }
}

/// The note on a line that is none of a table.
fn table_note(alloc: Global, table: &str, number: usize) -> Result<Note>
    ensures { IfOk result
        (IsOn Level.Error (codes "%table") number (lines_by_feed table.now)) }
{
    let message = say!["no table of this board goes on with this line"];
    let advice = if number == 1 {
        message.with_text("a table that counts lost arbitrations begins with the line `version 2`")
    } else {
        message.alone()
    };
    note_in(
        alloc,
        Level::Error,
        "%table",
        table,
        number,
        advice.told(alloc)?,
    )
}

/// The note on a message that has no frame.
fn message_note(
    alloc: Global,
    sections: &[Section<'_>],
    exchange: &Exchange,
    fault: SmbusFault,
) -> Result<Option<Note>>
    ensures { IfOk result (IsOnMessage (sections_view sections.now)) }
{
    match section_of(alloc, sections, 0)? {
        Some(text) => Ok(Some(frame_note(alloc, &text, exchange, fault)?)),
        None => Ok(None),
    }
}

/// The note on a message and its answer, if they have no frame.
fn framed_note(alloc: Global, sections: &[Section<'_>], framed: &Framed) -> Result<Option<Note>>
    ensures { IfOk result (λ note. MatchResult framed.now.told (λ _. note ≡ None)
        (λ _. IsOnMessage (sections_view sections.now) note)) }
{
    match &framed.told {
        Ok(_) => Ok(None),
        Err(fault) => message_note(alloc, sections, &framed.exchange, *fault),
    }
}

/// The note on the fault of a run.
fn run_note(
    alloc: Global,
    sections: &[Section<'_>],
    ran: &Ran<'_>,
    fault: RunFault,
) -> Result<Option<Note>>
    ensures { IfOk result (IsOnRunFault (sections_view sections.now) fault) }
{
    let Some(answers) = section_of(alloc, sections, 2)? else {
        return Ok(None);
    };
    let program = section_of(alloc, sections, 1)?.unwrap_or(String::new(alloc));
    answer_note(alloc, ran, &program, &answers, fault)
}

/// The note on a run, if it fails.
fn ran_note(alloc: Global, sections: &[Section<'_>], ran: &Ran<'_>) -> Result<Option<Note>>
    ensures { IfOk result (λ note. MatchResult ran.now.told (λ _. note ≡ None)
        (λ fault. IsOnRunFault (sections_view sections.now) fault note)) }
{
    match &ran.told {
        Ok(_) => Ok(None),
        Err(fault) => run_note(alloc, sections, ran, *fault),
    }
}

/// The note on a program with a table, if that is refused or is none.
fn checked_note(alloc: Global, sections: &[Section<'_>], checked: &Checked) -> Result<Option<Note>>
    ensures { IfOk result (λ note. MatchResult checked.now.judged
        (λ judged. IsOnJudgement (sections_view sections.now) judged.judgement note)
        (λ number. IsSomeAnd note (IsOn Level.Error (codes "%table") number
        (lines_by_feed (string_bytes checked.now.trial.table))))) }
{
    let Checked { trial, judged } = checked;
    match judged {
        Ok(judged) => verdict_note(alloc, sections, trial, judged),
        Err(number) => Ok(Some(table_note(alloc, &trial.table, *number)?)),
    }
}

/// The note on a place at which the search gave up.
fn stopped_note(
    alloc: Global,
    sections: &[Section<'_>],
    sequence: &Sequence,
    place: usize,
) -> Result<Option<Note>>
    ensures { IfOk result (IsOnStop (sections_view sections.now) place) }
{
    let text = program_text(alloc, sections)?;
    gave_up_note(alloc, &text, &sequence.program, place)
}

/// The note on a program whose facts were searched for, if the search gave up.
fn searched_note(
    alloc: Global,
    sections: &[Section<'_>],
    searched: &Searched,
) -> Result<Option<Note>>
    ensures { IfOk result (λ note. MatchResult searched.now.found (λ _. note ≡ None)
        (λ place. IsOnStop (sections_view sections.now) place note)) }
{
    match &searched.found {
        Ok(_) => Ok(None),
        Err(place) => stopped_note(alloc, sections, &searched.sequence, *place),
    }
}

/// A program with the facts that were found for it.
pub(crate) fn found_on<'a>(sequence: &'a Sequence, judged: &'a Judged) -> Tried<'a> {
    Tried {
        board: &sequence.board,
        program: &sequence.program,
        table: &judged.table,
    }
}

/// The note on a program that was to be verified, with the judgement on the facts that were found.
fn found_note(
    alloc: Global,
    sections: &[Section<'_>],
    verified: &Verified,
    judged: &Judged,
) -> Result<Option<Note>>
    ensures { IfOk result (IsOnJudgement (sections_view sections.now) judged.now.judgement) }
{
    match judged.judgement {
        Judgement::Accepted { .. } => Ok(None),
        Judgement::Refused(refusal) => {
            let text = program_text(alloc, sections)?;
            let tried = found_on(&verified.sequence, judged);
            verify_note(alloc, &text, tried, verified.shown.as_ref(), refusal)
        }
    }
}

/// The note on a program that was to be verified, if it is refused.
fn verified_note(
    alloc: Global,
    sections: &[Section<'_>],
    verified: &Verified,
) -> Result<Option<Note>>
    ensures { IfOk result (λ note. MatchResult verified.now.judged
        (λ judged. IsOnJudgement (sections_view sections.now) judged.judgement note)
        (λ place. IsOnStop (sections_view sections.now) place note)) }
{
    match &verified.judged {
        Ok(judged) => found_note(alloc, sections, verified, judged),
        Err(place) => stopped_note(alloc, sections, &verified.sequence, *place),
    }
}

/// The note on a plan, if there is no draft for it.
fn drafted_note(alloc: Global, sections: &[Section<'_>], drafted: &Drafted) -> Result<Option<Note>>
    ensures { IfOk result (λ note. MatchResult drafted.now.told (λ _. note ≡ None)
        (λ fault. IsOnDraftFault (sections_view sections.now)
        (string_bytes drafted.now.planned.plan) fault note)) }
{
    match &drafted.told {
        Ok(_) => Ok(None),
        Err(fault) => draft_fault_note(alloc, sections, &drafted.planned, *fault),
    }
}

/// What a person needs to mend an input, by what became of it: a note on the fault of its bundle,
/// its board, its program or its answers, or on the place at which its program is refused. `None`
/// where what was asked for was done and accepted.
///
/// It is for standard error, beside the reply of the same outcome, and has no say in that. Fails
/// only for want of memory.
pub fn note_on(alloc: Global, case: &Case<'_>) -> Result<Option<Note>>
    ensures { IfOk result (IsErrorOf case.now.text.now (sections_view case.now.sections.items)
        case.now.outcome) }
{
    let sections = &case.sections;
    match &case.outcome {
        Outcome::Unread(unread) => unread_note(alloc, case.text, sections, unread),
        Outcome::Framed(framed) => framed_note(alloc, sections, framed),
        Outcome::Ran(ran) => ran_note(alloc, sections, ran),
        Outcome::Checked(checked) => checked_note(alloc, sections, checked),
        Outcome::Searched(searched) => searched_note(alloc, sections, searched),
        Outcome::Verified(verified) => verified_note(alloc, sections, verified),
        Outcome::Played(_) => Ok(None),
        Outcome::Refuted(_) => Ok(None),
        Outcome::Drafted(drafted) => drafted_note(alloc, sections, drafted),
    }
}
