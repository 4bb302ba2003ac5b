//! Answers an input, and says what a person has to mend in it or may have meant otherwise.

ghost use Rattle.std.specs.Prelude.{◌≡◌, ◌≢◌, ℕ, List, IfOk, IfErr, IfSome};
ghost use Rattle.session.specs.Cases.{IsCaseIn};
ghost use Rattle.session.specs.Outcomes.{IsTrue, status_of};
ghost use Rattle.session.specs.Replies.{reply_view};
ghost use Rattle.diagnostics.specs.Told.{AreNotesOf, IsTold};
ghost use Rattle.session.specs.Promises.{GivesUpOnLoopsAlone, IsKeptPromise};
ghost use Rattle.session.specs.Sessions.{IsAnswered, IsCutShort, IsReplyTo};
ghost use Rattle.session.specs.declared.answering.DeviceFault.TheVariants.{Writer};

use crate::Result;
use crate::bound::{Beside, bound_on};
use crate::input::note_on;
use crate::other_errors::{OtherErrors, other_errors_on};
use crate::warning::{Warnings, warnings_on};
use notes::{InFile, Note};
use session::{Case, DeviceFault, Reply, Status, deliver, judge, read_input, reply_of};
use std::alloc::Global;
use std::fmt;
use std::io::{Read, Write};

/// What a person is told of an input, beside the reply.
#[derive(Debug, Drop)]
pub struct Notes {
    /// What to mend first, where it is refused or has a fault.
    pub error: Option<Note>,
    /// What to mend beside, in the other lines of a program.
    pub others: OtherErrors,
    pub warnings: Warnings,
    /// Where the ticks of its bound go, where it is accepted and that is asked for.
    pub bound: Option<Note>,
}

/// Some notes, each on its section.
#[derive(Clone, Copy)]
struct OnSections<'a>(&'a [Note]);

impl fmt::Display for OnSections<'_> {
    fn fmt<W: fmt::Write>(&self, f: &mut fmt::Formatter<W>) -> fmt::Result {
        for note in self.0 {
            let name = &note.section;
            let note = InFile { name, note };
            write!(f, "{note}")?;
        }
        Ok(())
    }
}

/// The notes as standard error has them, each on its section: what to mend, and then what is
/// warned of.
impl fmt::Display for Notes {
    fn fmt<W: fmt::Write>(&self, f: &mut fmt::Formatter<W>) -> fmt::Result {
        let (error, others) = (
            OnSections(self.error.as_slice()),
            OnSections(&self.others.notes),
        );
        let untold = self.others.untold;
        let of_board = OnSections(&self.warnings.of_board);
        let of_program = OnSections(&self.warnings.of_program);
        let of_labels = OnSections(&self.warnings.of_labels);
        let of_run = OnSections(self.warnings.of_run.as_slice());
        let bound = OnSections(self.bound.as_slice());
        write!(
            f,
            "{error}{others}{untold}{of_board}{of_program}{of_labels}{of_run}{bound}"
        )
    }
}

/// What a person is told of an input, by what became of it: what to mend, and what is warned of.
fn notes_on(alloc: Global, case: &Case<'_>, beside: Beside) -> Result<Notes>
    ensures { IfOk result (AreNotesOf beside case.now) }
{
    let error = note_on(alloc, case)?;
    let others = other_errors_on(alloc, case)?;
    let warnings = warnings_on(alloc, case)?;
    let bound = bound_on(alloc, case, beside)?;
    Ok(Notes {
        error,
        others,
        warnings,
        bound,
    })
}

/// What a person is told of an input, and the reply to it.
#[derive(Drop)]
struct Told {
    notes: Notes,
    reply: Reply,
}

/// The reply to a case, beside these notes.
fn with_reply(alloc: Global, case: Case<'_>, notes: Notes) -> Result<Told>
    requires { IsTrue case.outcome }
    ensures notes { IfOk result (λ told. told.notes ≡ notes) }
    ensures whole { IfOk result (λ told. told.reply.status ≢ Status.DeviceFault) }
    ensures status { IfOk result (λ told. told.reply.status ≡ status_of case.entry.outcome) }
    ensures replies { IfOk result (λ told. (input : List ℕ) → IsCaseIn input case.entry
        → IsReplyTo input (reply_view told.reply)) }
{
    match reply_of(alloc, case) {
        Ok(reply) => Ok(Told { notes, reply }),
        Err(error) => {
            // by a call, since the proof has a path for each part that may be there to drop
            drop(notes);
            Err(error)
        }
    }
}

/// What a person is told of a case, and the reply to it.
fn told_of(alloc: Global, case: Case<'_>, beside: Beside) -> Result<Told>
    requires { IsTrue case.outcome }
    ensures notes { IfOk result (λ told. AreNotesOf beside case.entry told.notes) }
    ensures whole { IfOk result (λ told. told.reply.status ≢ Status.DeviceFault) }
    ensures status { IfOk result (λ told. told.reply.status ≡ status_of case.entry.outcome) }
    ensures replies { IfOk result (λ told. (input : List ℕ) → IsCaseIn input case.entry
        → IsReplyTo input (reply_view told.reply)) }
{
    match notes_on(alloc, &case, beside) {
        Ok(notes) => with_reply(alloc, case, notes),
        Err(error) => {
            drop(case);
            Err(error)
        }
    }
}

/// How an input was answered, and what a person is told of it.
#[derive(Drop)]
pub struct Answered {
    pub status: Status,
    pub notes: Notes,
}

/// Answers an input: the whole reply to it is written. Gives the reply's status, and what a person
/// is told on standard error: what to mend, where the input is refused or has a fault, warnings,
/// and of an accepted program where the ticks go, if that is asked for; as `note_on`,
/// `other_errors_on`, `warnings_on` and `bound_on` have them.
///
/// The reply waits for its notes, so that nothing is written where memory is refused. Fails where
/// memory, the reader or the writer does, and tells which.
pub fn answer<R: Read, W: Write>(
    alloc: Global,
    reader: &mut R,
    writer: &mut W,
    beside: Beside,
) -> Result<Answered, DeviceFault>
    ensures answered { IfOk result (λ answered. IfSome (R.remaining reader.old) (λ input.
        IsAnswered input (W.contents writer.old) (W.contents writer.new) answered.status)) }
    // What is accepted is safe.
    ensures accepted { IfOk result (λ answered. IfSome (R.remaining reader.old) (λ input.
        IsKeptPromise input (W.contents writer.old) (W.contents writer.new) answered.status)) }
    // Where each jump of a program leads on, the search doesn't give up.
    ensures gave_up { IfOk result (λ answered. IfSome (R.remaining reader.old) (λ input.
        GivesUpOnLoopsAlone input (W.contents writer.old) (W.contents writer.new))) }
    ensures whole { IfOk result (λ answered. answered.status ≢ Status.DeviceFault) }
    // The status and the notes tell one outcome, which is true of the input.
    ensures told { IfOk result (λ answered. IfSome (R.remaining reader.old) (λ input.
        IsTold input beside answered.status answered.notes)) }
    // Where the writer failed, all was read, and a beginning of the reply was written.
    ensures begun { IfErr result (λ fault. fault ≡ Writer
        → IsCutShort (R.remaining reader.old) (R.remaining reader.new)
        (W.contents writer.old) (W.contents writer.new)) }
    // Where memory or the reader failed, nothing was written.
    ensures silent { IfErr result (λ fault. fault ≢ Writer → writer.new ≡ writer.old) }
{
    let input = read_input(alloc, reader)?;
    let case = judge(alloc, &input)?;
    let Told { notes, reply } = told_of(alloc, case, beside)?;
    match deliver(writer, &reply) {
        Ok(status) => Ok(Answered { status, notes }),
        Err(fault) => {
            drop(notes);
            Err(fault)
        }
    }
}
