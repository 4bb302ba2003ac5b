//! Notes on programs that are refused.

ghost use Rattle.std.specs.Prelude.{◌≡◌, IfOk, None, Some, option_copied};
ghost use Rattle.facts.specs.duties.RuleNames.{rule_name};
ghost use Rattle.table_check.specs.checker.Breaches.{rule_of};
ghost use Rattle.texts.specs.Words.{lines_by_feed};
ghost use Rattle.refusal_notes.specs.Refusals.{IsRefusalNote, rule_in};

use crate::Result;
use crate::cause::Cause;
use crate::reason::{cause_of, loop_cause, unverified_cause};
use crate::roads::{Judged, Tried};
use breach_search::Shown;
use facts::Rule;
use notes::{Level, Note};
use sentences::Remark;
use seq_program::{Program, place_line, place_lines};
use std::alloc::Global;
use table_check::Refusal;

/// Why a program isn't accepted.
#[derive(Clone, Copy, Debug, PartialEq, Eq)]
pub enum RefusalKind {
    /// A rule fails at the place.
    Breaks(Rule),
    /// The search found no facts for a loop through the place.
    GaveUp,
    /// Of facts that were found: nothing bounds the ticks of a loop.
    Uncounted,
    /// The bound of those is over 2^40 ticks.
    TooLong,
    /// No bound was found for their ticks.
    Unbounded,
}

/// What fails, in a sentence.
fn message_of(kind: RefusalKind) -> &'static str {
    match kind {
        RefusalKind::Breaks(Rule::K1) => {
            "K1: the target may not take this: no entry of its `allow` permits it with every value \
             that it may carry here"
        }
        RefusalKind::Breaks(Rule::K2) => {
            "K2: this reads at a page, and PAGE may be FFh here, all pages"
        }
        RefusalKind::Breaks(Rule::K3) => {
            "K3: WRITE_PROTECT may have a value here that forbids this write"
        }
        RefusalKind::Breaks(Rule::K4) => {
            "K4: this may command a voltage over the limit of a rail that it may touch"
        }
        RefusalKind::Breaks(Rule::K5) => {
            "K5: this may turn on a rail while a rail that it needs isn't known to be good"
        }
        RefusalKind::Breaks(Rule::K6) => {
            "K6: this leads to a place whose row says more than is known there"
        }
        RefusalKind::Breaks(Rule::K7) => {
            "K7: this may take more ticks than the rows leave from here to where it leads"
        }
        RefusalKind::Breaks(Rule::K8) =>
            "K8: the row of place 0 doesn't hold every start of the board",
        RefusalKind::Breaks(Rule::K9) => {
            "K9: the table doesn't belong to this program on this board"
        }
        RefusalKind::GaveUp => "no facts are found: no counter bounds a loop through this line",
        RefusalKind::Uncounted => "K7: nothing bounds the ticks from here on",
        RefusalKind::TooLong => "K7: the bound would be over 2^40 ticks, 63 days",
        RefusalKind::Unbounded => "K7: no bound was found for the ticks from here on",
    }
}

/// What may mend it, where there is something to say.
fn help_on(kind: RefusalKind) -> Option<&'static str> {
    match kind {
        RefusalKind::Breaks(Rule::K1) => {
            Some("send what an entry permits, or, if the data sheet allows it, add an entry")
        }
        RefusalKind::Breaks(Rule::K2) => Some("write the page that is meant before this line"),
        RefusalKind::Breaks(Rule::K3) => Some(
            "write a value to WRITE_PROTECT before that permits this; where that write wasn't \
             done, leave by its `else` label, or read it back and test the register",
        ),
        RefusalKind::Breaks(Rule::K4) => Some(
            "a voltage is its mantissa times two to the target's exponent; all pages count that \
             PAGE may have here: where a write of PAGE wasn't done, leave by its `else` label",
        ),
        RefusalKind::Breaks(Rule::K5) => Some(
            "read STATUS_WORD of the rails that it needs, each at its page, and come here only \
             behind `if rN 0x0840 0x0000 LABEL`",
        ),
        RefusalKind::TooLong => Some("count fewer turns, or wait less in them"),
        RefusalKind::GaveUp | RefusalKind::Uncounted | RefusalKind::Unbounded => Some(
            "count the turns of each loop through it: `count c0 N` before it, `again c0 LABEL` in \
             it; when they are used up, the line below `again` comes next",
        ),
        RefusalKind::Breaks(Rule::K7) => Some(
            "of a row's `ticks`, the first are left in any case, the next four for each turn left \
             of c0 to c3, and a sixth for each arbitration that may still be lost; `find` makes a \
             table anew",
        ),
        RefusalKind::Breaks(Rule::K6 | Rule::K8) => Some(
            "in a row, values stand side by side, as in `page a 00 01`; `find` makes a table anew",
        ),
        RefusalKind::Breaks(Rule::K9) => Some("`find` makes a table anew"),
    }
}

/// What is said of a refusal, and what is to blame for it, if that is known.
pub(crate) fn blaming(
    alloc: Global,
    sentence: &str,
    kind: RefusalKind,
    blame: Option<Remark>,
) -> Result<Remark> {
    let (message, help) = match blame {
        Some(Remark { message, help }) => (format!(in alloc; "{sentence}: {message}")?, help),
        None => (String::from_str(alloc, sentence)?, None),
    };
    let help = match (help, help_on(kind)) {
        (None, Some(help)) => Some(String::from_str(alloc, help)?),
        (help, _) => help,
    };
    Ok(Remark { message, help })
}

/// The page of the rule that is broken.
pub(crate) fn page_of(kind: RefusalKind) -> Option<&'static str>
    ensures { option_copied result ≡ rule_in kind }
{
    match kind {
        RefusalKind::Breaks(rule) => Some(rule.name()),
        RefusalKind::Uncounted | RefusalKind::TooLong | RefusalKind::Unbounded => {
            Some(Rule::K7.name())
        }
        RefusalKind::GaveUp => None,
    }
}

/// The note on a refusal, with what is to blame for it.
fn detailed_note(
    alloc: Global,
    text: &str,
    place: usize,
    kind: RefusalKind,
    cause: Cause,
) -> Result<Option<Note>>
    ensures { IfOk result (IsRefusalNote (lines_by_feed text.now) place (rule_in kind)) }
{
    let Some(number) = place_line(alloc, text, place)? else {
        return Ok(None);
    };
    let Cause {
        blame,
        facts,
        mut helps,
    } = cause;
    let Remark { message, help } = blaming(alloc, message_of(kind), kind, blame)?;
    helps.extend(help)?;
    let note = Note::on(alloc, Level::Error, "%program", text, number)?;
    let page = page_of(kind);
    Ok(Some(Note {
        message,
        facts,
        helps,
        page,
        ..note
    }))
}

/// What a person needs to mend a program that is refused at a place: the place's line with its
/// number, the rule in a sentence and by its name, and what may help. `None` where the text has no
/// such place. Fails only for want of memory.
pub fn refusal_note(
    alloc: Global,
    text: &str,
    place: usize,
    kind: RefusalKind,
) -> Result<Option<Note>>
    ensures { IfOk result (IsRefusalNote (lines_by_feed text.now) place (rule_in kind)) }
{
    detailed_note(alloc, text, place, kind, Cause::none(alloc))
}

/// The same for a program with this text that is refused with a table that was read: with what is
/// to blame, what is known there, and a way on which the rule may fail. Fails only for want of
/// memory.
pub fn check_note(
    alloc: Global,
    text: &str,
    tried: Tried<'_>,
    refusal: Refusal,
) -> Result<Option<Note>>
    ensures { IfOk result (IsRefusalNote (lines_by_feed text.now) refusal.place
        (Some (rule_name (rule_of refusal.breach)))) }
{
    let lines = place_lines(alloc, text)?;
    let (kind, cause) = cause_of(alloc, Judged::of(tried, &lines), refusal)?;
    detailed_note(alloc, text, refusal.place, kind, cause)
}

/// The same for a program that was to be verified, with the facts that were found for it and what
/// a search for a run that breaks a rule came to. Nobody wrote the table, so nothing is said of its
/// ticks. Fails only for want of memory.
pub fn verify_note(
    alloc: Global,
    text: &str,
    tried: Tried<'_>,
    shown: Option<&Shown>,
    refusal: Refusal,
) -> Result<Option<Note>>
    ensures { IfOk result (IsRefusalNote (lines_by_feed text.now) refusal.place
        (Some (rule_name (rule_of refusal.breach)))) }
{
    let lines = place_lines(alloc, text)?;
    let (kind, cause) = unverified_cause(alloc, Judged::of(tried, &lines), refusal, shown)?;
    detailed_note(alloc, text, refusal.place, kind, cause)
}

/// What a person needs to mend a program at whose place the search for facts gave up: the loop that
/// no counter bounds, or else the shortest one through the place. Fails only for want of memory.
pub fn gave_up_note(
    alloc: Global,
    text: &str,
    program: &Program,
    place: usize,
) -> Result<Option<Note>>
    ensures { IfOk result (IsRefusalNote (lines_by_feed text.now) place None) }
{
    let cause = loop_cause(alloc, program, text, place)?;
    detailed_note(alloc, text, place, RefusalKind::GaveUp, cause)
}
