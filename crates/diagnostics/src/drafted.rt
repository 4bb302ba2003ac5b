//! Notes on what can't be drafted.

ghost use Rattle.std.specs.Prelude.{IfOk, string_bytes};
ghost use Rattle.diagnostics.specs.DraftPlaces.{IsOnBoard, IsOnDraftFault};
ghost use Rattle.session.specs.Parts.{sections_view};

use crate::Result;
use board::{Board, Place};
use bundles::{Section, form_word};
use facts::Rule;
use notes::Note;
use sentences::Figure::{Command, Count, Entry, Limit};
use sentences::Word::Text;
use sentences::{Advice, Sentence, Word, say};
use session::{DraftFault, Planned, section_of};
use smbus::Form;
use std::alloc::Global;
use text_notes::{plan_note, site_note};

const ALL_TOGETHER: &str =
    "take out one of the `needs`, or of the plan's `order`, through which they wait";

const LOWER: &str =
    "wish a lower voltage in the plan, or set `limit_uv` to the highest voltage that is safe";

const FEWER: &str =
    "pages, voltages and reading PAGE back take instructions: leave wishes out, or bring up a part \
     of the rails by hand";

/// What is said of an entry that is missing.
fn no_entry(board: &Board, target: usize, form: Form, code: u8) -> Advice<'_> {
    let target = Word::target(board, target);
    let entry = Entry(form_word(form), Some(code));
    say![
        "the program would send " (Command(code)) " to " {target}
        ", and no entry of its `allow` permits it with this value"
    ]
    .with_help(say!["if its data sheet allows it, add "(entry)])
}

/// What a rail's voltages are up to, where the plan wishes one over that.
fn over_limit(board: &Board, index: usize) -> Option<Sentence<'_>> {
    let rail = board.rail(index)?;
    let device = board.target(rail.target())?;
    let limit = Limit(rail.limit_uv(), device.exponent());
    Some(say![
        "the voltage that the plan wishes for " {Word::rail(board, index)}
        " is over its limit: it takes up to " (limit)
    ])
}

/// What is said of a voltage that is over its limit.
fn limit_advice(board: &Board, rail: usize) -> Advice<'_> {
    let message = match over_limit(board, rail) {
        Some(message) => message,
        None => say!["a voltage that the plan wishes is over the limit of its rail"],
    };
    message.with_text(LOWER)
}

/// What is said of a program that isn't accepted.
fn not_accepted(place: usize, rule: Rule) -> Advice<'static> {
    say![
        "the program that was drafted is refused at place " (Count(place)) " by "
        {Text(rule.name())}
    ]
    .alone()
}

/// What is said of a fault that is none of the plan's lines.
fn advice_on(board: &Board, fault: DraftFault) -> Advice<'_> {
    match fault {
        DraftFault::BadPlan(fault) =>
            say!["line " (Count(fault.line)) " of the plan is no wish"].alone(),
        DraftFault::Circle(rail) => say![
            "no order can place " {Word::rail(board, rail)}
            ": it waits for rails that wait for one another"
        ]
        .with_text(ALL_TOGETHER),
        DraftFault::NoEntry { target, form, code } => no_entry(board, target, form, code),
        DraftFault::OverLimit(rail) => limit_advice(board, rail),
        DraftFault::TooLong => {
            let message = say!["the program would have over 1024 instructions"];
            message.with_text(FEWER)
        }
        DraftFault::NotAccepted { place, rule } => not_accepted(place, rule),
    }
}

/// The table of a board file that a fault is told on, and its key.
fn site_of(fault: DraftFault) -> (Place, &'static str) {
    match fault {
        DraftFault::Circle(rail) => (Place::Rail(rail), "needs"),
        DraftFault::NoEntry { target, .. } => (Place::Target(target), "allow"),
        DraftFault::OverLimit(rail) => (Place::Rail(rail), "limit_uv"),
        _ => (Place::Target(0), "name"),
    }
}

/// The note on a bundle's board.
fn board_note(
    alloc: Global,
    sections: &[Section<'_>],
    board: &Board,
    fault: DraftFault,
) -> Result<Option<Note>>
    ensures { IfOk result (IsOnBoard (sections_view sections.now)) }
{
    let Some(text) = section_of(alloc, sections, 0)? else {
        return Ok(None);
    };
    let (table, key) = site_of(fault);
    let remark = advice_on(board, fault).told(alloc)?;
    Ok(Some(site_note(alloc, &text, table, key, remark)?))
}

/// The note on why there is no draft.
pub(crate) fn draft_fault_note(
    alloc: Global,
    sections: &[Section<'_>],
    planned: &Planned,
    fault: DraftFault,
) -> Result<Option<Note>>
    ensures { IfOk result
        (IsOnDraftFault (sections_view sections.now) (string_bytes planned.now.plan) fault) }
{
    match fault {
        DraftFault::BadPlan(fault) => {
            Ok(Some(plan_note(alloc, &planned.board, &planned.plan, fault)?))
        }
        _ => board_note(alloc, sections, &planned.board, fault),
    }
}
