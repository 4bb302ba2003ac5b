//! A run that shows the harm of a refused program, in words.

use crate::Result;
use crate::cause::Cause;
use crate::happened::{Happened, count, push_times};
use crate::roads::Judged;
use board::Board;
use breach_search::Shown;
use facts::Rule;
use sentences::Figure::{Count, Hex};
use sentences::Word::Text;
use sentences::{Kept, Sentence, Word, say, told};
use seq_program::Program;
use simulator::Entry;
use smbus::Answer;
use std::alloc::Global;
use table_check::Refusal;
use targets::Outcome;

const NONE_FOUND: &str =
    "no run was found that does this; the board's ranges or the facts may be too wide";

/// So many things that happened are told at most.
const MOST_TOLD: usize = 8;

/// What happened in a step that matters.
#[derive(Clone, Copy, PartialEq, Eq)]
enum Happening {
    /// This was read.
    Read(u16),
    /// A byte wasn't acknowledged, and the write took effect or not.
    NotAcknowledged(bool),
    /// The clock was held too long, and the write took effect or not.
    TimedOut(bool),
    /// Another controller won.
    Lost,
    /// Targets began to alert, by their bits.
    Alerted(u16),
}

/// Whether the instruction at a place reads into a register.
fn reads(program: &Program, place: usize) -> bool {
    let Some(instr) = program.at(place) else {
        return false;
    };
    match instr.request() {
        Some(request) => request.transaction.register.is_some(),
        None => instr.otherwise().is_some(),
    }
}

/// How a step's message ended, if that matters.
fn ended(program: &Program, entry: &Entry, answer: &Answer) -> Option<Happening> {
    match entry.outcome? {
        Outcome::Done(value) if reads(program, entry.place) => Some(Happening::Read(value)),
        Outcome::Done(_) => None,
        Outcome::NotAcknowledged => Some(Happening::NotAcknowledged(answer.took)),
        Outcome::TimedOut => Some(Happening::TimedOut(answer.took)),
        Outcome::Lost => Some(Happening::Lost),
    }
}

/// Adds what happened in a step.
fn add_step(
    all: &mut Vec<Happened<Happening>>,
    program: &Program,
    entry: &Entry,
    answer: &Answer,
) -> Result<()> {
    if let Some(what) = ended(program, entry, answer) {
        count(all, entry.place, what)?;
    }
    match answer.alerts {
        0 => Ok(()),
        alerts => count(all, entry.place, Happening::Alerted(alerts)),
    }
}

/// What happened in a run before its last step, in the order in which it did first.
fn happenings(alloc: Global, program: &Program, shown: &Shown) -> Result<Vec<Happened<Happening>>> {
    let steps = shown.trace.entries.len().saturating_sub(1);
    let mut all = Vec::new(alloc);
    for (entry, answer) in shown
        .trace
        .entries
        .iter()
        .zip(&shown.harm.answers)
        .take(steps)
    {
        add_step(&mut all, program, entry, answer)?;
    }
    Ok(all)
}

/// What took effect all the same, if it did.
fn took_word(took: bool) -> &'static str {
    if took { ", and it takes effect" } else { "" }
}

/// What happened at a place, in words.
fn sentence_of<'a>(judged: Judged<'a>, happened: &Happened<Happening>) -> Sentence<'a> {
    let line = Count(judged.line(happened.place));
    let target = match judged
        .program
        .at(happened.place)
        .and_then(|instr| instr.request())
    {
        Some(request) => Word::target(judged.board, request.target),
        None => Text("the bus"),
    };
    match happened.what {
        Happening::Read(value) => {
            say!["  line " (line) ": " {target} " answers " (Hex(value, 4))]
        }
        Happening::NotAcknowledged(took) => say![
            "  line " (line) ": " {target} " doesn't acknowledge" {Text(took_word(took))}
        ],
        Happening::TimedOut(took) => say![
            "  line " (line) ": SCL is held low too long" {Text(took_word(took))}
        ],
        Happening::Lost => say!["  line " (line) ": another controller wins"],
        Happening::Alerted(alerts) => say![
            "  line " (line) ": targets begin to alert, alerts=" (Hex(alerts, 1))
        ],
    }
}

/// A line with what happened at a place, and how often.
fn line_of(alloc: Global, judged: Judged<'_>, happened: &Happened<Happening>) -> Result<String> {
    let mut text = sentence_of(judged, happened).told(alloc)?;
    push_times(&mut text, happened.times)?;
    Ok(text)
}

/// With what a target's register starts in a run, if it may start with several values.
fn start_of<'a>(board: &'a Board, shown: &Shown, kept: Kept, index: usize) -> Option<Sentence<'a>> {
    let value = match kept {
        Kept::Page => shown.harm.pages.get(index)?,
        Kept::Protect => shown.harm.protects.get(index)?,
    };
    if kept.starts(board.target(index)?).len() < 2 {
        return None;
    }
    let (command, name) = (Text(kept.command()), Word::target(board, index));
    Some(say!["  " {command} " of " {name} " starts as " (Hex(u16::from(*value), 2))])
}

/// How the targets of a run start, a line each, where they may start in several ways.
fn starts_of(alloc: Global, board: &Board, shown: &Shown) -> Result<Vec<String>> {
    let mut facts = Vec::new(alloc);
    for index in 0..board.targets().len() {
        let page = start_of(board, shown, Kept::Page, index);
        let protect = start_of(board, shown, Kept::Protect, index);
        facts.extend(told(alloc, page)?)?;
        facts.extend(told(alloc, protect)?)?;
    }
    Ok(facts)
}

/// The steps of a run that matter, a line each.
fn steps_of(alloc: Global, judged: Judged<'_>, shown: &Shown) -> Result<Vec<String>> {
    let mut facts = starts_of(alloc, judged.board, shown)?;
    let all = happenings(alloc, judged.program, shown)?;
    for happened in all.iter().take(MOST_TOLD) {
        facts.push(line_of(alloc, judged, happened)?)?;
    }
    let left = all.len().saturating_sub(MOST_TOLD);
    if left > 0 {
        facts.push(format!(in alloc; "  and {left} more")?)?;
    }
    Ok(facts)
}

/// What a run shows of a refusal: that rule, or another one, or the same at another place.
fn head_of(alloc: Global, judged: Judged<'_>, refusal: Refusal, shown: &Shown) -> Result<String> {
    let breach = shown.harm.breach;
    if breach.place == refusal.place && breach.rule == refusal.breach.rule() {
        return String::from_str(alloc, "a run does this");
    }
    let (line, rule) = (judged.line(breach.place), breach.rule.name());
    format!(in alloc; "a run breaks {rule} at line {line}")
}

/// What is told of a run that shows the harm, a line each.
fn shown_lines(
    alloc: Global,
    judged: Judged<'_>,
    refusal: Refusal,
    shown: &Shown,
) -> Result<Vec<String>> {
    let mut head = head_of(alloc, judged, refusal, shown)?;
    let steps = steps_of(alloc, judged, shown)?;
    head.push_str(if steps.is_empty() {
        "; on the way every message is done"
    } else {
        ":"
    })?;
    let mut facts = vec![in alloc; head]?;
    for step in steps {
        facts.push(step)?;
    }
    Ok(facts)
}

/// Adds what a search for a run came to, where the rule is one that runs break.
pub(crate) fn push_evidence(
    alloc: Global,
    cause: &mut Cause,
    judged: Judged<'_>,
    refusal: Refusal,
    shown: Option<&Shown>,
) -> Result<()> {
    match (shown, refusal.breach.rule()) {
        (Some(shown), _) => {
            cause
                .facts
                .extend(shown_lines(alloc, judged, refusal, shown)?)?;
            cause
                .helps
                .push(String::from_str(alloc, "pmseq refute prints it")?)?;
            Ok(())
        }
        (None, Rule::K1 | Rule::K2 | Rule::K3 | Rule::K4 | Rule::K5) => {
            cause.facts.push(String::from_str(alloc, NONE_FOUND)?)?;
            Ok(())
        }
        _ => Ok(()),
    }
}
