//! Why a program is refused, or why no facts were found for it.

ghost use Rattle.std.specs.Prelude.{◌≡◌, IfOk, Some};
ghost use Rattle.facts.specs.duties.RuleNames.{rule_name};
ghost use Rattle.refusal_notes.specs.Refusals.{rule_in};
ghost use Rattle.table_check.specs.checker.Breaches.{rule_of};

use crate::Result;
use crate::branch::{push_branches, push_start};
use crate::cause::Cause;
use crate::detail::refusal_cause;
use crate::meeting::meeting_place;
use crate::origin::BadWay;
use crate::refusal::RefusalKind;
use crate::roads::{Judged, Roads};
use crate::route::route_of;
use crate::shown::push_evidence;
use crate::uncounted::uncounted_text;
use crate::way::{loop_through, way_to};
use crate::widened::widened_text;
use breach_search::Shown;
use facts::Rule;
use sentences::Remark;
use seq_program::{Program, place_lines};
use simulator::MOST_TICKS;
use std::alloc::Global;
use table_check::{Refusal, Table};
use ways::{MOST_STEPS, Search, Step, bad_way};

/// The shortest way that leads to a place, unless that is the first.
fn way_note(alloc: Global, judged: Judged<'_>, place: usize) -> Result<Option<String>> {
    match way_to(alloc, Roads::Known(judged), place)? {
        Some(way) if way.len() > 1 => {
            let route = route_of(alloc, judged.lines, &way)?;
            Ok(Some(format!(in alloc; "the shortest way here: {route}")?))
        }
        _ => Ok(None),
    }
}

/// The places of a way.
fn places_of(alloc: Global, way: &[Step]) -> Result<Vec<usize>> {
    way.iter().map(|step| step.place).collect(alloc)
}

/// What happens on a way that its lines don't tell.
fn remarks_on(alloc: Global, judged: Judged<'_>, way: &[Step]) -> Result<String> {
    let mut remarks = String::new(alloc);
    if let Some(start) = way.first() {
        push_start(alloc, &mut remarks, judged.board, &start.row)?;
    }
    push_branches(alloc, &mut remarks, judged, way)?;
    Ok(remarks)
}

/// A way on which a rule may fail, with what happens on it that its lines don't tell, unless it is
/// the first place and nothing else.
fn found_note(alloc: Global, judged: Judged<'_>, way: &[Step]) -> Result<Option<String>> {
    let remarks = remarks_on(alloc, judged, way)?;
    if way.len() == 1 && remarks.is_empty() {
        return Ok(None);
    }
    let places = places_of(alloc, way)?;
    let route = route_of(alloc, judged.lines, &places)?;
    Ok(Some(format!(in alloc; "a way on which it may fail: {route}{remarks}")?))
}

/// That no single way shows that a rule fails at a place.
fn joined_note(
    alloc: Global,
    judged: Judged<'_>,
    place: usize,
    rule: Rule,
) -> Result<Option<String>> {
    let Some(way) = way_to(alloc, Roads::Known(judged), place)? else {
        return Ok(None);
    };
    let Some(place) = meeting_place(alloc, judged, &way, rule)? else {
        return Ok(None);
    };
    let line = judged.line(place);
    Ok(Some(format!(in alloc;
        "no single way shows it: facts of several ways meet at line {line}"
    )?))
}

/// That the search for a way was given up.
fn unknown_note(alloc: Global) -> Result<Option<String>> {
    Ok(Some(format!(in alloc; "no way on which it may fail was found within {MOST_STEPS} steps")?))
}

/// Adds a way on which a rule may fail, and where on it what breaks the rule came in.
fn push_found(
    alloc: Global,
    facts: &mut Vec<String>,
    judged: Judged<'_>,
    way: &[Step],
) -> Result<()> {
    facts.extend(found_note(alloc, judged, way)?)?;
    facts.extend(BadWay { judged, way }.origin(alloc)?)
}

/// Adds a way on which a rule may fail at a place, or that none shows it, and where what breaks the
/// rule came in.
fn push_way(
    alloc: Global,
    facts: &mut Vec<String>,
    judged: Judged<'_>,
    place: usize,
    rule: Rule,
) -> Result<()> {
    let way = match bad_way(alloc, judged.board, judged.program, place, rule)? {
        Search::Found(way) => return push_found(alloc, facts, judged, &way),
        Search::Nowhere => joined_note(alloc, judged, place, rule)?,
        Search::Unknown => unknown_note(alloc)?,
    };
    facts.extend(way)?;
    facts.extend(widened_text(alloc, judged, place)?)
}

/// Adds how the place of a refusal is reached.
fn push_road(
    alloc: Global,
    facts: &mut Vec<String>,
    judged: Judged<'_>,
    refusal: Refusal,
) -> Result<()> {
    let (place, rule) = (refusal.place, refusal.breach.rule());
    match rule {
        Rule::K1 | Rule::K2 | Rule::K3 | Rule::K4 | Rule::K5 => {
            push_way(alloc, facts, judged, place, rule)
        }
        Rule::K6 | Rule::K7 => facts.extend(way_note(alloc, judged, place)?),
        Rule::K8 | Rule::K9 => Ok(()),
    }
}

/// What is to blame for a refusal, and how its place is reached.
fn blame_of(alloc: Global, judged: Judged<'_>, refusal: Refusal) -> Result<Cause> {
    let mut cause = refusal_cause(alloc, judged, refusal)?;
    push_road(alloc, &mut cause.facts, judged, refusal)?;
    Ok(cause)
}

/// Whether what is left at some place is the most that a row may have.
fn is_full(table: &Table) -> bool {
    let mut rows = table.rows.iter().flatten();
    rows.any(|row| row.base == MOST_TICKS || row.coeffs.contains(&MOST_TICKS))
}

/// Why a program isn't verified, for whose ticks no bound was found.
fn unbounded_cause(
    alloc: Global,
    judged: Judged<'_>,
    uncounted: Option<String>,
) -> Result<(RefusalKind, Cause)>
    ensures { IfOk result (λ r. rule_in r.0 ≡ Some (rule_name Rule.K7)) }
{
    let kind = match &uncounted {
        Some(_) => RefusalKind::Uncounted,
        None if is_full(judged.table) => RefusalKind::TooLong,
        None => RefusalKind::Unbounded,
    };
    let cause = Cause::of(alloc, uncounted.map(|text| Remark::bare(text)), None)?;
    Ok((kind, cause))
}

/// What is told of a loop that no counter bounds, beside another refusal.
fn beside(alloc: Global, uncounted: Option<String>) -> Result<Option<String>> {
    match uncounted {
        Some(uncounted) => Ok(Some(format!(in alloc; "beside this, {uncounted}")?)),
        None => Ok(None),
    }
}

/// Why a program is refused with a table that somebody wrote.
pub(crate) fn cause_of(
    alloc: Global,
    judged: Judged<'_>,
    refusal: Refusal,
) -> Result<(RefusalKind, Cause)>
    ensures { IfOk result (λ r. rule_in r.0 ≡ Some (rule_name (rule_of refusal.breach))) }
{
    let cause = blame_of(alloc, judged, refusal)?;
    Ok((RefusalKind::Breaks(refusal.breach.rule()), cause))
}

/// Why a program isn't verified. Nobody wrote the table, so nothing is said of its ticks. The run
/// is the one that shows it, if one was found.
pub(crate) fn unverified_cause(
    alloc: Global,
    judged: Judged<'_>,
    refusal: Refusal,
    shown: Option<&Shown>,
) -> Result<(RefusalKind, Cause)>
    ensures { IfOk result (λ r. rule_in r.0 ≡ Some (rule_name (rule_of refusal.breach))) }
{
    let uncounted = uncounted_text(alloc, judged.program, Roads::Kept(judged), judged.lines)?;
    let rule = refusal.breach.rule();
    if rule == Rule::K7 {
        return unbounded_cause(alloc, judged, uncounted);
    }
    let uncounted = beside(alloc, uncounted)?;
    let mut cause = blame_of(alloc, judged, refusal)?;
    cause.facts.extend(uncounted)?;
    push_evidence(alloc, &mut cause, judged, refusal, shown)?;
    Ok((RefusalKind::Breaks(rule), cause))
}

/// The loop that no counter bounds, or else the shortest one through a place.
fn loop_text(
    alloc: Global,
    program: &Program,
    lines: &[usize],
    place: usize,
) -> Result<Option<String>> {
    let roads = Roads::Written(program);
    let uncounted = uncounted_text(alloc, program, roads, lines)?;
    if uncounted.is_some() {
        return Ok(uncounted);
    }
    match loop_through(alloc, roads, place)? {
        Some(way) => {
            let route = route_of(alloc, lines, &way)?;
            Ok(Some(format!(in alloc; "the shortest loop through it: {route}")?))
        }
        None => Ok(None),
    }
}

/// Which loop has no facts.
pub(crate) fn loop_cause(
    alloc: Global,
    program: &Program,
    text: &str,
    place: usize,
) -> Result<Cause> {
    let lines = place_lines(alloc, text)?;
    let way = loop_text(alloc, program, &lines, place)?;
    Cause::of(alloc, None, way)
}
