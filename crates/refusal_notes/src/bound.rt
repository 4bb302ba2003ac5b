//! Where the ticks of an accepted program's bound go.

ghost use Rattle.std.specs.Prelude.{◌≡◌, ◌++◌, IfOk, OnOk, string_bytes};
ghost use Rattle.texts.specs.Words.{lines_by_feed};
ghost use Rattle.refusal_notes.specs.Bounds.{IsBoundNote, bound_text, tenths_text, time_text};

mod dearest;

use crate::Result;
use crate::bound::dearest::{Dearest, Turns, dearest_way};
use crate::roads::{Judged, Tried};
use notes::{Level, Note};
use sentences::{Remark, note_in};
use seq_program::{place_line, place_lines};
use std::alloc::Global;

/// Adds a number of tenths with its unit.
fn push_tenths(text: &mut String, tenths: u64, unit: &str) -> Result<()>
    ensures { OnOk result
        (string_bytes text.new ≡ string_bytes text.old ++ tenths_text tenths unit.now) }
{
    let (whole, tenth) = (tenths / 10, tenths % 10);
    write!(text, "{whole}.{tenth} {unit}")
}

/// Adds ticks in milliseconds, or in seconds where they are many; few as they are.
fn push_time(text: &mut String, ticks: u64) -> Result<()>
    ensures { OnOk result (string_bytes text.new ≡ string_bytes text.old ++ time_text ticks) }
{
    match ticks {
        1 => text.push_str("1 tick"),
        0..20 => write!(text, "{ticks} ticks"),
        20..2_000_000 => push_tenths(text, ticks / 20, "ms"),
        _ => push_tenths(text, ticks / 20_000, "s"),
    }
}

/// Turns of a loop in words.
fn turns_text(alloc: Global, judged: Judged<'_>, turns: &Turns) -> Result<String> {
    let (first, last) = (judged.line(turns.first), judged.line(turns.last));
    let times = turns.times;
    let mut text = String::new(alloc);
    for _ in 0..turns.depth {
        text.push_str("in each turn, ")?;
    }
    write!(text, "lines {first} to {last}, {times} times: ")?;
    push_time(&mut text, turns.ticks)?;
    Ok(text)
}

/// What the loops that stand in no other take.
fn ticks_in_loops(turns: &[Turns]) -> u64 {
    let outer = turns.iter().filter(|turns| turns.depth == 0);
    outer.fold(0, |ticks, turns| ticks.saturating_add(turns.ticks))
}

/// Adds what a bound has beyond a way.
fn push_beyond(alloc: Global, facts: &mut Vec<String>, ticks: u64) -> Result<()> {
    if ticks == 0 {
        return Ok(());
    }
    let mut text = String::from_str(alloc, "the bound has room beyond it: ")?;
    push_time(&mut text, ticks)?;
    facts.push(text)?;
    Ok(())
}

/// The dearest way that was found, loop by loop, and how much the bound has beyond it.
fn facts_on(
    alloc: Global,
    judged: Judged<'_>,
    dearest: &Dearest,
    bound: u64,
) -> Result<Vec<String>> {
    let mut facts = Vec::new(alloc);
    for turns in &dearest.turns {
        facts.push(turns_text(alloc, judged, turns)?)?;
    }
    let mut rest = String::from_str(alloc, "all else on the dearest way: ")?;
    push_time(
        &mut rest,
        dearest.ticks.saturating_sub(ticks_in_loops(&dearest.turns)),
    )?;
    facts.push(rest)?;
    push_beyond(alloc, &mut facts, bound.saturating_sub(dearest.ticks))?;
    Ok(facts)
}

/// What is said of a bound.
fn bound_text(alloc: Global, bound: u64) -> Result<String>
    ensures { IfOk result (λ text. string_bytes text ≡ bound_text bound) }
{
    let mut text = String::from_str(alloc, "every run ends within ")?;
    if bound >= 20 {
        write!(text, "{bound} ticks, ")?;
    }
    push_time(&mut text, bound)?;
    Ok(text)
}

/// What is told of the dearest way, if one was found.
fn way_facts(alloc: Global, judged: Judged<'_>, bound: u64) -> Result<Vec<String>> {
    match dearest_way(alloc, judged)? {
        Some(dearest) => facts_on(alloc, judged, &dearest, bound),
        None => Ok(Vec::new(alloc)),
    }
}

/// Where the ticks of the bound go of a program with this text that is accepted with the facts that
/// were found for it: the dearest way, loop by loop, on the line of its first instruction. Fails
/// only for want of memory.
pub fn bound_note(alloc: Global, text: &str, tried: Tried<'_>, bound: u64) -> Result<Option<Note>>
    ensures { IfOk result (IsBoundNote (lines_by_feed text.now) bound) }
{
    let Some(number) = place_line(alloc, text, 0)? else {
        return Ok(None);
    };
    let lines = place_lines(alloc, text)?;
    let judged = Judged::of(tried, &lines);
    let remark = Remark::bare(bound_text(alloc, bound)?);
    let note = note_in(alloc, Level::Info, "%program", text, number, remark)?;
    let facts = way_facts(alloc, judged, bound)?;
    Ok(Some(Note { facts, ..note }))
}
