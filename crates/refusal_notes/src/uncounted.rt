//! Loops that no counter bounds.

use crate::Result;
use crate::roads::Roads;
use crate::route::route_of;
use crate::way::way_between;
use seq_program::{Instr, Program};
use std::alloc::Global;

/// The counter that an instruction counts down, where it leads to a place.
fn counted_down(instr: &Instr, to: usize) -> Option<usize> {
    match instr {
        Instr::Again { counter, jump } if *jump == to => Some(counter.index()),
        _ => None,
    }
}

/// The counter that an instruction sets.
fn counter_set(instr: &Instr) -> Option<usize> {
    match instr {
        Instr::Count { counter, .. } => Some(counter.index()),
        _ => None,
    }
}

/// Whether a turn of a loop sets a counter.
fn sets(program: &Program, turn: &[usize], counter: usize) -> bool {
    turn.iter().any(|place| program.at(*place).and_then(|instr| counter_set(instr))
        == Some(counter))
}

/// The counters that a turn of a loop counts down, from a place on through these.
fn counters_down(alloc: Global, program: &Program, turn: &[usize]) -> Result<Vec<usize>> {
    let behind = turn.iter().skip(1).chain(turn.first());
    turn.iter()
        .zip(behind)
        .filter_map(|(place, next)| counted_down(program.at(*place)?, *next))
        .collect(alloc)
}

/// Whether a counter bounds how often a turn of a loop is made: it falls there, and isn't set.
fn is_counted(alloc: Global, program: &Program, turn: &[usize]) -> Result<bool> {
    let counters = counters_down(alloc, program, turn)?;
    Ok(
        counters
            .iter()
            .any(|counter| !sets(program, turn, *counter)),
    )
}

/// The shortest turn that jumps back from a place and that no counter bounds.
fn uncounted_from(
    alloc: Global,
    program: &Program,
    all: &[Vec<usize>],
    place: usize,
) -> Result<Option<Vec<usize>>> {
    let Some(nexts) = all.get(place) else {
        return Ok(None);
    };
    for next in nexts {
        if *next <= place {
            if let Some(turn) = way_between(alloc, all, *next, place)? {
                if !is_counted(alloc, program, &turn)? {
                    return Ok(Some(turn));
                }
            }
        }
    }
    Ok(None)
}

/// The first loop that no counter bounds, by where it jumps back: its places, from the one to which
/// it jumps back to the one that jumps.
fn uncounted_on(alloc: Global, program: &Program, roads: Roads<'_>) -> Result<Option<Vec<usize>>> {
    let all = roads.all(alloc)?;
    for place in 0..all.len() {
        let turn = uncounted_from(alloc, program, &all, place)?;
        if turn.is_some() {
            return Ok(turn);
        }
    }
    Ok(None)
}

/// That no counter bounds a loop, with its lines and the one that jumps back. What is known of
/// a program is asked for only where one is written.
pub(crate) fn uncounted_text(
    alloc: Global,
    program: &Program,
    roads: Roads<'_>,
    lines: &[usize],
) -> Result<Option<String>> {
    if uncounted_on(alloc, program, Roads::Written(program))?.is_none() {
        return Ok(None);
    }
    let Some(turn) = uncounted_on(alloc, program, roads)? else {
        return Ok(None);
    };
    let route = route_of(alloc, lines, &turn)?;
    let last = turn.last().and_then(|place| lines.get(*place).copied());
    let last = last.unwrap_or(0);
    Ok(Some(format!(in alloc;
        "no counter bounds the loop of {route}, which jumps back in line {last}"
    )?))
}
