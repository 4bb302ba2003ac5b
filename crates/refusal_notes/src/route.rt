//! Ways through a program in words, by the lines of its places.

use crate::Result;
use crate::turns::{Leg, legs_of};
use std::alloc::Global;

/// How many legs of a way are told at its beginning, and at its end.
const MOST_TOLD: usize = 6;

/// Places one after the other, from the first to the last.
#[derive(Clone, Copy, PartialEq, Eq)]
pub(crate) struct Stretch {
    pub first: usize,
    pub last: usize,
}

impl Stretch {
    /// Whether a place is the next one.
    fn goes_on_to(self, place: usize) -> bool {
        self.last.checked_add(1) == Some(place)
    }
}

fn mark(marks: &mut [bool], place: usize) {
    if let Some(marked) = marks.get_mut(place) {
        *marked = true;
    }
}

/// Of each place, whether a stretch begins there though the place before is gone first: it is where
/// a way jumps back to, or the one after that from where it does.
fn beginnings(alloc: Global, places: usize, way: &[usize]) -> Result<Vec<bool>> {
    let mut begins = vec![in alloc; false; places]?;
    for (here, next) in way.iter().zip(way.iter().skip(1)) {
        if next <= here {
            mark(&mut begins, *next);
            mark(&mut begins, here.saturating_add(1));
        }
    }
    Ok(begins)
}

/// The stretches of a way among so many places.
fn stretches(alloc: Global, places: usize, way: &[usize]) -> Result<Vec<Stretch>> {
    let begins = beginnings(alloc, places, way)?;
    let mut stretches: Vec<Stretch> = Vec::new(alloc);
    for place in way {
        let (place, begins) = (*place, begins.get(*place) == Some(&true));
        match stretches.last_mut() {
            Some(stretch) if !begins && stretch.goes_on_to(place) => stretch.last = place,
            _ => stretches.push(Stretch {
                first: place,
                last: place,
            })?,
        }
    }
    Ok(stretches)
}

/// Adds the lines of a stretch.
fn push_stretch(text: &mut String, lines: &[usize], stretch: Stretch) -> Result<()> {
    let first = lines.get(stretch.first).copied().unwrap_or(0);
    let last = lines.get(stretch.last).copied().unwrap_or(0);
    if first == last {
        write!(text, "{first}")
    } else {
        write!(text, "{first} to {last}")
    }
}

/// Adds the lines of stretches one after the other.
fn push_stretches(text: &mut String, lines: &[usize], stretches: &[Stretch]) -> Result<()> {
    let mut comma = "";
    for stretch in stretches {
        text.push_str(comma)?;
        push_stretch(text, lines, *stretch)?;
        comma = ", ";
    }
    Ok(())
}

/// Adds a leg, with how often it is gone.
fn push_leg(text: &mut String, lines: &[usize], leg: &Leg<'_>) -> Result<()> {
    let times = leg.times;
    if times == 1 {
        return push_stretches(text, lines, leg.stretches);
    }
    write!(text, "{times} times (")?;
    push_stretches(text, lines, leg.stretches)?;
    text.push_str(")")
}

/// Adds what stands before a leg.
fn push_joint(text: &mut String, index: usize, is_gap: bool) -> Result<()> {
    if is_gap {
        text.push_str(", then .., then ")
    } else if index > 0 {
        text.push_str(", then ")
    } else {
        Ok(())
    }
}

/// Adds the legs of a way: of a long one those of its beginning and of its end.
fn push_legs(text: &mut String, lines: &[usize], legs: &[Leg<'_>]) -> Result<()> {
    let tail = legs.len().saturating_sub(MOST_TOLD).max(MOST_TOLD);
    for (index, leg) in legs.iter().enumerate() {
        if index < MOST_TOLD || index >= tail {
            let is_gap = index == tail && tail > MOST_TOLD;
            push_joint(text, index, is_gap)?;
            push_leg(text, lines, leg)?;
        }
    }
    Ok(())
}

/// The lines of a way's places, `lines` being those of all places.
pub(crate) fn route_of(alloc: Global, lines: &[usize], way: &[usize]) -> Result<String> {
    let stretches = stretches(alloc, lines.len(), way)?;
    let legs = legs_of(alloc, &stretches)?;
    let word = if way.len() == 1 { "line " } else { "lines " };
    let mut text = String::from_str(alloc, word)?;
    push_legs(&mut text, lines, &legs)?;
    Ok(text)
}
