//! How far places are from one.

use seq_program::{Instr, Program};
use std::alloc::{AllocError, Global};

/// Farther than any place.
pub(crate) const UNREACHED: usize = 1025;

/// Whether an instruction goes on to the next place.
fn goes_on(instr: &Instr) -> bool {
    !matches!(instr, Instr::Goto { .. } | Instr::End | Instr::Fail)
}

/// Where an instruction leads, from its place.
fn leads_to(place: usize, instr: &Instr) -> [Option<usize>; 2] {
    let next = if goes_on(instr) {
        Some(place.saturating_add(1))
    } else {
        None
    };
    [next, instr.jump()]
}

/// The distance of a place, one more than the least of those to which it leads.
fn nearer(distances: &[usize], place: usize, instr: &Instr) -> usize {
    let mut least = UNREACHED;
    for next in leads_to(place, instr) {
        if let Some(distance) = next.and_then(|next| distances.get(next)) {
            least = least.min(distance.saturating_add(1));
        }
    }
    least.min(UNREACHED)
}

/// Makes distances less where they may be, and tells whether one is.
fn relax(distances: &mut [usize], program: &Program) -> bool {
    let mut changes = false;
    for back in 1..=distances.len() {
        let place = distances.len() - back;
        if let Some(instr) = program.at(place) {
            let near = nearer(distances, place, instr);
            if near < distances[place] {
                distances[place] = near;
                changes = true;
            }
        }
    }
    changes
}

/// 0 for the place that is wanted, and `UNREACHED` for all others.
fn first_distances(
    alloc: Global,
    program: &Program,
    wanted: usize,
) -> Result<Vec<usize>, AllocError> {
    let mut distances = Vec::new(alloc);
    for place in 0..program.places() {
        distances.push(if place == wanted { 0 } else { UNREACHED })?;
    }
    Ok(distances)
}

/// For each place over how many instructions at least a run comes from there to a place that is
/// wanted; `UNREACHED` where it can't.
pub(crate) fn distances_to(
    alloc: Global,
    program: &Program,
    wanted: usize,
) -> Result<Vec<usize>, AllocError> {
    let mut distances = first_distances(alloc, program, wanted)?;
    for _ in 0..program.places() {
        if !relax(&mut distances, program) {
            break;
        }
    }
    Ok(distances)
}
