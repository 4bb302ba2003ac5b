//! Values of a register that stand for all turns of a loop.

use crate::Result;
use crate::roads::{Judged, Roads};
use crate::way::way_between;
use facts::{Row, Span, Violation, violation};
use seq_program::{Instr, Written};
use std::alloc::Global;

/// The register whose word an instruction writes.
pub(crate) fn written_register(instr: &Instr) -> Option<usize> {
    match instr {
        Instr::Write {
            value: Written::Register(register),
            ..
        } => Some(register.index()),
        _ => None,
    }
}

/// The register to blame where an instruction breaks a rule, and its values there.
fn register_blamed(judged: Judged<'_>, instr: &Instr, row: &Row) -> Option<(usize, Span)> {
    match violation(judged.board, instr, row)? {
        Violation::Values(_) | Violation::OverLimit { .. } => {
            let register = written_register(instr)?;
            Some((register, *row.regs.get(register)?))
        }
        _ => None,
    }
}

/// What an instruction adds to a register.
fn added(instr: &Instr, to: usize) -> Option<u16> {
    match instr {
        Instr::Add { register, value } if register.index() == to => Some(*value),
        _ => None,
    }
}

/// A place of a loop that adds to a register, the one to which that loop jumps back, and what is
/// added.
#[derive(Clone, Copy)]
struct Climb {
    adds: usize,
    head: usize,
    step: u16,
}

/// The loop through a place, if there is one and the place adds to a register.
fn climb_at(
    alloc: Global,
    judged: Judged<'_>,
    all: &[Vec<usize>],
    adds: usize,
    register: usize,
) -> Result<Option<Climb>> {
    let Some(step) = judged
        .program
        .at(adds)
        .and_then(|instr| added(instr, register))
    else {
        return Ok(None);
    };
    let Some(turn) = way_between(alloc, all, adds.saturating_add(1), adds)? else {
        return Ok(None);
    };
    match turn.iter().min() {
        Some(head) => Ok(Some(Climb {
            adds,
            head: *head,
            step,
        })),
        None => Ok(None),
    }
}

/// The first place in a loop that adds to a register.
fn climb_of(alloc: Global, judged: Judged<'_>, register: usize) -> Result<Option<Climb>> {
    let all = Roads::Written(judged.program).all(alloc)?;
    for place in 0..all.len() {
        let climb = climb_at(alloc, judged, &all, place, register)?;
        if climb.is_some() {
            return Ok(climb);
        }
    }
    Ok(None)
}

/// Where the values of a register were widened that a place is refused for.
pub(crate) fn widened_text(
    alloc: Global,
    judged: Judged<'_>,
    place: usize,
) -> Result<Option<String>> {
    let (Some(instr), Some(row)) = (judged.program.at(place), judged.row(place)) else {
        return Ok(None);
    };
    let Some((register, Span { lo, hi })) = register_blamed(judged, instr, row) else {
        return Ok(None);
    };
    let Some(Climb { adds, head, step }) = climb_of(alloc, judged, register)? else {
        return Ok(None);
    };
    let (head, adds) = (judged.line(head), judged.line(adds));
    Ok(Some(format!(in alloc;
        "r{register} may be {lo} to {hi} for the search: widened at line {head}, where the loop \
         adds {step} in line {adds}, to hold for any number of turns"
    )?))
}
