//! Rows of what is suspicious in accepted programs, and of the states of rails that show it.

use crate::cells::{board, byte, found_table, number, program};
use crate::row::{Flaw, Outcome, Row};
use board::Board;
use facts::GoodSet;
use program_lints::{ProgramLint, power_states, program_lints, unused_labels};
use seq_program::Program;
use std::alloc::Global;

/// The board and the program of a section.
fn board_and_program(alloc: Global, given: &Row) -> Outcome<(Box<Board>, Program)> {
    let (board_text, program_text) = given.two_texts()?;
    let board = board(alloc, board_text)?;
    let program = program(alloc, &board, program_text)?;
    Ok((board, program))
}

/// `PLACE | RAIL | ON VOLTAGE`: whether a rail may be on at a place, and whether it has a voltage.
fn state_row(alloc: Global, given: &Row) -> Outcome {
    let (board, program) = board_and_program(alloc, given)?;
    let (place, rail) = given.two()?;
    let (place, rail) = (number(place, 1023)? as usize, byte(rail)?);
    let table = found_table(alloc, &board, &program)?;
    let states = power_states(alloc, &board, &program, &table)?;
    let is_on = states.may_be_on(place).contains(rail);
    let has_voltage = states.has_voltage(place).contains(rail);
    Ok(format!(in alloc; "{is_on} {has_voltage}")?)
}

/// The rails of a set, with commas between them.
fn listed(alloc: Global, rails: GoodSet) -> Outcome {
    let mut text = String::new(alloc);
    for rail in 0..64u8 {
        if rails.contains(rail) {
            let comma = if text.is_empty() { "" } else { "," };
            text.push_str(&format!(in alloc; "{comma}{rail}")?)?;
        }
    }
    Ok(text)
}

/// A lint's name, its place, and the rail or the target that it is about.
fn lint_text(alloc: Global, lint: &ProgramLint) -> Outcome {
    let name = lint.name();
    let place = lint.place();
    let text = match lint {
        ProgramLint::OnAtFail { rails, .. } => {
            let rails = listed(alloc, *rails)?;
            format!(in alloc; "{name} {place} {rails}")
        }
        ProgramLint::BeforeVoltage { rail, .. } | ProgramLint::NeedLost { rail, .. } => {
            format!(in alloc; "{name} {place} {rail}")
        }
        ProgramLint::ProtectLeft { target, .. } | ProgramLint::NoRail { target, .. } => {
            format!(in alloc; "{name} {place} {target}")
        }
        ProgramLint::Unreached { .. } | ProgramLint::UnservedAlert { .. } => {
            format!(in alloc; "{name} {place}")
        }
    };
    Ok(text?)
}

/// `LINT, ..`: the lints of the section's program.
fn lints_row(alloc: Global, given: &Row) -> Outcome {
    let (board, program) = board_and_program(alloc, given)?;
    let table = found_table(alloc, &board, &program)?;
    let mut text = String::new(alloc);
    for lint in &program_lints(alloc, &board, &program, &table)? {
        text.push_str(if text.is_empty() { "" } else { ", " })?;
        text.push_str(&lint_text(alloc, lint)?)?;
    }
    Ok(text)
}

/// `LINES`: the lines of the labels of the section's text that nothing jumps to.
fn labels_row(alloc: Global, given: &Row) -> Outcome {
    Ok(format!(in alloc; "{:?}", unused_labels(alloc, given.text()?)?)?)
}

/// What a row of some kind comes out as.
pub(crate) fn outcome(alloc: Global, kind: &str, given: &Row) -> Outcome {
    match kind {
        "states" => state_row(alloc, given),
        "lints" => lints_row(alloc, given),
        "unused_labels" => labels_row(alloc, given),
        _ => Err(Flaw::Kind.error()),
    }
}
