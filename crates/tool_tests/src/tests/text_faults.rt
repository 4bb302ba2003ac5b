//! Notes on faults that a text hasn't. Those that it has are tried with rows and cases.

use super::boards::two_board;
use super::expected::{made, notes};
use seq_program::{Misfit, ProgramFault};
use std::alloc::{AllocError, Global};
use std::process::Abort;
use std::test::*;
use text_notes::{board_note, program_note};

/// Tries the note on a fault that the text hasn't.
fn is_told(rt: &impl Abort, alloc: Global, fault: ProgramFault, want: Option<&str>) {
    let board = two_board(rt, alloc);
    let note = program_note(alloc, &board, "end", fault);
    drop(board);
    notes(rt, alloc, made(rt, note), want);
}

/// Faults that a text hasn't have a note all the same, but for Memory.
#[test]
fn other_faults(rt: HostRuntime) {
    let alloc = rt.alloc();
    let fault = ProgramFault::BadOperand(7, Misfit::Count(0));
    is_told(
        &rt,
        alloc,
        fault,
        Some("%program:7: error: a bad operand\n"),
    );
    is_told(&rt, alloc, ProgramFault::Memory, None);
    let note = made(&rt, board_note(alloc, "", AllocError.into()));
    notes(&rt, alloc, note, None);
}
