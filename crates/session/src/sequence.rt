ghost use Rattle.std.specs.Prelude.{length, All, IfOk};
ghost use Rattle.seq_program.specs.Programs.{program_of};
ghost use Rattle.seq_program.specs.Valid.{IsOnBoard};
ghost use Rattle.seq_program.specs.declared.fault.ProgramFault.TheVariants.{Memory};
ghost use Rattle.texts.specs.Reading.{GivesUnless};
ghost use Rattle.bundles.specs.Views.{section_view};
ghost use Rattle.session.specs.SectionTexts.{section_text};
ghost use Rattle.session.specs.Sequences.{board_in, sequence_in};
ghost use Rattle.session.specs.Unreads.{Reads};

use crate::section::section_text;
use crate::unread::Unread;
use board::{Board, BoardFault, FaultKind, read_board};
use bundles::Section;
use seq_program::{Program, ProgramFault, read_program};
use std::alloc::Global;
use texts::ReadError;

/// A program on its board.
#[derive(Drop)]
pub struct Sequence {
    pub board: Board,
    pub program: Program,
}

/// The board of a section.
pub(crate) fn board_in(alloc: Global, section: &Section<'_>) -> Result<Board, ReadError<Unread>>
    ensures { Reads (λ b. b) result (board_in (section_view section.now)) }
{
    let text = section_text(alloc, section)?;
    match read_board(alloc, &text) {
        Ok(board) => Ok(board),
        Err(
            BoardFault {
                kind: FaultKind::Memory,
                ..
            },
        ) => Err(ReadError::Memory),
        Err(fault) => Err(ReadError::Fault(Unread::Board(fault))),
    }
}

/// The program of a section, on its board.
fn program_in(alloc: Global, board: &Board, section: &Section<'_>) -> Result<Program, ProgramFault>
    ensures on_board { IfOk result (λ p. All (λ i. IsOnBoard (length board.now.targets) i) p) }
    ensures value { GivesUnless Memory (λ p. p) result
        (program_of board.now (section_text (section_view section.now))) }
{
    let text = section_text(alloc, section)?;
    read_program(alloc, board, &text)
}

/// What the sections of a program on its board say, read in order.
#[tactic(auto, unfolding(crate::specs::Sequences::sequence_in))]
pub fn sequence_in(
    alloc: Global,
    on: &Section<'_>,
    program: &Section<'_>,
) -> Result<Sequence, ReadError<Unread>>
    ensures on_board { IfOk result
        (λ s. All (λ i. IsOnBoard (length s.board.targets) i) s.program) }
    ensures value { Reads (λ s. s) result
        (sequence_in (section_view on.now) (section_view program.now)) }
{
    let board = board_in(alloc, on)?;
    match program_in(alloc, &board, program) {
        Ok(program) => Ok(Sequence { board, program }),
        Err(ProgramFault::Memory) => Err(ReadError::Memory),
        Err(fault) => Err(ReadError::Fault(Unread::Program(board, fault))),
    }
}
