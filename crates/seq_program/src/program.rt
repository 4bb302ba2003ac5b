//! Programs, and their texts.

ghost use Rattle.std.specs.Prelude.{◌≡◌, length, slice_get, option_map, option_copied, All};
ghost use Rattle.std.specs.Prelude.{IfOk};
ghost use Rattle.seq_program.specs.Reading.{Gives};
ghost use Rattle.seq_program.specs.Passes.{after_lines};
ghost use Rattle.seq_program.specs.PassViews.{labels_view, pass_view, AreInstrsSoFar};
ghost use Rattle.seq_program.specs.Valid.{IsOnBoard};
ghost use Rattle.seq_program.specs.Programs.{is_end, is_some_end, ends, no_pass, program_of};
ghost use Rattle.texts.specs.Words.{lines_by_feed};

use crate::fault::ProgramFault;
use crate::instr::Instr;
use crate::labels::{Labels, are_below, labels_of};
use crate::pass::InstrsSoFar;
use board::Board;
use std::alloc::Global;
use std::marker::Model;
use texts::{first_by_feed, line_count};

/// The most instructions of a program.
pub const MOST_PLACES: usize = 1024;

/// The instructions of a program, by their places: 1 to 1024, whose jumps land, and of which the
/// last ends.
#[derive(Drop)]
pub struct Program {
    instrs: Vec<Instr>,
}

impl Model for Program {
    ghost use Rattle.std.specs.Prelude.{ℕ, List};
    ghost use Rattle.seq_program.specs.declared.instr.Instr.{Instr};
    ghost use Rattle.seq_program.specs.Valid.{IsProgram};

    ghost Value = { List Instr };

    ghost view = { λ p. p.instrs.items };

    ghost invariant = { λ p. IsProgram p.instrs.items };
}

impl Program {
    ghost use Rattle.seq_program.specs.Valid.{IsProgram};

    /// How many instructions there are.
    pub fn places(&self) -> usize
        ensures count { result ≡ length self.now }
        ensures program { IsProgram self.now }
    {
        self.instrs.len()
    }

    /// The instruction of a place.
    pub fn at(&self, place: usize) -> Option<&Instr>
        ensures { option_map (λ i. i.now) result ≡ slice_get self.now place }
    {
        self.instrs.get(place)
    }
}

/// What the lines of a text say.
fn pass_of(
    alloc: Global,
    board: &Board,
    labels: &Labels,
    text: &str,
) -> Result<InstrsSoFar, ProgramFault>
    ensures said { IfOk result
        (λ p. AreInstrsSoFar (length board.now.targets) (labels_view labels.now) p) }
    ensures value { Gives pass_view result
        (after_lines board.now (labels_view labels.now) 1 no_pass (lines_by_feed text.now)) }
{
    let mut pass = InstrsSoFar {
        instrs: Vec::new(alloc),
        unknown: None,
    };
    let mut number = 1;
    let mut rest = text;
    while let Some((line, below)) = first_by_feed(rest) {
        pass.add_line(alloc, board, labels, number, line)?;
        number += 1;
        rest = below;
    }
    Ok(pass)
}

fn is_end(instr: &Instr) -> bool
    ensures { result ≡ is_end instr.now }
{
    matches!(instr, Instr::End | Instr::Fail)
}

fn is_some_end(instr: Option<&Instr>) -> bool
    ensures { result ≡ is_some_end (option_copied instr.entry) }
{
    match instr {
        Some(instr) => is_end(instr),
        None => false,
    }
}

/// Whether the last instruction ends, and no label stands after it.
fn ends(labels: &Labels, instrs: &[Instr]) -> bool
    ensures { result ≡ ends (labels_view labels.now) instrs.now }
{
    is_some_end(instrs.last()) && are_below(labels, instrs.len())
}

/// The program of a text for a board, or the text's first fault.
///
/// The faults are those of the lines, the first line first: UnknownWord; BadOperand; then from the
/// left UnknownTarget, UnknownCommand and BadNumber; SameLabel; TooLong. After all lines come
/// UnknownLabel, and then NoEnd with the number of lines. Memory is answered where a growth was
/// refused.
#[tactic(auto, unfolding(crate::specs::Programs::program_in))]
pub fn read_program(alloc: Global, board: &Board, text: &str) -> Result<Program, ProgramFault>
    ensures value { Gives (λ p. p) result (program_of board.now text.now) }
    ensures on_board { IfOk result (λ p. All (λ i. IsOnBoard (length board.now.targets) i) p) }
{
    let labels = labels_of(alloc, text)?;
    let pass = pass_of(alloc, board, &labels, text)?;
    if let Some(line) = pass.unknown {
        return Err(ProgramFault::UnknownLabel(line));
    }
    if !ends(&labels, &pass.instrs) {
        return Err(ProgramFault::NoEnd(line_count(text)));
    }
    Ok(Program {
        instrs: pass.instrs,
    })
}
