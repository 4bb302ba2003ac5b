//! The faults of a text's lines.

ghost use Rattle.std.specs.Prelude.{◌≡◌, ◌-◌, IfOk, length, take};
ghost use Rattle.seq_program.specs.LineFaults.{fault_beside, faults_from, line_fault, other_faults};
ghost use Rattle.seq_program.specs.PassViews.{labels_view};
ghost use Rattle.texts.specs.Words.{lines_by_feed};

use crate::fault::ProgramFault;
use crate::labels::{Labels, labels_of};
use crate::pass::InstrsSoFar;
use board::Board;
use std::alloc::{AllocError, Global};
use texts::first_by_feed;

/// The fault of a line by itself, beside the labels of all lines.
fn line_fault(
    alloc: Global,
    board: &Board,
    labels: &Labels,
    number: usize,
    line: &str,
) -> Result<Option<ProgramFault>, AllocError>
    ensures { IfOk result
        (λ fault. fault ≡ line_fault board.now (labels_view labels.now) number line.now) }
{
    let mut said = InstrsSoFar {
        instrs: Vec::new(alloc),
        unknown: None,
    };
    match said.add_line(alloc, board, labels, number, line) {
        Ok(()) => Ok(
            said.unknown
                .map(|number| ProgramFault::UnknownLabel(number)),
        ),
        Err(ProgramFault::Memory) => Err(AllocError),
        Err(fault) => Ok(Some(fault)),
    }
}

/// The fault of a line, unless that has the number of the line that is left out.
fn fault_beside(
    alloc: Global,
    board: &Board,
    labels: &Labels,
    left_out: usize,
    number: usize,
    line: &str,
) -> Result<Option<ProgramFault>, AllocError>
    ensures { IfOk result (λ fault.
        fault ≡ fault_beside board.now (labels_view labels.now) left_out number line.now) }
{
    if number == left_out {
        return Ok(None);
    }
    line_fault(alloc, board, labels, number, line)
}

/// The first faults of a text's lines, and how many there are more.
#[derive(Debug, Drop)]
pub struct LineFaults {
    pub first: Vec<ProgramFault>,
    pub more: usize,
}

impl LineFaults {
    ghost use Rattle.std.specs.Prelude.{◌+◌, ◌<◌, ◌^◌, OnOk};
    ghost use Rattle.seq_program.specs.FaultCounts.{IsOneMore};

    /// One fault more, which is kept where fewer than so many are.
    fn add(&mut self, fault: ProgramFault, most: usize) -> Result<(), AllocError>
        requires { self.old.more + 1 < 2 ^ 64 }
        ensures { OnOk result (IsOneMore most fault self.old self.new) }
    {
        if self.first.len() < most {
            self.first.push(fault)?;
        } else {
            self.more += 1;
        }
        Ok(())
    }
}

/// The faults of a text's lines beside these labels, but for one line.
fn faults_beside(
    alloc: Global,
    board: &Board,
    labels: &Labels,
    left_out: usize,
    text: &str,
    most: usize,
) -> Result<LineFaults, AllocError>
    ensures first { IfOk result (λ faults. faults.first.items
        ≡ take most (faults_from board.now (labels_view labels.now) left_out 1
        (lines_by_feed text.now))) }
    ensures more { IfOk result (λ faults. faults.more
        ≡ length (faults_from board.now (labels_view labels.now) left_out 1
        (lines_by_feed text.now)) - most) }
{
    let mut faults = LineFaults {
        first: Vec::new(alloc),
        more: 0,
    };
    let mut number = 1;
    let mut rest = text;
    while let Some((line, below)) = first_by_feed(rest) {
        if let Some(fault) = fault_beside(alloc, board, labels, left_out, number, line)? {
            faults.add(fault, most)?;
        }
        number += 1;
        rest = below;
    }
    Ok(faults)
}

/// The faults of a text's lines for a board, but for the line of this number: each line by itself
/// beside the labels of all lines. Gives the first of them, so many at most, and how many there are
/// more. With the fault that `read_program` answers, and without its line, they are all that
/// is wrong with the text's lines.
///
/// AllocError is answered where a growth was refused.
pub fn other_faults(
    alloc: Global,
    board: &Board,
    text: &str,
    line: usize,
    most: usize,
) -> Result<LineFaults, AllocError>
    ensures first { IfOk result (λ faults. faults.first.items
        ≡ take most (other_faults board.now line (lines_by_feed text.now))) }
    ensures more { IfOk result (λ faults. faults.more
        ≡ length (other_faults board.now line (lines_by_feed text.now)) - most) }
{
    match labels_of(alloc, text) {
        Ok(labels) => faults_beside(alloc, board, &labels, line, text, most),
        Err(_) => Err(AllocError),
    }
}
