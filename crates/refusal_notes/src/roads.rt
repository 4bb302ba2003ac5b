//! Where a place leads.

ghost use Rattle.std.specs.Prelude.{IsTrue};
ghost use Rattle.facts.specs.duties.Duties.{Meets};
ghost use Rattle.facts.specs.domain.Rows.{row_view};
ghost use Rattle.facts.specs.declared.duties.rule.Rule.TheVariants.{K1};

use crate::Result;
use board::Board;
use facts::{Row, Rule, duty, edges};
use seq_program::{Instr, Program};
use std::alloc::Global;
use table_check::{Table, row_at};

/// An edge of a place: where it leads, the row there, and the most ticks on the way.
pub(crate) type Edge = (usize, Row, u64);

/// A program on its board, and the table of facts that was judged.
#[derive(Clone, Copy)]
pub struct Tried<'a> {
    pub board: &'a Board,
    pub program: &'a Program,
    pub table: &'a Table,
}

/// A board, a program on it with the lines of its places, and a table of what is known there.
#[derive(Clone, Copy)]
pub(crate) struct Judged<'a> {
    pub board: &'a Board,
    pub program: &'a Program,
    /// Of each place, the number of its line.
    pub lines: &'a [usize],
    pub table: &'a Table,
}

/// Whether a target allows what an instruction may send.
fn may_be_sent(board: &Board, instr: &Instr, row: &Row) -> bool
    ensures { IsTrue result → Meets board.now (row_view row.now) instr.now K1 }
{
    duty(board, instr, row) != Some(Rule::K1)
}

impl<'a> Judged<'a> {
    /// What was tried, with the lines of the program's places.
    pub(crate) fn of(tried: Tried<'a>, lines: &'a [usize]) -> Judged<'a> {
        let Tried {
            board,
            program,
            table,
        } = tried;
        Judged {
            board,
            program,
            lines,
            table,
        }
    }

    /// The number of a place's line.
    pub(crate) fn line(self, place: usize) -> usize {
        self.lines.get(place).copied().unwrap_or(0)
    }

    /// What is known at a place.
    pub(crate) fn row(self, place: usize) -> Option<&'a Row> {
        row_at(&self.table.rows, place)
    }

    /// The edges of a place, by what is known there. None where the table has no row of the board
    /// for it, or its message may not be sent.
    pub(crate) fn edges(self, alloc: Global, place: usize) -> Result<Vec<Edge>> {
        match self.row(place) {
            Some(row) => self.edges_at(alloc, place, row),
            None => Ok(Vec::new(alloc)),
        }
    }

    /// The same, by another row of the board.
    pub(crate) fn edges_at(self, alloc: Global, place: usize, row: &Row) -> Result<Vec<Edge>> {
        let Some(instr) = self.program.at(place) else {
            return Ok(Vec::new(alloc));
        };
        if !row.is_of(self.board) || !may_be_sent(self.board, instr, row) {
            return Ok(Vec::new(alloc));
        }
        edges(alloc, self.board, self.program, place, row)
    }

    /// The first of the rules K1 to K5 that a place's instruction breaks at a row.
    pub(crate) fn broken_at(self, place: usize, row: &Row) -> Option<Rule> {
        duty(self.board, self.program.at(place)?, row)
    }

    /// Whether a place's instruction breaks one of them.
    fn is_broken(self, place: usize) -> bool {
        self.row(place)
            .is_some_and(|row| self.broken_at(place, row).is_some())
    }

    /// Where those edges lead.
    fn next_places(self, alloc: Global, place: usize) -> Result<Vec<usize>> {
        let edges = self.edges(alloc, place)?;
        edges.iter().map(|(to, _, _)| *to).collect(alloc)
    }
}

/// Whether an instruction may be followed by the next place's.
fn goes_on(instr: &Instr) -> bool {
    !matches!(instr, Instr::Goto { .. } | Instr::End | Instr::Fail)
}

/// Where a place's instruction may lead, whatever is known there.
fn written_places(alloc: Global, program: &Program, place: usize) -> Result<Vec<usize>> {
    let mut places = Vec::new(alloc);
    let Some(instr) = program.at(place) else {
        return Ok(places);
    };
    if let Some(jump) = instr.jump() {
        places.push(jump)?;
    }
    if goes_on(instr) {
        places.push(place.saturating_add(1))?;
    }
    Ok(places)
}

/// The roads that count.
#[derive(Clone, Copy)]
pub(crate) enum Roads<'a> {
    /// Those that may be taken, by a table of what is known.
    Known(Judged<'a>),
    /// Those of them that lead on from places which break no rule from K1 to K5.
    Kept(Judged<'a>),
    /// Those that a program has.
    Written(&'a Program),
}

impl Roads<'_> {
    /// How many places there are.
    fn places(self) -> usize {
        match self {
            Roads::Known(judged) | Roads::Kept(judged) => judged.program.places(),
            Roads::Written(program) => program.places(),
        }
    }

    /// Where a place leads.
    fn from(self, alloc: Global, place: usize) -> Result<Vec<usize>> {
        match self {
            Roads::Known(judged) => judged.next_places(alloc, place),
            Roads::Kept(judged) if judged.is_broken(place) => Ok(Vec::new(alloc)),
            Roads::Kept(judged) => judged.next_places(alloc, place),
            Roads::Written(program) => written_places(alloc, program, place),
        }
    }

    /// Of each place, where it leads.
    pub(crate) fn all(self, alloc: Global) -> Result<Vec<Vec<usize>>> {
        let mut all = Vec::new(alloc);
        for place in 0..self.places() {
            all.push(self.from(alloc, place)?)?;
        }
        Ok(all)
    }
}
