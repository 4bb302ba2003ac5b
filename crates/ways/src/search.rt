//! The search for a way on which a rule may fail, by the facts of that way alone.

ghost use Rattle.std.specs.Prelude.{IfErr, IfOk};
ghost use Rattle.ways.specs.Trails.{LeadOn};
ghost use Rattle.ways.specs.Ways.{Breaks, IsSearched};

use crate::start::start_edges;
use crate::step::Step;
use crate::trails::Trails;
use board::Board;
use facts::{Row, Rule, duty, edges};
use seq_program::Program;
use std::alloc::{AllocError, Global};

/// So many trails at most are gone on from.
pub const MOST_STEPS: usize = 20_000;

/// What a search for a way came to.
#[derive(Debug, Drop)]
pub enum Search {
    /// The rule may fail at the end of this one.
    Found(Vec<Step>),
    /// There is none.
    Nowhere,
    /// There are too many ways.
    Unknown,
}

/// The first rule that a step's instruction breaks, or else its edges.
fn edges_from(
    alloc: Global,
    board: &Board,
    program: &Program,
    step: &Step,
) -> Result<Result<Vec<(usize, Row, u64)>, Rule>, AllocError>
    ensures leads { IfOk result
        (λ found. IfOk found (λ es. LeadOn board.now program.now step.now es.items)) }
    ensures breaks { IfOk result
        (λ found. IfErr found (λ rule. Breaks board.now program.now rule step.now)) }
{
    let Some(instr) = program.at(step.place) else {
        return Ok(Ok(Vec::new(alloc)));
    };
    if let Some(rule) = duty(board, instr, &step.row) {
        return Ok(Err(rule));
    }
    if !step.row.is_of(board) {
        return Ok(Ok(Vec::new(alloc)));
    }
    Ok(Ok(edges(alloc, board, program, step.place, &step.row)?))
}

/// The first of the shortest ways to a place on which a rule of K1 to K5 may fail there, within
/// 20,000 steps. What is known along several ways is never joined; a way that brings no more to its
/// place than one before it isn't gone on from. Fails only for want of memory.
pub fn bad_way(
    alloc: Global,
    board: &Board,
    program: &Program,
    place: usize,
    rule: Rule,
) -> Result<Search, AllocError>
    ensures { IfOk result (IsSearched board.now program.now place rule) }
{
    let mut trails = Trails::new(alloc, program.places())?;
    trails.go_on(None, start_edges(alloc, board)?)?;
    for number in 0..MOST_STEPS {
        let Some(step) = trails.step(number) else {
            return Ok(Search::Nowhere);
        };
        let is_there = step.place == place;
        match edges_from(alloc, board, program, step)? {
            Ok(edges) => trails.go_on(Some(number), edges)?,
            Err(broken) if is_there && broken == rule => {
                return Ok(Search::Found(trails.into_way(alloc, number)?));
            }
            Err(_) => {}
        }
    }
    Ok(Search::Unknown)
}
