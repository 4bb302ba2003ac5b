//! The ticks that are left at the places of a program with loops: a ranking function, linear in the
//! counters (Floyd, 1967), which falls along each way by the ticks of that.
//!
//! `poll: again c0 poll`, then `end`: at `again` 2 + 1 c0 ticks are left. The way back takes a tick
//! and one off c0; the way on takes a tick, and the end has one left.

ghost use Rattle.table_check.specs.checker.Looking.{HasRowsOf};
ghost use Rattle.table_check.specs.Tables.{rows_view};

use crate::fault::FindFault;
use crate::graph::{Cut, Graph, graph_of};
use crate::longest_paths::{Destination, LongestPaths, TURN, value_at};
use crate::loop_forest::{Loop, LoopForest, forest_of, loop_at};
use crate::lost::{bound, dearest_loss, lesser, paid};
use crate::potentials::carry_potentials;
use board::Board;
use facts::Row;
use seq_program::Program;
use simulator::MOST_TICKS;
use std::alloc::{AllocError, Global};

/// The ticks that are left at a place, at most: a base, a coefficient for each counter, and
/// one for each arbitration that may still be lost.
#[derive(Clone, Copy)]
pub(crate) struct Ticks {
    pub base: u64,
    pub coeffs: [u64; 4],
    /// For each arbitration that may still be lost.
    pub lost: u64,
}

/// At all places no ticks.
fn no_ticks(alloc: Global, places: usize) -> Result<Vec<Ticks>, AllocError> {
    let none = Ticks {
        base: 0,
        coeffs: [0; 4],
        lost: 0,
    };
    vec![in alloc; none; places]
}

/// For each place a 0.
fn zeros(alloc: Global, places: usize) -> Result<Vec<u64>, AllocError> {
    vec![in alloc; 0; places]
}

/// What is left at each place of the loops at a depth, to their next turns.
fn left_to_turn(
    alloc: Global,
    graph: &Graph,
    forest: &LoopForest,
    ticks: &[Ticks],
    depth: usize,
) -> Result<Vec<u64>, AllocError> {
    let mut left = zeros(alloc, graph.nodes.len())?;
    if let Some(inside) = forest.depths.get(depth) {
        let to = Destination::Turn { depth, inside };
        LongestPaths { graph, ticks, to }.relax(&mut left, &forest.order);
    }
    Ok(left)
}

/// What the dearest turns of the loops at a depth cost.
fn measure_turns(graph: &Graph, forest: &mut LoopForest, left: &[u64], depth: usize) {
    if let Some(inside) = forest.depths.get(depth) {
        for way in &graph.ways {
            if way.cut == Cut::Paid(depth) {
                if let Some(number) = loop_at(inside, way.from) {
                    let turn = value_at(left, way.to).saturating_sub(TURN);
                    if let Some(found) = forest.loops.get_mut(number) {
                        found.turn = found.turn.max(turn);
                    }
                }
            }
        }
    }
}

/// The counter of a loop pays for its turns at a place of the loop.
fn pay(ticks: &mut Ticks, found: &Loop) {
    if let Some(counter) = found.payer {
        if counter < 4 {
            ticks.coeffs[counter] = ticks.coeffs[counter].max(found.turn);
        }
    }
}

/// The counters of loops pay for their turns.
fn pay_all(ticks: &mut [Ticks], loops: &[Loop], inside: &[Option<usize>]) {
    for (place, ticks) in ticks.iter_mut().enumerate() {
        if let Some(number) = loop_at(inside, place) {
            if let Some(found) = loops.get(number) {
                pay(ticks, found);
            }
        }
    }
}

/// The counters of the loops at a depth pay for their turns, also between the loops.
fn pay_turns(
    alloc: Global,
    graph: &Graph,
    forest: &LoopForest,
    ticks: &mut [Ticks],
    depth: usize,
) -> Result<(), AllocError> {
    if let Some(inside) = forest.depths.get(depth) {
        pay_all(ticks, &forest.loops, inside);
        carry_potentials(alloc, graph, forest, inside, ticks)?;
    }
    Ok(())
}

/// One tick has to be left at the ends.
fn end_ticks(alloc: Global, graph: &Graph) -> Result<Vec<u64>, AllocError> {
    let mut left = Vec::new(alloc);
    for node in &graph.nodes {
        left.push(u64::from(node.ends))?;
    }
    Ok(left)
}

/// What is left at each place, to the dearest end.
fn left_to_end<'a>(
    alloc: Global,
    graph: &'a Graph,
    ticks: &'a [Ticks],
    order: &[usize],
) -> Result<Vec<u64>, AllocError> {
    let mut left = end_ticks(alloc, graph)?;
    let to = Destination::End;
    LongestPaths { graph, ticks, to }.relax(&mut left, order);
    Ok(left)
}

/// The coefficients at all places: what the turns of the loops around them cost, inner loops first.
fn coefficients(
    alloc: Global,
    graph: &Graph,
    forest: &mut LoopForest,
) -> Result<Vec<Ticks>, AllocError> {
    let mut ticks = no_ticks(alloc, graph.nodes.len())?;
    for depth in (0..forest.depths.len()).rev() {
        let left = left_to_turn(alloc, graph, forest, &ticks, depth)?;
        measure_turns(graph, forest, &left, depth);
        pay_turns(alloc, graph, forest, &mut ticks, depth)?;
    }
    Ok(ticks)
}

/// Ticks that a row may have.
fn within_most(ticks: &Ticks, base: u64) -> Ticks {
    Ticks {
        base: MOST_TICKS.min(base),
        coeffs: ticks.coeffs.map(|coeff| MOST_TICKS.min(coeff)),
        lost: MOST_TICKS.min(ticks.lost),
    }
}

/// The ticks that are left at each place, with the loops of a forest.
fn ticks_in(
    alloc: Global,
    graph: &Graph,
    forest: &mut LoopForest,
) -> Result<Vec<Ticks>, AllocError> {
    let mut ticks = coefficients(alloc, graph, forest)?;
    let left = left_to_end(alloc, graph, &ticks, &forest.order)?;
    for (ticks, base) in ticks.iter_mut().zip(left.iter()) {
        *ticks = within_most(ticks, *base);
    }
    Ok(ticks)
}

/// The ticks with the least bound, of those with one counter favored or another.
fn least_ticks(
    alloc: Global,
    graph: &mut Graph,
    forest: &mut LoopForest,
) -> Result<Vec<Ticks>, AllocError> {
    let mut least = ticks_in(alloc, graph, forest)?;
    for counter in 0..4 {
        if forest.has_choice(counter) {
            let mut other = forest_of(alloc, graph, counter)?;
            let ticks = ticks_in(alloc, graph, &mut other)?;
            if bound(&ticks) < bound(&least) {
                least = ticks;
            }
        }
    }
    Ok(least)
}

/// The least ticks, where a lost arbitration pays so many.
fn counted_ticks(
    alloc: Global,
    board: &Board,
    program: &Program,
    graph: &mut Graph,
    lost: u64,
) -> Result<Vec<Ticks>, AllocError> {
    graph.cost_less(board, program, lost);
    let mut forest = forest_of(alloc, graph, 0)?;
    let least = least_ticks(alloc, graph, &mut forest)?;
    paid(alloc, &least, lost, board.contentions())
}

/// The least ticks of a graph. Lost arbitrations are paid for at each message, or as often as they
/// may come, whichever gives the lesser bound.
fn ticks_of(
    alloc: Global,
    board: &Board,
    program: &Program,
    graph: &mut Graph,
    forest: &mut LoopForest,
) -> Result<Vec<Ticks>, AllocError> {
    let each = least_ticks(alloc, graph, forest)?;
    let lost = dearest_loss(board, program);
    if lost == 0 || board.contentions() == 0 {
        return Ok(each);
    }
    let counted = counted_ticks(alloc, board, program, graph, lost)?;
    Ok(lesser(each, counted))
}

/// The ticks that are left at each place of a program, where its rows hold: an end has one left,
/// each other place enough for its ways.
///
/// A counter that only falls in a loop pays for the loop's turns. Where no counter does, and no
/// instruction breaks a duty of its own, it gives up at the loop's least place.
pub(crate) fn ticks_with_loops(
    alloc: Global,
    board: &Board,
    program: &Program,
    rows: &[Option<Row>],
) -> Result<Vec<Ticks>, FindFault>
    requires rows { HasRowsOf board.now (rows_view rows.now) }
{
    let mut graph = graph_of(alloc, board, program, rows)?;
    let mut forest = forest_of(alloc, &mut graph, 0)?;
    match forest.unbounded() {
        Some(place) if !graph.breaks_duty => Err(FindFault::GaveUp(place)),
        _ => Ok(ticks_of(alloc, board, program, &mut graph, &mut forest)?),
    }
}
