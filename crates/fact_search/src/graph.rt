//! Where a program leads, by what is known at its places.

ghost use Rattle.table_check.specs.checker.Looking.{HasRowsOf};
ghost use Rattle.table_check.specs.Tables.{rows_view};

use crate::leading::edges_at;
use crate::lost::most_cost;
use board::Board;
use facts::{Row, Span, duty};
use seq_program::{Instr, Program};
use std::alloc::{AllocError, Global};
use table_check::row_at;

/// Whether a way counts where loops are looked for.
#[derive(Clone, Copy, PartialEq, Eq)]
pub(crate) enum Cut {
    Open,
    /// It leads back in a loop at this depth, and the loop's counter pays for the turn.
    Paid(usize),
    /// It leads back in a loop that no counter bounds.
    Unpaid,
}

/// A way from a place to another.
#[derive(Clone, Copy)]
pub(crate) struct Way {
    pub(crate) from: usize,
    pub(crate) to: usize,
    /// The most ticks that the way takes.
    pub(crate) ticks: u64,
    /// The counters on this way.
    pub(crate) counters: [Span; 4],
    /// The counter from which the way takes one off.
    pub(crate) takes: Option<usize>,
    pub(crate) cut: Cut,
}

/// A place of the program.
#[derive(Clone, Copy)]
pub(crate) struct Node {
    /// The number of its first way.
    pub(crate) first: usize,
    /// How many ways it has.
    pub(crate) count: usize,
    /// The counter that its instruction sets.
    pub(crate) sets: Option<usize>,
    /// The program ends here.
    pub(crate) ends: bool,
}

/// The places and the ways between them.
#[derive(Drop)]
pub(crate) struct Graph {
    pub(crate) nodes: Vec<Node>,
    /// In the order of the places where they begin.
    pub(crate) ways: Vec<Way>,
    /// Some place's instruction breaks a duty of its own.
    pub(crate) breaks_duty: bool,
}

impl Graph {
    /// The ways of a place.
    pub(crate) fn ways_of(&self, place: usize) -> &[Way] {
        let Some(Node { first, count, .. }) = self.nodes.get(place).copied() else {
            return &[];
        };
        self.ways
            .get(first..first.saturating_add(count))
            .unwrap_or(&[])
    }

    /// No way costs more than where a lost arbitration pays so many ticks.
    pub(crate) fn cost_less(&mut self, board: &Board, program: &Program, lost: u64) {
        for way in &mut self.ways {
            way.ticks = way.ticks.min(most_cost(board, program, way.from, lost));
        }
    }

    /// The counter that a place's instruction sets.
    pub(crate) fn sets(&self, place: usize) -> Option<usize> {
        self.nodes.get(place)?.sets
    }
}

/// The counter from which an instruction takes one off along its first edge.
fn counter_taken(instr: &Instr, row: &Row) -> Option<usize> {
    match instr {
        Instr::Again { counter, .. } => {
            let index = counter.index();
            if row.counters[index].hi >= 1 {
                Some(index)
            } else {
                None
            }
        }
        _ => None,
    }
}

/// The counter that an instruction sets.
fn counter_set(instr: &Instr) -> Option<usize> {
    match instr {
        Instr::Count { counter, .. } => Some(counter.index()),
        _ => None,
    }
}

fn ends(instr: &Instr) -> bool {
    match instr {
        Instr::End | Instr::Fail => true,
        _ => false,
    }
}

/// The ways of the edges of a place join the others. The first edge takes one off a counter.
fn push_ways(
    ways: &mut Vec<Way>,
    from: usize,
    edges: &[(usize, Row, u64)],
    taken: Option<usize>,
) -> Result<(), AllocError> {
    for (number, edge) in edges.iter().enumerate() {
        let (to, row, ticks) = edge;
        ways.push(Way {
            from,
            to: *to,
            ticks: *ticks,
            counters: row.counters,
            takes: if number == 0 { taken } else { None },
            cut: Cut::Open,
        })?;
    }
    Ok(())
}

/// A place that has an instruction and a row joins the graph, with its ways.
fn push_place(
    graph: &mut Graph,
    edges: &[(usize, Row, u64)],
    board: &Board,
    place: usize,
    instr: &Instr,
    row: &Row,
) -> Result<(), AllocError> {
    let first = graph.ways.len();
    push_ways(&mut graph.ways, place, edges, counter_taken(instr, row))?;
    graph.nodes.push(Node {
        first,
        count: edges.len(),
        sets: counter_set(instr),
        ends: ends(instr),
    })?;
    if duty(board, instr, row).is_some() {
        graph.breaks_duty = true;
    }
    Ok(())
}

/// A place that isn't reached joins the graph.
fn push_unreached(graph: &mut Graph) -> Result<(), AllocError> {
    graph.nodes.push(Node {
        first: 0,
        count: 0,
        sets: None,
        ends: false,
    })?;
    Ok(())
}

/// The places of a program, with the ways that its rows leave open. A place that has no row, or
/// whose instruction breaks a duty, leads nowhere.
pub(crate) fn graph_of(
    alloc: Global,
    board: &Board,
    program: &Program,
    rows: &[Option<Row>],
) -> Result<Graph, AllocError>
    requires rows { HasRowsOf board.now (rows_view rows.now) }
{
    let mut graph = Graph {
        nodes: Vec::new(alloc),
        ways: Vec::new(alloc),
        breaks_duty: false,
    };
    for place in 0..rows.len() {
        match (program.at(place), row_at(rows, place)) {
            (Some(instr), Some(row)) => {
                let edges = edges_at(alloc, board, program, rows, place)?;
                push_place(&mut graph, &edges, board, place, instr, row)?;
            }
            _ => push_unreached(&mut graph)?,
        }
    }
    Ok(graph)
}
