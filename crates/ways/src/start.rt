//! How a board may start, each start by itself.

ghost use Rattle.std.specs.Prelude.{IfOk, All, Contains};
ghost use Rattle.facts.specs.domain.Rows.{row_view};
ghost use Rattle.facts.specs.domain.Sets.{is_page, is_protect, pages_in, protects_in};
ghost use Rattle.ways.specs.Starts.{AreStartPages, AreStartProtects};
ghost use Rattle.ways.specs.Trails.{IsStartEdge};
ghost use Rattle.ways.specs.Ways.{IsChosen, IsStart};

use board::{Board, Target};
use facts::{PageSet, ProtectSet, Row};
use std::alloc::{AllocError, Global};

/// So many starts at most are told apart.
const MOST_STARTS: usize = 1024;

/// Which of the values count that registers of the targets may start with.
#[derive(Clone, Copy)]
enum Choice {
    All,
    /// One of each: the number of a start, divided by how many values the registers before had.
    One(usize),
}

impl Choice {
    /// Those of the next register.
    fn of_next<'a>(&mut self, values: &'a [u8]) -> &'a [u8]
        ensures { All (Contains values.now) result.now }
    {
        let Choice::One(number) = *self else {
            return values;
        };
        let count = values.len().max(1);
        *self = Choice::One(number / count);
        let index = number % count;
        values.get(index..index.saturating_add(1)).unwrap_or(&[])
    }
}

/// The set of some pages.
fn page_set(alloc: Global, values: &[u8]) -> Result<PageSet, AllocError>
    ensures { IfOk result (λ set. IsChosen is_page values.now (pages_in set)) }
{
    match PageSet::of(alloc, values)? {
        Some(set) => Ok(set),
        None => Ok(PageSet::empty()),
    }
}

/// The set of some protections.
fn protect_set(alloc: Global, values: &[u8]) -> Result<ProtectSet, AllocError>
    ensures { IfOk result (λ set. IsChosen is_protect values.now (protects_in set)) }
{
    match ProtectSet::of(alloc, values)? {
        Some(set) => Ok(set),
        None => Ok(ProtectSet::empty()),
    }
}

/// Of each target, the pages that count.
fn page_sets(
    alloc: Global,
    targets: &[Target],
    choice: &mut Choice,
) -> Result<Vec<PageSet>, AllocError>
    ensures { IfOk result (λ sets. AreStartPages targets.now sets.items) }
{
    let mut sets = Vec::new(alloc);
    for target in targets {
        sets.push(page_set(alloc, choice.of_next(target.start_pages()))?)?;
    }
    Ok(sets)
}

/// Of each target, the protections that count.
fn protect_sets(
    alloc: Global,
    targets: &[Target],
    choice: &mut Choice,
) -> Result<Vec<ProtectSet>, AllocError>
    ensures { IfOk result (λ sets. AreStartProtects targets.now sets.items) }
{
    let mut sets = Vec::new(alloc);
    for target in targets {
        sets.push(protect_set(alloc, choice.of_next(target.start_protects()))?)?;
    }
    Ok(sets)
}

/// What is known where a board starts so.
fn start_row(alloc: Global, board: &Board, mut choice: Choice) -> Result<Row, AllocError>
    ensures { IfOk result (λ row. IsStart board.now (row_view row)) }
{
    let pages = page_sets(alloc, board.targets(), &mut choice)?;
    let protects = protect_sets(alloc, board.targets(), &mut choice)?;
    Ok(Row::at_start(pages, protects))
}

/// How many starts a board has.
fn start_count(board: &Board) -> usize {
    let mut count = 1usize;
    for target in board.targets() {
        let pages = target.start_pages().len();
        let protects = target.start_protects().len();
        count = count.saturating_mul(pages).saturating_mul(protects);
    }
    count
}

/// Whether the starts of a board are told apart.
fn are_apart(board: &Board) -> bool {
    start_count(board) <= MOST_STARTS
}

/// The edges to place 0: one for each start of the board, PAGE of the first target changing
/// fastest, or one for all where they are many.
pub(crate) fn start_edges(
    alloc: Global,
    board: &Board,
) -> Result<Vec<(usize, Row, u64)>, AllocError>
    ensures { IfOk result (λ es. All (IsStartEdge board.now) es.items) }
{
    let mut edges = Vec::new(alloc);
    if !are_apart(board) {
        edges.push((0, start_row(alloc, board, Choice::All)?, 0))?;
        return Ok(edges);
    }
    for number in 0..start_count(board) {
        edges.push((0, start_row(alloc, board, Choice::One(number))?, 0))?;
    }
    Ok(edges)
}
