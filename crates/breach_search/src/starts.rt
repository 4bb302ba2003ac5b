//! How the targets may start.

use board::Board;
use std::alloc::{AllocError, Global};

/// The values of PAGE and WRITE_PROTECT of each target at a start.
#[derive(Drop)]
pub(crate) struct Start {
    pub pages: Vec<u8>,
    pub protects: Vec<u8>,
}

/// The start where one target has these values of its lists, counted from 0, and all others their
/// first.
fn start_with(
    alloc: Global,
    board: &Board,
    index: usize,
    page: usize,
    protect: usize,
) -> Result<Start, AllocError> {
    let mut pages = Vec::new(alloc);
    let mut protects = Vec::new(alloc);
    for (at, target) in board.targets().iter().enumerate() {
        let (page, protect) = if at == index { (page, protect) } else { (0, 0) };
        pages.push(target.start_pages().get(page).copied().unwrap_or(0))?;
        protects.push(target.start_protects().get(protect).copied().unwrap_or(0))?;
    }
    Ok(Start { pages, protects })
}

/// Adds the starts where a target has this WRITE_PROTECT of its list and any of so many pages, and
/// all others their first.
fn push_pages(
    alloc: Global,
    starts: &mut Vec<Start>,
    board: &Board,
    index: usize,
    pages: usize,
    protect: usize,
) -> Result<(), AllocError> {
    for page in 0..pages {
        starts.push(start_with(alloc, board, index, page, protect)?)?;
    }
    Ok(())
}

/// Adds the starts where a target has any of so many values, and all others their first.
fn push_starts(
    alloc: Global,
    starts: &mut Vec<Start>,
    board: &Board,
    index: usize,
    pages: usize,
    protects: usize,
) -> Result<(), AllocError> {
    for protect in 0..protects {
        push_pages(alloc, starts, board, index, pages, protect)?;
    }
    Ok(())
}

/// The starts that are tried: in each one target at most has another value than its first.
pub(crate) fn starts_of(alloc: Global, board: &Board) -> Result<Vec<Start>, AllocError> {
    let mut starts = Vec::new(alloc);
    for (index, target) in board.targets().iter().enumerate() {
        let pages = target.start_pages().len();
        let protects = target.start_protects().len();
        push_starts(alloc, &mut starts, board, index, pages, protects)?;
    }
    Ok(starts)
}
