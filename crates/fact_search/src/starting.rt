//! The row of the start.

ghost use Rattle.std.specs.Prelude.{IfOk, IsTrue, All};
ghost use Rattle.board.specs.Boards.{Target};
ghost use Rattle.board.specs.Valid.{IsTarget};
ghost use Rattle.facts.specs.domain.Rows.{row_view};
ghost use Rattle.facts.specs.domain.Sets.{is_page, is_protect, pages_in, protects_in};
ghost use Rattle.fact_search.specs.Starting.{HoldsJust, HoldEachStart, IsStartRow};

use board::{Board, Target};
use facts::{PageSet, ProtectSet, Row};
use std::alloc::{AllocError, Global};

/// The set of these pages.
fn page_set(alloc: Global, values: &[u8]) -> Result<PageSet, AllocError>
    requires { All (λ v. IsTrue (is_page v)) values.now }
    ensures { IfOk result (λ set. HoldsJust (pages_in set) values.now) }
{
    match PageSet::of(alloc, values)? {
        Some(set) => Ok(set),
        None => unreachable!(),
    }
}

/// The set of these protections.
fn protect_set(alloc: Global, values: &[u8]) -> Result<ProtectSet, AllocError>
    requires { All (λ v. IsTrue (is_protect v)) values.now }
    ensures { IfOk result (λ set. HoldsJust (protects_in set) values.now) }
{
    match ProtectSet::of(alloc, values)? {
        Some(set) => Ok(set),
        None => unreachable!(),
    }
}

/// Of each target, the pages that it may start with.
fn start_pages(alloc: Global, targets: &[Target]) -> Result<Vec<PageSet>, AllocError>
    requires { All IsTarget targets.now }
    ensures { IfOk result (λ sets. HoldEachStart pages_in (λ t. t.start_pages)
        sets.items targets.now) }
{
    let mut sets = Vec::new(alloc);
    for target in targets {
        sets.push(page_set(alloc, target.start_pages())?)?;
    }
    Ok(sets)
}

/// Of each target, the protections that it may start with.
fn start_protects(alloc: Global, targets: &[Target]) -> Result<Vec<ProtectSet>, AllocError>
    requires { All IsTarget targets.now }
    ensures { IfOk result (λ sets. HoldEachStart protects_in (λ t. t.start_protects)
        sets.items targets.now) }
{
    let mut sets = Vec::new(alloc);
    for target in targets {
        sets.push(protect_set(alloc, target.start_protects())?)?;
    }
    Ok(sets)
}

/// What is known at the start, and no more: each value that a target's PAGE and WRITE_PROTECT may
/// have, no good rail, 0 in each register and counter, no sources, and no lost arbitration.
pub(crate) fn start_row(alloc: Global, board: &Board) -> Result<Row, AllocError>
    ensures { IfOk result (λ row. IsStartRow board.now (row_view row)) }
{
    let pages = start_pages(alloc, board.targets())?;
    let protects = start_protects(alloc, board.targets())?;
    Ok(Row::at_start(pages, protects))
}
