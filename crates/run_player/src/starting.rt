//! How the targets start.

ghost use Rattle.std.specs.Prelude.{◌<◌, length, Contains, IfOk};
ghost use Rattle.run_player.specs.StartValues.{AreListed};
ghost use Rattle.targets.specs.States.{IsStart};
ghost use Rattle.simulator.specs.Machines.{start_state};

use crate::chance::Chance;
use board::Board;
use std::alloc::{AllocError, Global};

/// One of the values of a list that isn't empty.
fn one_among(chance: &mut Chance, values: &[u8]) -> u8
    requires { 0 < length values.now }
    ensures { Contains values.now result }
{
    let index = chance.one_of(values.len().min(256) as u32) as usize;
    match values.get(index) {
        Some(value) => *value,
        None => values[0],
    }
}

/// A start value of PAGE for each target.
fn start_pages(alloc: Global, board: &Board, chance: &mut Chance) -> Result<Vec<u8>, AllocError>
    ensures { IfOk result
        (λ pages. AreListed (λ t. t.start_pages) pages.items board.now.targets) }
{
    let mut pages = Vec::new(alloc);
    for target in board.targets() {
        pages.push(one_among(chance, target.start_pages()))?;
    }
    Ok(pages)
}

/// A start value of WRITE_PROTECT for each target.
fn start_protects(alloc: Global, board: &Board, chance: &mut Chance) -> Result<Vec<u8>, AllocError>
    ensures { IfOk result
        (λ protects. AreListed (λ t. t.start_protects) protects.items board.now.targets) }
{
    let mut protects = Vec::new(alloc);
    for target in board.targets() {
        protects.push(one_among(chance, target.start_protects()))?;
    }
    Ok(protects)
}

/// The values of PAGE and WRITE_PROTECT with which the targets start.
pub(crate) fn start_values(
    alloc: Global,
    board: &Board,
    chance: &mut Chance,
) -> Result<(Vec<u8>, Vec<u8>), AllocError>
    ensures { IfOk result
        (λ values. IsStart board.now (start_state values.0.items values.1.items)) }
{
    let pages = start_pages(alloc, board, chance)?;
    let protects = start_protects(alloc, board, chance)?;
    Ok((pages, protects))
}
