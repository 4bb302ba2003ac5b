//! The names of rails.

ghost use Rattle.std.specs.Prelude.{◌≡◌, map, IfOk};
ghost use Rattle.std.specs.List.{filter, range_with_len};
ghost use Rattle.facts.specs.domain.Sets.{rails_in};
ghost use Rattle.sentences.specs.Rails.{names_in, names_of};

use crate::Result;
use board::Board;
use facts::GoodSet;
use std::alloc::Global;

/// The rails below one that are in a set.
fn rails_below(alloc: Global, end: u8, rails: GoodSet) -> Result<Vec<u8>>
    ensures { IfOk result
        (λ found. found.items ≡ filter (rails_in rails) (range_with_len 0 end)) }
{
    (0..end).filter(|rail| rails.contains(*rail)).collect(alloc)
}

/// The names of some rails.
fn names_of<'b>(alloc: Global, board: &'b Board, rails: &[u8]) -> Result<Vec<&'b str>>
    ensures { IfOk result
        (λ names. map (λ n. n.now) names.items ≡ names_of board.now rails.now) }
{
    let mut names = Vec::new(alloc);
    for rail in rails {
        names.push(board.rail_name(usize::from(*rail)).unwrap_or(""))?;
    }
    Ok(names)
}

/// The names of a board's rails that are in a set, in its order. Fails only for want of memory.
pub fn rail_names<'b>(alloc: Global, board: &'b Board, rails: GoodSet) -> Result<Vec<&'b str>>
    ensures { IfOk result (λ names. map (λ n. n.now) names.items ≡ names_in board.now rails) }
{
    let rails = rails_below(alloc, board.rails().len() as u8, rails)?;
    names_of(alloc, board, &rails)
}
