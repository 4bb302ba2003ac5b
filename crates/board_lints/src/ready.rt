//! Rails that come good one after another, each when its needs are.

ghost use Rattle.std.specs.Prelude.{◌≡◌, ◌<◌, ◌↔◌, ℕ, All, IsTrue, MatchOption, Some, false, IfOk};
ghost use Rattle.std.specs.Prelude.{length, slice_get};
ghost use Rattle.board.specs.Boards.{Rail};
ghost use Rattle.board_lints.specs.Reasons.{CanComeGood, TakesIn};
ghost use Rattle.board_lints.specs.Ready.{is_ready, AreRails, AreAmong};

use board::{Board, Rail};
use std::alloc::AllocError;

pub(crate) fn is_ready(ready: &[usize], rail: usize) -> bool
    ensures { result ≡ is_ready ready.now rail }
{
    ready.iter().any(|other| rail == *other)
}

/// Whether all needs of a rail are.
fn are_ready(ready: &[usize], rail: &Rail) -> bool
    ensures { IsTrue result ↔ All (λ need. IsTrue (is_ready ready.now need)) rail.now.needs }
{
    rail.needs().iter().all(|need| is_ready(ready, *need))
}

/// Whether a rail isn't ready, and all of its needs are.
fn is_next(ready: &[usize], index: usize, rail: &Rail) -> bool
    ensures next { IsTrue result → (is_ready ready.now index ≡ false)
        × All (λ need. IsTrue (is_ready ready.now need)) rail.now.needs }
    ensures waits { result ≡ false → All (λ need. IsTrue (is_ready ready.now need)) rail.now.needs
        → IsTrue (is_ready ready.now index) }
{
    !is_ready(ready, index) && are_ready(ready, rail)
}

/// The first rail that isn't ready, and whose needs all are.
fn next_ready(board: &Board, ready: &[usize]) -> Option<usize>
    ensures { MatchOption result
        (TakesIn board.now (is_ready ready.now))
        (λ d. (is_ready ready.now d ≡ false) × ((r : Rail) × (slice_get board.now.rails d ≡ Some r)
        × All (λ need. IsTrue (is_ready ready.now need)) r.needs)) }
{
    for (index, rail) in board.rails().iter().enumerate() {
        if is_next(ready, index, rail) {
            return Some(index);
        }
    }
    None
}

/// The rails that come good where some are, each with its needs before it.
pub(crate) fn ready_after(board: &Board, some: Vec<usize>) -> Result<Vec<usize>, AllocError>
    requires { AreRails board.now some.items }
    ensures good { IfOk result (λ ready. ((d : ℕ) → IsTrue (is_ready some.items d)
        → CanComeGood board.now d) → (d : ℕ) → IsTrue (is_ready ready.items d)
        → CanComeGood board.now d) }
    ensures all { IfOk result (λ ready. TakesIn board.now (is_ready ready.items)) }
    ensures rails { IfOk result (λ ready. AreRails board.now ready.items) }
    ensures kept { IfOk result (λ ready. AreAmong some.items ready.items) }
{
    let mut ready = some;
    while let Some(rail) = next_ready(board, &ready) {
        ready.push(rail)?;
    }
    Ok(ready)
}

/// The first rail that isn't ready.
pub(crate) fn first_stuck(board: &Board, ready: &[usize]) -> Option<usize>
    ensures { MatchOption result
        ((d : ℕ) → d < length board.now.rails → IsTrue (is_ready ready.now d))
        (λ d. (d < length board.now.rails) × (is_ready ready.now d ≡ false)) }
{
    for rail in 0..board.rails().len() {
        if !is_ready(ready, rail) {
            return Some(rail);
        }
    }
    None
}

/// The rails with another one, if the board has it and it isn't among them.
fn with_rail(board: &Board, rails: Vec<usize>, rail: usize) -> Result<Vec<usize>, AllocError>
    requires { AreRails board.now rails.items }
    ensures rails { IfOk result (λ more. AreRails board.now more.items) }
    ensures kept { IfOk result (λ more. AreAmong rails.items more.items) }
    ensures has { IfOk result
        (λ more. rail < length board.now.rails → IsTrue (is_ready more.items rail)) }
{
    if rail >= board.rails().len() || is_ready(&rails, rail) {
        return Ok(rails);
    }
    let mut more = rails;
    more.push(rail)?;
    Ok(more)
}

pub(crate) fn with_rails(
    board: &Board,
    rails: Vec<usize>,
    others: &[usize],
) -> Result<Vec<usize>, AllocError>
    requires rails { AreRails board.now rails.items }
    requires others { (d : ℕ) → IsTrue (is_ready others.now d) → d < length board.now.rails }
    ensures rails { IfOk result (λ more. AreRails board.now more.items) }
    ensures kept { IfOk result (λ more. AreAmong rails.items more.items) }
    ensures has { IfOk result (λ more. AreAmong others.now more.items) }
{
    let mut more = rails;
    for other in others {
        more = with_rail(board, more, *other)?;
    }
    Ok(more)
}
