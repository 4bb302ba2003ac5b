//! Rails that need each other in a circle.

ghost use Rattle.std.specs.Prelude.{◌≡◌, ◌<◌, ◌↔◌, ℕ, length, slice_get, IfOk, IsTrue};
ghost use Rattle.std.specs.Prelude.{OnOk, MatchOption, Some, false};
ghost use Rattle.board_lints.specs.Reasons.{TakesIn, AllCanComeGood};
ghost use Rattle.board_lints.specs.Lints.{Needs, GoesRound, TellsCircles};
ghost use Rattle.board_lints.specs.OneCircle.{TellsCircle};
ghost use Rattle.board_lints.specs.Ready.{is_ready, AreRails};

use crate::lint::Lint;
use crate::ready::{first_stuck, is_ready, ready_after, with_rails};
use board::{Board, board_is_valid};
use std::alloc::{AllocError, Global};

/// The first need of a rail that isn't ready, where a rail is as soon as its needs are.
fn stuck_need(board: &Board, ready: &[usize], rail: usize) -> usize
    requires all { TakesIn board.now (is_ready ready.now) }
    requires rail { rail < length board.now.rails }
    requires stuck { is_ready ready.now rail ≡ false }
    ensures need { Needs board.now rail result }
    ensures rail { result < length board.now.rails }
    ensures stuck { is_ready ready.now result ≡ false }
{
    board_is_valid(board);
    let Some(stuck) = board.rail(rail) else {
        unreachable!()
    };
    for need in stuck.needs() {
        if !is_ready(ready, *need) {
            return *need;
        }
    }
    unreachable!()
}

/// Where a rail is on a way, if it is.
fn place_on(way: &[usize], rail: usize) -> Option<usize>
    ensures { MatchOption result (is_ready way.now rail ≡ false)
        (λ place. slice_get way.now place ≡ Some rail) }
{
    for (place, other) in way.iter().enumerate() {
        if *other == rail {
            return Some(place);
        }
    }
    None
}

/// The needs that aren't ready, from a rail on until one comes again: from there on they go round.
fn circle_from(
    alloc: Global,
    board: &Board,
    ready: &[usize],
    stuck: usize,
) -> Result<Vec<usize>, AllocError>
    requires all { TakesIn board.now (is_ready ready.now) }
    requires rail { stuck < length board.now.rails }
    requires stuck { is_ready ready.now stuck ≡ false }
    ensures round { IfOk result (λ circle. GoesRound board.now circle.items) }
    ensures rails { IfOk result (λ circle. (d : ℕ) → IsTrue (is_ready circle.items d)
        → d < length board.now.rails) }
    ensures stuck { IfOk result (λ circle. (d : ℕ) → IsTrue (is_ready circle.items d)
        → is_ready ready.now d ≡ false) }
{
    let mut way = Vec::new(alloc);
    let mut here = stuck;
    loop {
        if let Some(first) = place_on(&way, here) {
            return way.split_off(first);
        }
        way.push(here)?;
        here = stuck_need(board, ready, here);
    }
}

/// A lint of the circle to which the needs of a rail lead. The rails that come good where
/// those of the circle are.
fn push_circle(
    alloc: Global,
    lints: &mut Vec<Lint>,
    board: &Board,
    ready: Vec<usize>,
    stuck: usize,
) -> Result<Vec<usize>, AllocError>
    requires rails { AreRails board.now ready.items }
    requires all { TakesIn board.now (is_ready ready.items) }
    requires rail { stuck < length board.now.rails }
    requires stuck { is_ready ready.items stuck ≡ false }
    ensures told { IfOk result (λ after. TellsCircle board.now ready.items after.items
        lints.old.items lints.new.items) }
    ensures rails { IfOk result (λ ready. AreRails board.now ready.items) }
    ensures all { IfOk result (λ ready. TakesIn board.now (is_ready ready.items)) }
{
    let circle = circle_from(alloc, board, &ready, stuck)?;
    let ready = ready_after(board, with_rails(board, ready, &circle)?)?;
    lints.push(Lint::Circle(circle))?;
    Ok(ready)
}

/// Lints of the circle of a rail, and then about others.
fn push_circles_from(
    alloc: Global,
    lints: &mut Vec<Lint>,
    board: &Board,
    ready: Vec<usize>,
    stuck: usize,
) -> Result<(), AllocError>
    requires rails { AreRails board.now ready.items }
    requires all { TakesIn board.now (is_ready ready.items) }
    requires rail { stuck < length board.now.rails }
    requires stuck { is_ready ready.items stuck ≡ false }
    ensures told { OnOk result (TellsCircles board.now lints.old.items lints.new.items) }
    ensures some { OnOk result (length lints.old.items < length lints.new.items) }
{
    let mut ready = push_circle(alloc, lints, board, ready, stuck)?;
    for _ in board.rails() {
        let Some(stuck) = first_stuck(board, &ready) else {
            break;
        };
        ready = push_circle(alloc, lints, board, ready, stuck)?;
    }
    Ok(())
}

/// A lint for each circle of needs.
pub(crate) fn push_circles(
    alloc: Global,
    lints: &mut Vec<Lint>,
    board: &Board,
) -> Result<(), AllocError>
    ensures told { OnOk result (TellsCircles board.now lints.old.items lints.new.items) }
    ensures none { OnOk result
        ((lints.new.items ≡ lints.old.items) ↔ AllCanComeGood board.now) }
{
    let ready = ready_after(board, Vec::new(alloc))?;
    match first_stuck(board, &ready) {
        Some(stuck) => {
            push_circles_from(alloc, lints, board, ready, stuck)?;
            Ok(())
        }
        None => Ok(()),
    }
}
