//! The parts of a drafted program, from the top.

ghost use Rattle.std.specs.Prelude.{◌≡◌, ◌++◌, map, reverse, OnOk, IfOk};
ghost use Rattle.drafts.specs.Outline.{outline};

use crate::opening::{targets_to_open, targets_to_protect};
use crate::part::Part;
use board::Board;
use plans::Plan;
use std::alloc::{AllocError, Global};

fn push_opens(parts: &mut Vec<Part>, targets: &[usize]) -> Result<(), AllocError>
    ensures { OnOk result (parts.new.items ≡ parts.old.items ++ map Part.Open targets.now) }
{
    for target in targets {
        parts.push(Part::Open(*target))?;
    }
    Ok(())
}

fn push_on(parts: &mut Vec<Part>, order: &[usize]) -> Result<(), AllocError>
    ensures { OnOk result (parts.new.items ≡ parts.old.items ++ map Part.TurnOn order.now) }
{
    for rail in order {
        parts.push(Part::TurnOn(*rail))?;
    }
    Ok(())
}

fn push_protects(parts: &mut Vec<Part>, targets: &[usize]) -> Result<(), AllocError>
    ensures { OnOk result (parts.new.items ≡ parts.old.items ++ map Part.Protect targets.now) }
{
    for target in targets {
        parts.push(Part::Protect(*target))?;
    }
    Ok(())
}

/// Adds that the rails are turned off, from the last of the order on.
fn push_off(parts: &mut Vec<Part>, order: &[usize]) -> Result<(), AllocError>
    ensures { OnOk result
        (parts.new.items ≡ parts.old.items ++ map Part.TurnOff (reverse order.now)) }
{
    for rail in order.iter().rev() {
        parts.push(Part::TurnOff(*rail))?;
    }
    Ok(())
}

/// The parts of a program that turns on the rails in an order, and turns them off from the last
/// on where it gives up.
pub(crate) fn parts_of(
    alloc: Global,
    board: &Board,
    plan: &Plan,
    order: &[usize],
) -> Result<Vec<Part>, AllocError>
    ensures { IfOk result (λ parts.
        parts.items ≡ outline board.now plan.now.wishes.items order.now) }
{
    let mut parts = Vec::new(alloc);
    let opened = targets_to_open(alloc, board, plan)?;
    push_opens(&mut parts, &opened)?;
    push_on(&mut parts, order)?;
    let protected = targets_to_protect(alloc, board, plan)?;
    push_protects(&mut parts, &protected)?;
    push_off(&mut parts, order)?;
    Ok(parts)
}
