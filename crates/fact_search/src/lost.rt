//! What lost arbitrations cost, and where they are paid for.

ghost use Rattle.std.specs.Prelude.{◌≡◌, ◌≤◌, ◌⊎◌, IfOk, IfSome, slice_get};
ghost use Rattle.simulator.specs.ForeignTicks.{foreign_ticks};
ghost use Rattle.fact_search.specs.Ticking.{ahead, later, most_cost, paid};

use crate::loops::Ticks;
use board::Board;
use facts::{foreign_ticks, own_ticks};
use seq_program::Program;
use simulator::MOST_TICKS;
use std::alloc::{AllocError, Global};

/// What a lost arbitration costs more than the message of a place itself.
fn loss_at(board: &Board, program: &Program, place: usize) -> u64
    ensures { result ≤ foreign_ticks board.now }
{
    match program.at(place) {
        Some(instr) if instr.otherwise().is_some() => {
            foreign_ticks(board).saturating_sub(own_ticks(board, instr))
        }
        _ => 0,
    }
}

/// What a lost arbitration costs more than any message itself, at most.
pub(crate) fn dearest_loss(board: &Board, program: &Program) -> u64
    ensures { result ≤ foreign_ticks board.now }
{
    let mut most = 0;
    for place in 0..program.places() {
        most = most.max(loss_at(board, program, place));
    }
    most
}

/// What a way of a place costs at most, where a lost arbitration pays so many ticks: the
/// instruction's own, or what is left of the longest frame of another controller.
pub(crate) fn most_cost(board: &Board, program: &Program, place: usize, lost: u64) -> u64
    ensures { IfSome (slice_get program.now place) (λ i. result ≡ most_cost board.now lost i) }
{
    match program.at(place) {
        Some(instr) => own_ticks(board, instr).max(foreign_ticks(board).saturating_sub(lost)),
        None => 0,
    }
}

/// The ticks at place 0, where all arbitrations that may be lost are paid for beforehand.
fn ahead(left: &Ticks, lost: u64, most: u16) -> Ticks
    ensures { result ≡ ahead lost most left.now }
{
    let all = lost.saturating_mul(u64::from(most));
    Ticks {
        base: MOST_TICKS.min(left.base.saturating_add(all)),
        ..*left
    }
}

/// The ticks at another place, where each arbitration that may still be lost is paid for.
fn later(left: &Ticks, lost: u64) -> Ticks
    ensures { result ≡ later lost left.now }
{
    Ticks { lost, ..*left }
}

/// Ticks that pay also for lost arbitrations, at most so many, each with so many ticks.
pub(crate) fn paid(
    alloc: Global,
    lefts: &[Ticks],
    lost: u64,
    most: u16,
) -> Result<Vec<Ticks>, AllocError>
    ensures { IfOk result (λ out. out.items ≡ paid lost most lefts.now) }
{
    let Some((first, rest)) = lefts.split_first() else {
        return Ok(Vec::new(alloc));
    };
    let mut out = Vec::with_capacity(alloc, lefts.len())?;
    out.push(ahead(first, lost, most))?;
    for left in rest {
        out.push(later(left, lost))?;
    }
    Ok(out)
}

/// The bound on all ticks.
pub(crate) fn bound(ticks: &[Ticks]) -> u64 {
    match ticks.first() {
        Some(start) => start.base,
        None => 0,
    }
}

/// Those ticks of two whose bound is less.
pub(crate) fn lesser(ticks: Vec<Ticks>, other: Vec<Ticks>) -> Vec<Ticks>
    ensures { (result.items ≡ ticks.items) ⊎ (result.items ≡ other.items) }
{
    if bound(&other) < bound(&ticks) {
        other
    } else {
        ticks
    }
}
