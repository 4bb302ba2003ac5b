//! How far a span goes that grows along a jump back: widening with thresholds, the numbers that the
//! program names (Blanchet and others, 2003).

ghost use Rattle.std.specs.Prelude.{◌≤◌};
ghost use Rattle.facts.specs.domain.Rows.{SpanCovers};

use crate::forward::is_forward;
use facts::Span;
use seq_program::{Instr, Program};
use std::alloc::{AllocError, Global};

/// Where there would be more sums than this, none is made.
const MOST_SUMS: usize = 4096;

/// The numbers at which a span stops that grows along a jump back, ascending.
#[derive(Drop)]
pub(crate) struct Stops {
    numbers: Vec<u16>,
}

/// Ascending, each number once.
fn in_order(mut numbers: Vec<u16>) -> Vec<u16> {
    numbers.sort_unstable();
    numbers.dedup();
    numbers
}

/// The number that an instruction sets or compares with.
fn number_in(instr: &Instr) -> Option<u16> {
    match instr {
        Instr::Set { value, .. }
        | Instr::If { value, .. }
        | Instr::Above { value, .. }
        | Instr::Count { value, .. } => Some(*value),
        _ => None,
    }
}

/// The least number that `above` jumps at.
fn number_above(instr: &Instr) -> Option<u16> {
    match instr {
        Instr::Above { value, .. } => Some(value.saturating_add(1)),
        _ => None,
    }
}

/// The numbers that instructions set or compare with, and the least that they jump above.
fn numbers_in(alloc: Global, program: &Program) -> Result<Vec<u16>, AllocError> {
    let mut numbers = Vec::new(alloc);
    for place in 0..program.places() {
        if let Some(instr) = program.at(place) {
            if let Some(number) = number_in(instr) {
                numbers.push(number)?;
            }
            if let Some(number) = number_above(instr) {
                numbers.push(number)?;
            }
        }
    }
    Ok(in_order(numbers))
}

/// The numbers that instructions add.
fn added_in(alloc: Global, program: &Program) -> Result<Vec<u16>, AllocError> {
    let mut added = Vec::new(alloc);
    for place in 0..program.places() {
        if let Some(Instr::Add { value, .. }) = program.at(place) {
            added.push(*value)?;
        }
    }
    Ok(in_order(added))
}

/// The sums of one number with each that is added join the others.
fn push_sums(sums: &mut Vec<u16>, number: u16, added: &[u16]) -> Result<(), AllocError> {
    for more in added {
        sums.push(number.saturating_add(*more))?;
    }
    Ok(())
}

/// The numbers, and where they aren't too many, the sums of each with each that is added.
fn with_sums(alloc: Global, numbers: &[u16], added: &[u16]) -> Result<Vec<u16>, AllocError> {
    let mut all = Vec::from_slice(alloc, numbers)?;
    if numbers.len().saturating_mul(added.len()) <= MOST_SUMS {
        for number in numbers {
            push_sums(&mut all, *number, added)?;
        }
    }
    Ok(in_order(all))
}

impl Stops {
    /// The numbers of a program, each of them plus each that `add` adds, and the numbers just above
    /// those that `above` compares with. There are none where no jump leads back.
    pub(crate) fn new(alloc: Global, program: &Program) -> Result<Stops, AllocError> {
        if is_forward(program) {
            return Ok(Stops {
                numbers: Vec::new(alloc),
            });
        }
        let numbers = numbers_in(alloc, program)?;
        let added = added_in(alloc, program)?;
        Ok(Stops {
            numbers: with_sums(alloc, &numbers, &added)?,
        })
    }

    /// The least stop that isn't under a number, and not over `most`.
    fn up(&self, number: u16, most: u16) -> u16
        ensures { result ≤ most }
    {
        let below = self.numbers.partition_point(|stop| *stop < number);
        match self.numbers.get(below) {
            Some(stop) => most.min(*stop),
            None => most,
        }
    }

    /// The greatest stop that isn't over a number, or 0.
    fn down(&self, number: u16) -> u16 {
        let above = self.numbers.partition_point(|stop| *stop <= number);
        match above.checked_sub(1) {
            Some(last) => self.numbers.get(last).copied().unwrap_or(0),
            None => 0,
        }
    }

    /// A span that grew from `old` to `grown`: an end that moved goes on to the next stop, and
    /// where there is none, to 0 or to `most`.
    pub(crate) fn widen(&self, old: Span, grown: Span, most: u16) -> Span
        requires { grown.hi ≤ most }
        ensures covers { SpanCovers result grown }
        ensures most { result.hi ≤ most }
    {
        let lo = if grown.lo < old.lo {
            self.down(grown.lo)
        } else {
            grown.lo
        };
        let hi = if old.hi < grown.hi {
            self.up(grown.hi, most)
        } else {
            grown.hi
        };
        Span {
            lo: grown.lo.min(lo),
            hi: grown.hi.max(hi),
        }
    }
}
