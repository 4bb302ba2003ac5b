//! Turns of loops, as a way goes through them.

ghost use Rattle.std.specs.Prelude.{◌≤◌};

use crate::Result;
use crate::route::Stretch;
use std::alloc::Global;

/// A turn has so many stretches at most, to be told once for all times.
const MOST_STRETCHES: usize = 6;

/// Stretches of a way, which are gone so many times one after the other.
#[derive(Clone, Copy)]
pub(crate) struct Leg<'a> {
    pub stretches: &'a [Stretch],
    pub times: usize,
}

/// How many times the first stretches, so many, are gone at the beginning of a way.
fn times_of(stretches: &[Stretch], count: usize) -> usize
    requires { 1 ≤ count }
{
    let turn = stretches.get(..count).unwrap_or(&[]);
    stretches
        .chunks(count)
        .take_while(|chunk| *chunk == turn)
        .count()
}

/// The turns with which the rest of a way begins, if it begins with more than one.
fn turns_of(rest: &[Stretch]) -> Option<Leg<'_>> {
    for count in 1..=MOST_STRETCHES {
        let times = times_of(rest, count);
        if times > 1 {
            let stretches = rest.get(..count)?;
            return Some(Leg { stretches, times });
        }
    }
    None
}

/// The leg with which the rest of a way begins.
fn first_leg(rest: &[Stretch]) -> Option<Leg<'_>> {
    let single = Leg {
        stretches: rest.get(..1)?,
        times: 1,
    };
    Some(turns_of(rest).unwrap_or(single))
}

/// The legs of a way.
pub(crate) fn legs_of<'a>(alloc: Global, stretches: &'a [Stretch]) -> Result<Vec<Leg<'a>>> {
    let mut legs = Vec::new(alloc);
    let mut rest = stretches;
    for _ in 0..stretches.len() {
        let Some(leg) = first_leg(rest) else {
            break;
        };
        let gone = leg.stretches.len().saturating_mul(leg.times);
        rest = rest.get(gone..).unwrap_or(&[]);
        legs.push(leg)?;
    }
    Ok(legs)
}
