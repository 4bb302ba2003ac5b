//! Searches for a run in which a program breaks a rule from K1 to K5.
#![tactic(auto)]

mod belonging;
mod choosing;
mod distance;
mod harm;
mod liveness;
mod queue;
mod searching;
mod starts;
mod states;
mod trail;
mod values;

pub use harm::{Harm, Shown};
pub use searching::{MOST_STATES, find_breach};
