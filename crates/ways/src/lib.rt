//! Ways through a program, by what is known along each alone: one on which a rule may fail.
#![tactic(auto)]

mod search;
mod start;
mod step;
mod trails;

pub use search::{MOST_STEPS, Search, bad_way};
pub use step::Step;
