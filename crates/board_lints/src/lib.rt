//! Lints of boards: what of a board without faults is suspicious, beside the program that runs on
//! it.
#![tactic(auto)]

mod circle;
mod foreign;
mod lint;
mod lints;
mod never_enabled;
mod ready;
mod start_values;
mod unreachable_limit;

pub use lint::{Lack, Lint};
pub use lints::lints_on;
