//! Watches a run for the first instruction that breaks a rule from K1 to K5, by what the rails
//! reported so far.
#![tactic(auto)]

mod breach;
mod judging;
mod known;
mod law;
mod monitor;
mod reporting;

pub use breach::{Breach, Reached};
pub use law::accepted_runs_keep_rules;
pub use monitor::Monitor;
