//! The search for the facts of a program: a table that `check` accepts, if it accepts any.
#![tactic(auto)]

mod components;
mod fault;
mod finding;
mod forward;
mod graph;
mod joining;
mod known;
mod laws;
mod leading;
mod longest_paths;
mod loop_forest;
mod loops;
mod lost;
mod potentials;
mod searching;
mod starting;
mod ticking;
mod widening;

pub use fault::FindFault;
pub use finding::find;
