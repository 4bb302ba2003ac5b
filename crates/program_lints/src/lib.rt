//! What is sure of the power of rails at each place of a program, told from its table of facts,
//! and the lints that follow from it.
#![tactic(auto)]

mod arrows;
mod before_voltage;
mod changes;
mod closing;
mod flow;
mod flowing;
mod law;
mod lint;
mod lint_names;
mod lints;
mod need_loss;
mod no_rail;
mod power;
mod protect_left;
mod selecting;
mod settling;
mod unreached;
mod unserved_alert;
mod unused_label;

pub use law::{closed_sets_are_sure, leaning_is_needing};
pub use lint::ProgramLint;
pub use lints::program_lints;
pub use power::{PowerStates, power_states};
pub use unused_label::unused_labels;
