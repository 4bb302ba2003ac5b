//! What the targets of a bus may answer to a message, and what it does to them.
#![tactic(auto)]

mod alerting;
mod effect;
mod fitting;
mod law;
mod outcome;
mod start;
mod state;
mod step;

pub use effect::value_goes_out;
pub use fitting::fits;
pub use law::{
    answers_have_states, contenders_change_this, contenders_may_win, fitting_bytes_are_on_wire,
    lowest_address_wins, ranges_are_of_forms, some_answer_fits, states_belong, targets_are_found,
};
pub use outcome::{Outcome, cut_of, ending_of};
pub use start::starts;
pub use state::BusState;
pub use step::{after, after_into};
