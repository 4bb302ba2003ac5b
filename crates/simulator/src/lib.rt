//! Runs of a program on a simulated bus: steps, traces and what is seen on the lines.
#![tactic(auto)]

mod fault;
mod law;
mod lines;
mod machine;
mod moves;
mod running;
mod starting;
mod stepping;
mod trace;
mod trace_text;

pub use fault::RunFault;
pub use law::{
    entries_read_back, fitting_answers_have_steps, runs_are_one, runs_are_seen, runs_go_on,
    safe_steps_are_safe_runs, small_programs_are_judged, steps_are_seen,
    steps_stand_alone_or_are_lost,
};
pub use machine::{Ending, Entry, Machine};
pub use running::{Trace, run};
pub use starting::start;
pub use stepping::{MOST_TICKS, Stage, step};
pub use trace::{WriteFault, write_trace};
pub use trace_text::{last_line, outcome_text, push_line};
