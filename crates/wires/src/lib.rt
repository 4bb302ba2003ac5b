//! The lines of the bus: their levels in each tick, the events between neighbouring ticks, the
//! arbitration between senders, and the levels as a file that viewers of waveforms open.
#![tactic(auto)]

mod arbitration;
mod event;
mod law;
mod lines;
mod runs;
mod wave;

pub use arbitration::arbitrate;
pub use event::{Event, event_between, events};
pub use law::least_byte_wins;
pub use lines::{Sample, wired};
pub use runs::{Appending, MOST_SAMPLES, Run, Runs, events_of};
pub use wave::Wave;
