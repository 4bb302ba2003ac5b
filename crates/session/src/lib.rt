//! Answers an input: reads its bundle, does what it asks for, and writes the whole reply.
#![tactic(auto)]

mod answering;
mod checking;
mod draft_fault;
mod drafting;
mod ending;
mod fault;
mod frame;
mod harming;
mod intake;
mod judging;
mod outcome;
mod planned;
mod playing;
mod refuting;
mod reply;
mod replying;
mod report;
mod scenario;
mod searching;
mod section;
mod sequence;
mod stage;
mod stop;
mod tracing;
mod trial;
mod unread;

pub use answering::{DeviceFault, deliver, serve, session};
pub use draft_fault::DraftFault;
pub use ending::outcome_line;
pub use fault::InputFault;
pub use intake::{Input, ReadFault, read_input, text_of};
pub use judging::{judge, text_front};
pub use outcome::{
    Case, Checked, Drafted, Framed, Judged, Outcome, Played, Ran, Refutation, Refuted, Searched,
    Verified,
};
pub use planned::Planned;
pub use reply::{Reply, Status};
pub use replying::reply_of;
pub use report::Telling;
pub use scenario::Scenario;
pub use section::{section_of, section_text};
pub use sequence::Sequence;
pub use stop::Stop;
pub use trial::Trial;
pub use unread::Unread;
