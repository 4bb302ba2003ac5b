//! SMBus messages as slots of the bus, and events of the bus as frames.
#![tactic(auto)]

mod contender;
mod control;
mod counting;
mod fault;
mod frame;
mod law;
mod message;
mod observer;
mod observing;
mod parts;
mod single;
mod slots;
mod text;
mod word;

pub use contender::{Contender, carried, contender_over, contender_slot_count, contender_slots};
pub use counting::{most_slots, sent_count, slot_count};
pub use fault::{ObserveFault, SmbusFault};
pub use frame::{Frame, Segment};
pub use law::{
    contenders_have_one_frame, lower_address_wins, messages_have_one_frame, pieces_join,
    slots_are_one_frame,
};
pub use message::{Answer, FORMS, Form, Message};
pub use observer::Observer;
pub use observing::observe;
pub use single::{only_frame, only_frame_in};
pub use slots::{frame_slots, is_numbered};
pub use text::frame_text;
pub use word::{carries_code, form_named};
