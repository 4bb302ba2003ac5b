//! Drafts of programs: from a board and what is wished of it, the text of a controller program that
//! brings up the board's rails, and the order and the outline that it keeps to.
#![tactic(auto)]

mod drafting;
mod fault;
mod labels;
mod law;
mod limits;
mod opening;
mod order;
mod outline;
mod page;
mod part;
mod request;
mod requests;
mod waiting;
mod writing;

pub use drafting::draft;
pub use fault::Undraftable;
pub use law::order_is_unique;
pub use part::{Draft, Part};
