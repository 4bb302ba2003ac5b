//! Plans: what an engineer wishes of a program that brings up a board.
//!
//! A plan is a text. Its lines end with LF alone, `#` begins a comment, and words are parted by
//! spaces. Each line that isn't blank is a wish, and no two of them wish the same thing:
//!
//! - `voltage RAIL V`, where V is a mantissa, or a number of volts with a point and `V` behind it;
//! - `retries N` and `retries RAIL N`: N is 0 to 1000;
//! - `poll TICKS N` and `poll RAIL TICKS N`: 1 to 10,000,000 ticks of 5 µs, or as long in `ms` or
//!   `us`, and N is 1 to 1000;
//! - `protect TARGET HH`: 00, 20, 40 or 80;
//! - `clear TARGET`;
//! - `order RAIL RAIL`: the first rail before the second.
#![tactic(auto)]

mod fault;
mod law;
mod number;
mod plan;
mod reading;
mod subject;
mod volts;
mod wish;
mod wish_line;

pub use fault::{LineFault, PlanFault};
pub use law::{texts_have_one_reading, volts_are_nearest};
pub use number::{MOST_TICKS, MOST_TIMES};
pub use plan::Plan;
pub use reading::read_plan;
pub use wish::{Poll, Wish};
