//! What readers and writers of texts share: lines and words, decimal and hexadecimal numbers,
//! names, the reason why a text could not be read, and how a text is sent.
#![tactic(auto)]

mod cutting;
mod decimal;
mod hex;
mod law;
mod lines;
mod name;
mod reading;
mod sending;
mod words;

pub use cutting::{comment_in, without_comment};
pub use decimal::decimal_within;
pub use hex::{hex_number, pair_of, pairs_of, push_pair, push_word};
pub use law::{numbers_are_spelled, numbers_read_back};
pub use lines::{first_by_feed, first_line, line_count};
pub use name::is_name;
pub use reading::ReadError;
pub use sending::{CutShort, send};
pub use words::{cut_at_space, words_of};
