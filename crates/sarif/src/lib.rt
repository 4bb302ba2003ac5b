//! Notes as a log of SARIF 2.1.0, the format in which code scanning and editors take them.
#![tactic(auto)]

mod log;
mod message;
mod uri;

pub use log::sarif_log;
