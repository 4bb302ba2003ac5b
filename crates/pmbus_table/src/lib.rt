//! The PMBus commands of this profile, what write protection permits, and what status words and
//! voltages mean.
#![tactic(auto)]

pub mod code;
mod command;
mod law;
mod name;
mod operation;
mod protect;
mod status;
mod table;
mod voltage;

pub use command::{Command, by_code};
pub use law::names_read_back;
pub use name::{by_name, manufacturer_named, name_of};
pub use operation::enables;
pub use protect::{PROTECTIONS, is_protection, permits};
pub use status::{StatusWord, reported_good};
pub use voltage::{carries_voltage, is_exponent, mantissas_in_volt, within};
