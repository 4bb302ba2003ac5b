//! What is known of a program's machine at each place: rows, the duties of instructions and their
//! edges.
#![tactic(auto)]

mod domain;
mod duties;
mod law;
mod transfer;
mod well_formed;

pub use domain::byte_set::ByteSet;
pub use domain::good_set::{GoodSet, Rails};
pub use domain::kind::{Choice, Kind};
pub use domain::page_set::{PageSet, Pages};
pub use domain::part::Part;
pub use domain::protect_set::{ProtectSet, Protects};
pub use domain::row::Row;
pub use domain::row_part::RowPart;
pub use domain::source::Source;
pub use domain::span::Span;
pub use duties::judging::{duty, violation};
pub use duties::rule::Rule;
pub use duties::violation::Violation;
pub use law::{covered_rows_follow, one_is_to_blame, steps_are_sound};
pub use transfer::edging::edges;
pub use transfer::ticks::{foreign_ticks, own_ticks};
pub use well_formed::misfit::Misfit;
pub use well_formed::unheld::Unheld;
