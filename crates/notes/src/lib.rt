//! Notes: what a person is told of an input beside the reply to it, as values, and the one form in
//! which they are printed.
#![tactic(auto)]

mod level;
mod lines;
mod mark;
mod note;
mod print;
mod proposing;
mod quote;
mod shown;
mod spelling;

pub use level::Level;
pub use lines::{LineFinder, line_at};
pub use note::Note;
pub use print::InFile;
pub use proposing::{lowercase_suggestion, suggestion};
pub use quote::{Quoted, beginning_of};
pub use spelling::nearest;
