//! Reading the text of a bundle: a command and its sections, message lines and answer lines.
//! Answers are written as texts, too, which are read back.
#![tactic(auto)]

mod answer_lines;
mod answer_list;
mod answer_text;
mod answer_words;
mod answers;
mod bundle;
mod command;
mod composing;
mod contender_words;
mod counted;
mod fault;
mod field;
mod flaw;
mod form;
mod law;
mod lines;
mod message;
mod said_answer;
mod section;
mod seed;

pub use answer_lines::answer_line_of;
pub use answer_list::AnswerLines;
pub use answer_text::{AnswersText, is_one_line};
pub use answers::{Answers, answers_in};
pub use bundle::{Bundle, read_bundle};
pub use command::{COMMANDS, Command, Header};
pub use composing::{compose, end_last_line};
pub use counted::is_counted;
pub use fault::BundleFault;
pub use flaw::{Flaw, Key};
pub use form::form_word;
pub use law::{
    answer_lines_are_read, composed_bundles_are_read, message_lines_are_read,
    sections_keep_their_lines, well_formed_bundles_are_read,
};
pub use message::{Exchange, exchange_in};
pub use said_answer::{answer_line, can_be_said};
pub use section::Section;
pub use seed::seed_in;
