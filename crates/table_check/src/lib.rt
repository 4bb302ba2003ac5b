//! Tables of facts and their texts, and the checker: a table is accepted where it keeps the rule
//! book, and then every run of the program is safe.
#![tactic(auto)]

mod checker;
mod law;
mod table;
mod text;

pub use checker::breach::{Breach, Judgement, Refusal, Spot};
pub use checker::checking::{check, judge};
pub use checker::verdict::Verdict;
pub use law::{
    accepted_runs_are_admitted, inductive_runs_are_safe, small_tables_are_judged,
    tables_are_judged_by_place, tables_have_texts, uncounted_tables_are_judged,
};
pub use table::{Table, row_at};
pub use text::fault::TableFault;
pub use text::reading::read_table;
pub use text::shape::shaped;
pub use text::writing::write_table;
