//! Why no program is drafted, and the line that is printed for it.

ghost use Rattle.std.specs.Prelude.{◌≡◌, IfOk, string_bytes};
ghost use Rattle.session.specs.DraftFaults.{command_word, detail_of, draft_fault_text, name_of};
ghost use Rattle.session.specs.DraftFaults.{number_of, rail_word, target_word};

use board::Board;
use bundles::form_word;
use facts::Rule;
use plans::PlanFault;
use pmbus_table::{by_code, name_of};
use smbus::Form;
use std::alloc::{AllocError, Global};
use thiserror::Error;

/// Why no program is drafted for a board and a plan.
#[derive(Clone, Copy, Debug, PartialEq, Eq, Error)]
pub enum DraftFault {
    /// The first bad line of the plan, and why it is bad.
    #[error("line {} of the plan is no wish for this board", .0.line)]
    BadPlan(PlanFault),
    /// The rail, by its index.
    #[error("rails wait for one another in a circle")]
    Circle(usize),
    /// The target, by its index, and what it would be sent.
    #[error("a target has no entry for what the program would send")]
    NoEntry { target: usize, form: Form, code: u8 },
    /// The rail, by its index.
    #[error("a voltage is over the limit of its rail")]
    OverLimit(usize),
    #[error("the program would have over 1024 instructions")]
    TooLong,
    #[error("the program isn't accepted")]
    NotAccepted { place: usize, rule: Rule },
}

impl DraftFault {
    /// The number that is printed; 1 is want of memory.
    pub fn number(self) -> u8
        ensures { result ≡ number_of self }
    {
        match self {
            DraftFault::BadPlan(_) => 2,
            DraftFault::Circle(_) => 3,
            DraftFault::NoEntry { .. } => 4,
            DraftFault::OverLimit(_) => 5,
            DraftFault::TooLong => 6,
            DraftFault::NotAccepted { .. } => 7,
        }
    }

    /// The name that is printed.
    pub fn name(self) -> &'static str
        ensures { result.now ≡ name_of self }
    {
        match self {
            DraftFault::BadPlan(_) => "BadPlan",
            DraftFault::Circle(_) => "Circle",
            DraftFault::NoEntry { .. } => "NoEntry",
            DraftFault::OverLimit(_) => "OverLimit",
            DraftFault::TooLong => "TooLong",
            DraftFault::NotAccepted { .. } => "NotAccepted",
        }
    }
}

fn target_word(board: &Board, target: usize) -> &str
    ensures { result.now ≡ target_word board.now target }
{
    board.target_name(target).unwrap_or("")
}

fn rail_word(board: &Board, rail: usize) -> &str
    ensures { result.now ≡ rail_word board.now rail }
{
    board.rail_name(rail).unwrap_or("")
}

/// The name of the command with a code, if it is one.
fn command_word(alloc: Global, code: u8) -> Result<String, AllocError>
    ensures { IfOk result (λ text. string_bytes text ≡ command_word code) }
{
    match by_code(code) {
        Some(command) => name_of(alloc, command),
        None => Ok(String::new(alloc)),
    }
}

/// What stands behind the name of a fault.
fn detail_of(alloc: Global, board: &Board, fault: DraftFault) -> Result<String, AllocError>
    ensures { IfOk result (λ text. string_bytes text ≡ detail_of board.now fault) }
{
    match fault {
        DraftFault::BadPlan(fault) => {
            let line = fault.line;
            format!(in alloc; " {line}")
        }
        DraftFault::Circle(rail) | DraftFault::OverLimit(rail) => {
            let name = rail_word(board, rail);
            format!(in alloc; " {name}")
        }
        DraftFault::NoEntry { target, form, code } => {
            let (name, form) = (target_word(board, target), form_word(form));
            let command = command_word(alloc, code)?;
            format!(in alloc; " {name} {form} {command}")
        }
        DraftFault::TooLong => Ok(String::new(alloc)),
        DraftFault::NotAccepted { place, rule } => {
            let rule = rule.name();
            format!(in alloc; " {place} {rule}")
        }
    }
}

/// The line that is printed for a fault.
pub(crate) fn draft_fault_line(
    alloc: Global,
    board: &Board,
    fault: DraftFault,
) -> Result<String, AllocError>
    ensures { IfOk result (λ text. string_bytes text ≡ draft_fault_text board.now fault) }
{
    let number = fault.number();
    let name = fault.name();
    let detail = detail_of(alloc, board, fault)?;
    format!(in alloc; "fault draft {number} {name}{detail}\n")
}
