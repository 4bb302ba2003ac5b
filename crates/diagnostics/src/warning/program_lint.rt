//! What is said of a lint of a program.

use crate::Result;
use crate::warning::allowed::allowing;
use board::Board;
use facts::GoodSet;
use program_lints::ProgramLint;
use sentences::Word::Text;
use sentences::{Remark, Sentence, Word, quoted_names, rail_names, say};
use seq_program::{Instr, Program};
use std::alloc::Global;

/// What mends a lint, at an end of the program or elsewhere.
fn mending(lint: &ProgramLint, is_end: bool) -> &'static str {
    match lint {
        ProgramLint::OnAtFail { .. } => "turn them off before",
        ProgramLint::BeforeVoltage { .. } => "write VOUT_COMMAND at its page before",
        ProgramLint::NeedLost { .. } if is_end => "read its STATUS_WORD and test it before",
        ProgramLint::NeedLost { .. } => "turn off first what needs it",
        ProgramLint::Unreached { .. } => "take it out",
        ProgramLint::ProtectLeft { .. } => "write the first value before",
        ProgramLint::NoRail { .. } => "add the rail to the board file",
        ProgramLint::UnservedAlert { .. } => "`alert rN else LABEL` asks",
    }
}

/// What a comment says that allows a lint.
fn meaning(lint: &ProgramLint) -> &'static str {
    match lint {
        ProgramLint::BeforeVoltage { .. } => "it starts at the right one",
        _ => "it is meant",
    }
}

/// That a rail may be turned off too soon, or isn't known to be good at the end.
fn need_lost(board: &Board, is_end: bool, need: usize, rail: usize) -> Sentence<'_> {
    let (need, rail) = (Word::rail(board, need), Word::rail(board, rail));
    if is_end {
        say![
            "the program ends here, and " {need} " isn't known to be good while " {rail}
            " may be on, which needs it"
        ]
    } else {
        say!["this may turn off rail " {need} " while " {rail} " may be on, which needs it"]
    }
}

/// What is found of a lint; `rails` are the names of those that may be on.
fn message_of<'a>(
    board: &'a Board,
    lint: &ProgramLint,
    is_end: bool,
    rails: &'a str,
) -> Sentence<'a> {
    match lint {
        ProgramLint::OnAtFail { .. } => {
            say!["the program fails here and may leave on: " {Text(rails)}]
        }
        ProgramLint::BeforeVoltage { rail, .. } => say![
            "this may turn on rail " {Word::rail(board, *rail)}
            " before a voltage was written to it"
        ],
        ProgramLint::NeedLost { need, rail, .. } => need_lost(board, is_end, *need, *rail),
        ProgramLint::Unreached { .. } => say!["nothing leads here"],
        ProgramLint::ProtectLeft { target, .. } => say![
            "the program ends here and may leave WRITE_PROTECT of " {Word::target(board, *target)}
            " otherwise than it began"
        ],
        ProgramLint::NoRail { target, .. } => say![
            "this may reach a page of " {Word::target(board, *target)}
            " that has no [[rail]], so no limit and no need is known of it"
        ],
        ProgramLint::UnservedAlert { .. } => {
            say!["SMBALERT# is looked at here, and nothing in the program asks who pulls it low"]
        }
    }
}

/// The rails that a lint says may be on.
fn rails_of(lint: &ProgramLint) -> GoodSet {
    match lint {
        ProgramLint::OnAtFail { rails, .. } => *rails,
        _ => GoodSet::empty(),
    }
}

/// What is said of a lint of a program.
pub(crate) fn lint_remark(
    alloc: Global,
    board: &Board,
    program: &Program,
    lint: &ProgramLint,
) -> Result<Remark> {
    let is_end = matches!(program.at(lint.place()), Some(Instr::End));
    let rails = quoted_names(alloc, &rail_names(alloc, board, rails_of(lint))?)?;
    let message = message_of(board, lint, is_end, &rails);
    let help = allowing(mending(lint, is_end), lint.name(), meaning(lint));
    message.with_help(help).told(alloc)
}
