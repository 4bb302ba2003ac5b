//! Operands of a line, or the fault of the line.

ghost use Rattle.std.specs.Prelude.{◌≡◌, ◌≤◌, ◌<◌, length, true, Some, IfOk, IfSome, IsTrue};
ghost use Rattle.pmbus_table.specs.Commands.{takes_form, is_manufacturer_form};
ghost use Rattle.board.specs.Boards.{place_of_name};
ghost use Rattle.seq_program.specs.Reading.{Gives};
ghost use Rattle.seq_program.specs.Valid.{IsBlock};
ghost use Rattle.seq_program.specs.CommandWords.{form_at, sized_in};
ghost use Rattle.seq_program.specs.LineOperands.{target_of, number_in, word_in, register_in};
ghost use Rattle.seq_program.specs.LineOperands.{counter_in};
ghost use Rattle.seq_program.specs.declared.fault.Misfit.TheVariants as misfit;
ghost use Rattle.seq_program.specs.declared.fault.ProgramFault.TheVariants.{BadOperand};
ghost use Rattle.seq_program.specs.LineOperands.{block_in, command_to, sized_to};

use crate::command::{command_in, sized_in};
use crate::fault::{Misfit, Operand, ProgramFault};
use crate::instr::{Block, Counter, Register, Width};
use crate::operand::{block_of, counter_of, number_within, register_of, word_within};
use board::Board;
use pmbus_table::Command;
use smbus::Form;
use std::alloc::Global;

/// A target, and the command that is sent to it.
#[derive(Clone, Copy)]
pub(crate) struct CommandTo {
    pub target: usize,
    pub command: Command,
}

/// The same where the command is one of a byte or of a word.
#[derive(Clone, Copy)]
pub(crate) struct SizedTo {
    pub target: usize,
    pub command: Command,
    pub width: Width,
}

/// Something else has to stand in the place of a word.
pub(crate) fn bad_word(line: usize, at: usize, operand: Operand) -> ProgramFault
    ensures { result ≡ BadOperand line (misfit.Word at operand) }
{
    ProgramFault::BadOperand(line, Misfit::Word(at, operand))
}

fn target_named(board: &Board, word: &str) -> Option<usize>
    ensures value { result ≡ place_of_name word.now board.now.target_names }
    ensures there { IfSome result (λ t. t < length board.now.targets) }
{
    board.target_named(word)
}

#[tactic(auto, unfolding(crate::specs::LineOperands::target_of))]
pub(crate) fn target_of(board: &Board, line: usize, word: &str) -> Result<usize, ProgramFault>
    ensures value { Gives (λ t. t) result (target_of board.now line word.now) }
    ensures there { IfOk result (λ t. t < length board.now.targets) }
{
    target_named(board, word).ok_or(ProgramFault::UnknownTarget(line))
}

#[tactic(auto, unfolding(crate::specs::LineOperands::number_in))]
pub(crate) fn number_in(
    line: usize,
    at: usize,
    low: u32,
    high: u32,
    word: &str,
) -> Result<u32, ProgramFault>
    ensures value { Gives (λ n. n) result (number_in line at low high word.now) }
    ensures within { IfOk result (λ n. (low ≤ n) × (n ≤ high)) }
{
    number_within(low, high, word).ok_or(ProgramFault::BadNumber {
        line,
        word: at,
        low,
        high,
    })
}

/// A number of 16 bits of a range.
#[tactic(auto, unfolding(crate::specs::LineOperands::number_in))]
pub(crate) fn word_between(
    line: usize,
    at: usize,
    low: u16,
    high: u16,
    word: &str,
) -> Result<u16, ProgramFault>
    ensures value { Gives (λ n. n) result (number_in line at low high word.now) }
    ensures within { IfOk result (λ n. (low ≤ n) × (n ≤ high)) }
{
    word_within(low, high, word).ok_or(ProgramFault::BadNumber {
        line,
        word: at,
        low: u32::from(low),
        high: u32::from(high),
    })
}

/// A number of 16 bits.
#[tactic(auto, unfolding(crate::specs::LineOperands::word_in))]
pub(crate) fn word_in(line: usize, at: usize, word: &str) -> Result<u16, ProgramFault>
    ensures value { Gives (λ n. n) result (word_in line at word.now) }
    ensures within { IfOk result (λ n. n ≤ 65535) }
{
    word_between(line, at, 0, u16::MAX, word)
}

/// A register.
#[tactic(auto, unfolding(crate::specs::LineOperands::register_in))]
pub(crate) fn register_in(line: usize, at: usize, word: &str) -> Result<Register, ProgramFault>
    ensures value { Gives (λ r. r) result (register_in line at word.now) }
    ensures small { IfOk result (λ r. r < 8) }
{
    register_of(word).ok_or(bad_word(line, at, Operand::Register))
}

/// A counter.
#[tactic(auto, unfolding(crate::specs::LineOperands::counter_in))]
pub(crate) fn counter_in(line: usize, at: usize, word: &str) -> Result<Counter, ProgramFault>
    ensures value { Gives (λ c. c) result (counter_in line at word.now) }
    ensures small { IfOk result (λ c. c < 4) }
{
    counter_of(word).ok_or(bad_word(line, at, Operand::Counter))
}

/// At most so many bytes.
#[tactic(auto, unfolding(crate::specs::LineOperands::block_in))]
pub(crate) fn block_in(
    alloc: Global,
    line: usize,
    at: usize,
    most: usize,
    word: &str,
) -> Result<Block, ProgramFault>
    requires { most ≤ 255 }
    ensures value { Gives (λ b. b) result (block_in line at most word.now) }
    ensures block { IfOk result (λ b. IsBlock most b) }
{
    block_of(alloc, most, word)?.ok_or(bad_word(line, at, Operand::Bytes(most)))
}

/// A target, and a command that takes a form.
#[tactic(auto, unfolding(crate::specs::LineOperands::command_to))]
pub(crate) fn command_to(
    board: &Board,
    line: usize,
    form: Form,
    target: &str,
    command: &str,
) -> Result<CommandTo, ProgramFault>
    ensures value { Gives (λ s. s) result (command_to board.now line form target.now command.now) }
    ensures there { IfOk result (λ s. s.target < length board.now.targets) }
    ensures taken { IfOk result (λ s. IsTrue (takes_form s.command form)) }
{
    let target = target_of(board, line, target)?;
    let command = command_in(form, command).ok_or(ProgramFault::UnknownCommand(line, form, form))?;
    Ok(CommandTo { target, command })
}

/// A target, and a command that takes a form of a byte or one of a word.
#[tactic(auto, unfolding(crate::specs::LineOperands::sized_to))]
pub(crate) fn sized_to(
    board: &Board,
    line: usize,
    byte: Form,
    word: Form,
    target: &str,
    command: &str,
) -> Result<SizedTo, ProgramFault>
    requires byte { is_manufacturer_form byte ≡ true }
    requires word { is_manufacturer_form word ≡ true }
    ensures value { Gives (λ s. s) result
        (sized_to board.now line byte word target.now command.now) }
    ensures there { IfOk result (λ s. s.target < length board.now.targets) }
    ensures sized { IfOk result
        (λ s. sized_in byte word command.now ≡ Some (s.command, s.width)) }
    ensures taken { IfOk result (λ s. IsTrue (takes_form s.command (form_at byte word s.width))) }
{
    let target = target_of(board, line, target)?;
    let (command, width) = sized_in(byte, word, command).ok_or(ProgramFault::UnknownCommand(
        line, byte, word,
    ))?;
    Ok(SizedTo {
        target,
        command,
        width,
    })
}
