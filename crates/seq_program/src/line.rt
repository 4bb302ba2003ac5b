//! The instruction of a line, by its first word.

ghost use Rattle.std.specs.Prelude.{◌≡◌, ℕ, ◌≤◌, length, map, IfOk, IsTrue, None};
ghost use Rattle.seq_program.specs.Reading.{Gives};
ghost use Rattle.seq_program.specs.Valid.{IsInstrOn, JumpsTo, jump_in};
ghost use Rattle.seq_program.specs.PassViews.{labels_view, IsAmong, Lands};
ghost use Rattle.seq_program.specs.Lines.{label_in, else_label, split_else, split_label};
ghost use Rattle.seq_program.specs.Lines.{message_line, jump_line};
ghost use Rattle.seq_program.specs.Lines.{plain_line, jump_to, message_of, jump_of, instr_of};

use crate::fault::{Operand, ProgramFault};
use crate::instr::Instr;
use crate::labels::{Labels, place_of};
use crate::line_operand::bad_word;
use crate::line_word::{
    JumpWord, MessageWord, PlainWord, jump_word, message_word, miscounted, plain_word,
};
use crate::message_line::Parsed;
use crate::operand::label_of;
use crate::{jump_line as jump, message_line as message, plain_line as plain};
use board::Board;
use std::alloc::Global;

/// Where a label leads: to some place if it stands nowhere.
#[derive(Clone, Copy)]
pub(crate) struct Jump {
    pub place: usize,
    pub is_known: bool,
}

/// An instruction, and whether the label of its jump stands anywhere.
#[derive(Drop)]
pub(crate) struct LineInstr {
    pub instr: Instr,
    pub is_known: bool,
}

/// A label, which stands at the end of so many words.
#[tactic(auto, unfolding(crate::specs::Lines::label_in))]
fn label_in<'a>(line: usize, at: usize, word: &'a str) -> Result<&'a str, ProgramFault>
    ensures { Gives (λ l. l.now) result (label_in line at word.now) }
{
    label_of(word).ok_or(bad_word(line, at, Operand::Label))
}

/// The label behind `else`, at the end of so many words.
#[tactic(auto, unfolding(crate::specs::Lines::else_label))]
fn else_label<'a>(
    line: usize,
    at: usize,
    word: &str,
    label: &'a str,
) -> Result<&'a str, ProgramFault>
    ensures { Gives (λ l. l.now) result (else_label line at word.now label.now) }
{
    if word != "else" {
        return Err(bad_word(line, at.saturating_sub(1), Operand::Else));
    }
    label_in(line, at, label)
}

/// The words before `else L`, and the label.
#[tactic(auto, unfolding(crate::specs::Lines::split_else))]
fn split_else<'w, 'a>(
    line: usize,
    words: &'w [&'a str],
) -> Result<(&'w [&'a str], &'a str), ProgramFault>
    requires { 2 ≤ length words.now }
    ensures { Gives (λ parts. (map (λ w. w.now) parts.0.now, parts.1.now)) result
        (split_else line (map (λ w. w.now) words.now)) }
{
    let [operands @ .., word, label] = words else {
        return Err(miscounted(line, 2));
    };
    let label = else_label(line, words.len(), word, label)?;
    Ok((operands, label))
}

/// The words before a label at the end, and the label.
#[tactic(auto, unfolding(crate::specs::Lines::split_label))]
fn split_label<'w, 'a>(
    line: usize,
    words: &'w [&'a str],
) -> Result<(&'w [&'a str], &'a str), ProgramFault>
    requires { 1 ≤ length words.now }
    ensures { Gives (λ parts. (map (λ w. w.now) parts.0.now, parts.1.now)) result
        (split_label line (map (λ w. w.now) words.now)) }
{
    let [operands @ .., label] = words else {
        return Err(miscounted(line, 1));
    };
    let label = label_in(line, words.len(), label)?;
    Ok((operands, label))
}

fn message_line(
    alloc: Global,
    board: &Board,
    line: usize,
    word: MessageWord,
    otherwise: usize,
    words: &[&str],
) -> Parsed
    ensures fits { IfOk result (λ i. IsInstrOn (length board.now.targets) i) }
    ensures jumps { IfOk result (λ i. JumpsTo otherwise i) }
    ensures value { Gives (λ i. i) result
        (message_line board.now line word otherwise (map (λ w. w.now) words.now)) }
{
    match word {
        MessageWord::Quick => message::quick_of(board, line, otherwise, words),
        MessageWord::Send => message::send_of(board, line, otherwise, words),
        MessageWord::Receive => message::receive_of(board, line, otherwise, words),
        MessageWord::Write => message::write_of(board, line, otherwise, words),
        MessageWord::Read => message::read_of(board, line, otherwise, words),
        MessageWord::Call => message::call_of(board, line, otherwise, words),
        MessageWord::BlockWrite => message::block_write_of(alloc, board, line, otherwise, words),
        MessageWord::BlockRead => message::block_read_of(board, line, otherwise, words),
        MessageWord::BlockCall => message::block_call_of(alloc, board, line, otherwise, words),
        MessageWord::Alert => message::alert_of(line, otherwise, words),
    }
}

fn jump_line(line: usize, word: JumpWord, place: usize, words: &[&str]) -> Parsed
    ensures fits { IfOk result (λ i. (targets : ℕ) → IsInstrOn targets i) }
    ensures jumps { IfOk result (λ i. JumpsTo place i) }
    ensures value { Gives (λ i. i) result
        (jump_line line word place (map (λ w. w.now) words.now)) }
{
    match word {
        JumpWord::IfAlert => jump::if_alert_of(line, place, words),
        JumpWord::If => jump::if_of(line, place, words),
        JumpWord::Above => jump::above_of(line, place, words),
        JumpWord::Again => jump::again_of(line, place, words),
        JumpWord::Goto => jump::goto_of(line, place, words),
    }
}

fn plain_line(line: usize, word: PlainWord, words: &[&str]) -> Parsed
    ensures fits { IfOk result (λ i. (targets : ℕ) → IsInstrOn targets i) }
    ensures jumps { IfOk result (λ i. jump_in i ≡ None) }
    ensures value { Gives (λ i. i) result (plain_line line word (map (λ w. w.now) words.now)) }
{
    match word {
        PlainWord::Set => plain::set_of(line, words),
        PlainWord::Add => plain::add_of(line, words),
        PlainWord::Count => plain::count_of(line, words),
        PlainWord::Wait => plain::wait_of(line, words),
        PlainWord::End => plain::end_of(line, words),
        PlainWord::Fail => plain::fail_of(line, words),
    }
}

fn jump_to(labels: &Labels, name: &str) -> Jump
    ensures value { result ≡ jump_to (labels_view labels.now) name.now }
    ensures among { IsTrue result.is_known → IsAmong (labels_view labels.now) result.place }
{
    let place = place_of(labels, name);
    Jump {
        place: place.unwrap_or(0),
        is_known: place.is_some(),
    }
}

#[tactic(auto, unfolding(crate::specs::Lines::message_of))]
fn message_of(
    alloc: Global,
    board: &Board,
    labels: &Labels,
    line: usize,
    word: MessageWord,
    words: &[&str],
) -> Result<LineInstr, ProgramFault>
    ensures fits { IfOk result (λ found. IsInstrOn (length board.now.targets) found.instr) }
    ensures lands { IfOk result
        (λ found. IsTrue found.is_known → Lands (labels_view labels.now) found.instr) }
    ensures value { Gives (λ found. found) result
        (message_of board.now (labels_view labels.now) line word (map (λ w. w.now) words.now)) }
{
    if words.len() != word.count() {
        return Err(word.miscounted(line));
    }
    let (operands, label) = split_else(line, words)?;
    let jump = jump_to(labels, label);
    let instr = message_line(alloc, board, line, word, jump.place, operands)?;
    Ok(LineInstr {
        instr,
        is_known: jump.is_known,
    })
}

#[tactic(auto, unfolding(crate::specs::Lines::jump_of))]
fn jump_of(
    labels: &Labels,
    line: usize,
    word: JumpWord,
    words: &[&str],
) -> Result<LineInstr, ProgramFault>
    ensures fits { IfOk result (λ found. (targets : ℕ) → IsInstrOn targets found.instr) }
    ensures lands { IfOk result
        (λ found. IsTrue found.is_known → Lands (labels_view labels.now) found.instr) }
    ensures value { Gives (λ found. found) result
        (jump_of (labels_view labels.now) line word (map (λ w. w.now) words.now)) }
{
    if words.len() != word.count() {
        return Err(word.miscounted(line));
    }
    let (operands, label) = split_label(line, words)?;
    let jump = jump_to(labels, label);
    let instr = jump_line(line, word, jump.place, operands)?;
    Ok(LineInstr {
        instr,
        is_known: jump.is_known,
    })
}

/// What a line's words say.
#[tactic(auto, unfolding(crate::specs::Lines::instr_of))]
pub(crate) fn instr_of(
    alloc: Global,
    board: &Board,
    labels: &Labels,
    line: usize,
    word: &str,
    words: &[&str],
) -> Result<LineInstr, ProgramFault>
    ensures fits { IfOk result (λ found. IsInstrOn (length board.now.targets) found.instr) }
    ensures lands { IfOk result
        (λ found. IsTrue found.is_known → Lands (labels_view labels.now) found.instr) }
    ensures value { Gives (λ found. found) result
        (instr_of board.now (labels_view labels.now) line word.now (map (λ w. w.now) words.now)) }
{
    if let Some(word) = message_word(word) {
        return message_of(alloc, board, labels, line, word, words);
    }
    if let Some(word) = jump_word(word) {
        return jump_of(labels, line, word, words);
    }
    let word = plain_word(word).ok_or(ProgramFault::UnknownWord(line))?;
    let instr = plain_line(line, word, words)?;
    Ok(LineInstr {
        instr,
        is_known: true,
    })
}
