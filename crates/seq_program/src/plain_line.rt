//! The lines that neither send nor jump: what stands behind their first word.

ghost use Rattle.std.specs.Prelude.{◌≡◌, ℕ, map, IfOk, None};
ghost use Rattle.seq_program.specs.Reading.{Gives};
ghost use Rattle.seq_program.specs.Valid.{IsInstrOn, jump_in};
ghost use Rattle.seq_program.specs.PlainLines.{set_of, add_of, count_of, wait_of, end_of, fail_of};

use crate::instr::{Instr, MOST_TURNS};
use crate::line_operand::{counter_in, number_in, register_in, word_between, word_in};
use crate::line_word::miscounted;
use crate::message_line::Parsed;

#[tactic(auto, unfolding(crate::specs::PlainLines::set_of))]
pub(crate) fn set_of(line: usize, words: &[&str]) -> Parsed
    ensures fits { IfOk result (λ i. (targets : ℕ) → IsInstrOn targets i) }
    ensures jumps { IfOk result (λ i. jump_in i ≡ None) }
    ensures value { Gives (λ i. i) result
        (set_of line (map (λ w. w.now) words.now)) }
{
    let [register, value] = words else {
        return Err(miscounted(line, 2));
    };
    let register = register_in(line, 1, register)?;
    let value = word_in(line, 2, value)?;
    Ok(Instr::Set { register, value })
}

#[tactic(auto, unfolding(crate::specs::PlainLines::add_of))]
pub(crate) fn add_of(line: usize, words: &[&str]) -> Parsed
    ensures fits { IfOk result (λ i. (targets : ℕ) → IsInstrOn targets i) }
    ensures jumps { IfOk result (λ i. jump_in i ≡ None) }
    ensures value { Gives (λ i. i) result
        (add_of line (map (λ w. w.now) words.now)) }
{
    let [register, value] = words else {
        return Err(miscounted(line, 2));
    };
    let register = register_in(line, 1, register)?;
    let value = word_in(line, 2, value)?;
    Ok(Instr::Add { register, value })
}

#[tactic(auto, unfolding(crate::specs::PlainLines::count_of))]
pub(crate) fn count_of(line: usize, words: &[&str]) -> Parsed
    ensures fits { IfOk result (λ i. (targets : ℕ) → IsInstrOn targets i) }
    ensures jumps { IfOk result (λ i. jump_in i ≡ None) }
    ensures value { Gives (λ i. i) result
        (count_of line (map (λ w. w.now) words.now)) }
{
    let [counter, value] = words else {
        return Err(miscounted(line, 2));
    };
    let counter = counter_in(line, 1, counter)?;
    let value = word_between(line, 2, 0, MOST_TURNS, value)?;
    Ok(Instr::Count { counter, value })
}

#[tactic(auto, unfolding(crate::specs::PlainLines::wait_of))]
pub(crate) fn wait_of(line: usize, words: &[&str]) -> Parsed
    ensures fits { IfOk result (λ i. (targets : ℕ) → IsInstrOn targets i) }
    ensures jumps { IfOk result (λ i. jump_in i ≡ None) }
    ensures value { Gives (λ i. i) result
        (wait_of line (map (λ w. w.now) words.now)) }
{
    let [ticks] = words else {
        return Err(miscounted(line, 1));
    };
    let ticks = number_in(line, 1, 1, 10_000_000, ticks)?;
    Ok(Instr::Wait { ticks })
}

pub(crate) fn end_of(line: usize, words: &[&str]) -> Parsed
    ensures fits { IfOk result (λ i. (targets : ℕ) → IsInstrOn targets i) }
    ensures jumps { IfOk result (λ i. jump_in i ≡ None) }
    ensures value { Gives (λ i. i) result
        (end_of line (map (λ w. w.now) words.now)) }
{
    if !words.is_empty() {
        return Err(miscounted(line, 0));
    }
    Ok(Instr::End)
}

pub(crate) fn fail_of(line: usize, words: &[&str]) -> Parsed
    ensures fits { IfOk result (λ i. (targets : ℕ) → IsInstrOn targets i) }
    ensures jumps { IfOk result (λ i. jump_in i ≡ None) }
    ensures value { Gives (λ i. i) result
        (fail_of line (map (λ w. w.now) words.now)) }
{
    if !words.is_empty() {
        return Err(miscounted(line, 0));
    }
    Ok(Instr::Fail)
}
