//! The lines that jump and send nothing: what stands between their first word and the label.

ghost use Rattle.std.specs.Prelude.{◌≤◌, ℕ, map, IfOk};
ghost use Rattle.seq_program.specs.Reading.{Gives};
ghost use Rattle.seq_program.specs.Valid.{IsInstrOn, JumpsTo};
ghost use Rattle.seq_program.specs.JumpLines.{if_alert_of, bits_of, if_of, above_of};
ghost use Rattle.seq_program.specs.JumpLines.{again_of, goto_of};

use crate::fault::ProgramFault;
use crate::instr::Instr;
use crate::line_operand::{counter_in, register_in, word_in};
use crate::line_word::JumpWord;
use crate::message_line::Parsed;

pub(crate) fn if_alert_of(line: usize, jump: usize, words: &[&str]) -> Parsed
    ensures fits { IfOk result (λ i. (targets : ℕ) → IsInstrOn targets i) }
    ensures jumps { IfOk result (λ i. JumpsTo jump i) }
    ensures value { Gives (λ i. i) result
        (if_alert_of line jump (map (λ w. w.now) words.now)) }
{
    if !words.is_empty() {
        return Err(JumpWord::IfAlert.miscounted(line));
    }
    Ok(Instr::IfAlert { jump })
}

/// A mask, and what the bits under it are to be.
#[tactic(auto, unfolding(crate::specs::JumpLines::bits_of))]
fn bits_of(line: usize, mask: &str, value: &str) -> Result<(u16, u16), ProgramFault>
    ensures value { Gives (λ bits. bits) result (bits_of line mask.now value.now) }
    ensures within { IfOk result (λ bits. (bits.0 ≤ 65535) × (bits.1 ≤ 65535)) }
{
    let mask = word_in(line, 2, mask)?;
    let value = word_in(line, 3, value)?;
    Ok((mask, value))
}

#[tactic(auto, unfolding(crate::specs::JumpLines::if_of, crate::specs::LineOperands::register_in))]
pub(crate) fn if_of(line: usize, jump: usize, words: &[&str]) -> Parsed
    ensures fits { IfOk result (λ i. (targets : ℕ) → IsInstrOn targets i) }
    ensures jumps { IfOk result (λ i. JumpsTo jump i) }
    ensures value { Gives (λ i. i) result (if_of line jump (map (λ w. w.now) words.now)) }
{
    let [register, mask, value] = words else {
        return Err(JumpWord::If.miscounted(line));
    };
    let register = register_in(line, 1, register)?;
    let (mask, value) = bits_of(line, mask, value)?;
    Ok(Instr::If {
        register,
        mask,
        value,
        jump,
    })
}

#[tactic(auto, unfolding(crate::specs::JumpLines::above_of))]
pub(crate) fn above_of(line: usize, jump: usize, words: &[&str]) -> Parsed
    ensures fits { IfOk result (λ i. (targets : ℕ) → IsInstrOn targets i) }
    ensures jumps { IfOk result (λ i. JumpsTo jump i) }
    ensures value { Gives (λ i. i) result
        (above_of line jump (map (λ w. w.now) words.now)) }
{
    let [register, value] = words else {
        return Err(JumpWord::Above.miscounted(line));
    };
    let register = register_in(line, 1, register)?;
    let value = word_in(line, 2, value)?;
    Ok(Instr::Above {
        register,
        value,
        jump,
    })
}

#[tactic(auto, unfolding(crate::specs::JumpLines::again_of))]
pub(crate) fn again_of(line: usize, jump: usize, words: &[&str]) -> Parsed
    ensures fits { IfOk result (λ i. (targets : ℕ) → IsInstrOn targets i) }
    ensures jumps { IfOk result (λ i. JumpsTo jump i) }
    ensures value { Gives (λ i. i) result
        (again_of line jump (map (λ w. w.now) words.now)) }
{
    let [counter] = words else {
        return Err(JumpWord::Again.miscounted(line));
    };
    let counter = counter_in(line, 1, counter)?;
    Ok(Instr::Again { counter, jump })
}

pub(crate) fn goto_of(line: usize, jump: usize, words: &[&str]) -> Parsed
    ensures fits { IfOk result (λ i. (targets : ℕ) → IsInstrOn targets i) }
    ensures jumps { IfOk result (λ i. JumpsTo jump i) }
    ensures value { Gives (λ i. i) result
        (goto_of line jump (map (λ w. w.now) words.now)) }
{
    if !words.is_empty() {
        return Err(JumpWord::Goto.miscounted(line));
    }
    Ok(Instr::Goto { jump })
}
