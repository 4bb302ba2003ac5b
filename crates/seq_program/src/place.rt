//! The line of a place.

ghost use Rattle.std.specs.Prelude.{◌≡◌, IfOk};
ghost use Rattle.texts.specs.Words.{lines_by_feed};
ghost use Rattle.seq_program.specs.Places.{has_instruction, place_line, place_lines};

use crate::labels::label_in;
use std::alloc::{AllocError, Global};
use texts::{first_by_feed, without_comment, words_of};

/// Whether an instruction stands on a line.
fn has_instruction(alloc: Global, line: &str) -> Result<bool, AllocError>
    ensures { IfOk result (λ has. has ≡ has_instruction line.now) }
{
    let words = words_of(alloc, without_comment(line))?;
    Ok(!words.is_empty() && label_in(&words).is_none())
}

/// The numbers of the lines with the instructions of all places, counted from 1. AllocError is
/// answered where a growth was refused.
pub fn place_lines(alloc: Global, text: &str) -> Result<Vec<usize>, AllocError>
    ensures { IfOk result (λ lines. lines.items ≡ place_lines (lines_by_feed text.now)) }
{
    let mut lines = Vec::new(alloc);
    let mut number = 1;
    let mut rest = text;
    while let Some((line, below)) = first_by_feed(rest) {
        if has_instruction(alloc, line)? {
            lines.push(number)?;
        }
        number += 1;
        rest = below;
    }
    Ok(lines)
}

/// The number of the line with the instruction of a place, counted from 1; None where there is no
/// such place. AllocError is answered where a growth was refused.
pub fn place_line(alloc: Global, text: &str, place: usize) -> Result<Option<usize>, AllocError>
    ensures { IfOk result (λ number. number ≡ place_line place (lines_by_feed text.now)) }
{
    Ok(place_lines(alloc, text)?.get(place).copied())
}
