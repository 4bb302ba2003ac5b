//! The word of a line that is to blame for a fault.

use seq_program::{Misfit, ProgramFault};
use texts::without_comment;

/// The number of the word that is to blame, among those of a line. Of too many words it is the
/// first that is one too many.
fn number_of(words: &[&str], fault: ProgramFault) -> Option<usize> {
    match fault {
        ProgramFault::UnknownLabel(_) => words.len().checked_sub(1),
        ProgramFault::BadOperand(_, Misfit::Count(count)) => count.checked_add(1),
        fault => fault.word(),
    }
}

/// The word of a number in a line, with what stands before it.
pub(crate) fn word_at(line: &str, number: usize) -> Option<(&str, &str)> {
    let mut start = 0usize;
    let mut met = 0usize;
    for part in line.split(' ') {
        if !part.is_empty() {
            if met == number {
                return Some((line.get(..start)?, part));
            }
            met = met.saturating_add(1);
        }
        start = start.saturating_add(part.len()).saturating_add(1);
    }
    None
}

/// The word of a line that is to blame for its fault, with what stands before it. None where it is
/// the whole line.
pub(crate) fn blamed_word<'a>(
    line: &'a str,
    words: &[&str],
    fault: ProgramFault,
) -> Option<(&'a str, &'a str)> {
    word_at(without_comment(line), number_of(words, fault)?)
}
