//! Which values of a read make a difference to a program.

use board::Range;
use indexmap::IndexMap;
use pmbus_table::reported_good;
use seq_program::{Instr, Program};
use std::alloc::{AllocError, Global};

/// How many tests of a program are told apart, at most.
const MOST_TESTS: usize = 63;

/// How many values of one read are tried, at most.
const MOST_VALUES: usize = 64;

/// How many sums are told apart that may be added to a register before it is tested, at most.
const MOST_SUMS: usize = 8;

/// What a program asks of a number.
#[derive(Clone, Copy, PartialEq, Eq)]
enum Question {
    /// Whether these bits are these.
    Bits(u16, u16),
    /// Whether it is greater.
    Above(u16),
}

impl Question {
    fn of(instr: &Instr) -> Option<Question> {
        match instr {
            Instr::If { mask, value, .. } => Some(Question::Bits(*mask, *value)),
            Instr::Above { value, .. } => Some(Question::Above(*value)),
            _ => None,
        }
    }

    fn holds_of(self, number: u16) -> bool {
        match self {
            Question::Bits(mask, value) => number & mask == value,
            Question::Above(value) => number > value,
        }
    }
}

/// What a program asks of a register, once so much was added to it.
#[derive(Clone, Copy, PartialEq, Eq)]
pub(crate) struct Test {
    added: u16,
    question: Question,
}

impl Test {
    fn passes(self, number: u16) -> bool {
        self.question.holds_of(number.saturating_add(self.added))
    }
}

/// Adds a sum, unless it is there or there are too many.
fn push_sum(sums: &mut Vec<u16>, sum: u16) -> Result<(), AllocError> {
    if sums.len() < MOST_SUMS && !sums.contains(&sum) {
        sums.push(sum)?;
    }
    Ok(())
}

/// What may be added to a register before it is tested: nothing, or what one `add` adds.
fn sums_of(alloc: Global, program: &Program) -> Result<Vec<u16>, AllocError> {
    let mut sums = vec![in alloc; 0]?;
    for place in 0..program.places() {
        if let Some(Instr::Add { value, .. }) = program.at(place) {
            push_sum(&mut sums, *value)?;
        }
    }
    Ok(sums)
}

/// Adds the tests of a program behind a sum, each once.
fn push_tests(tests: &mut Vec<Test>, program: &Program, added: u16) -> Result<(), AllocError> {
    for place in 0..program.places() {
        let Some(question) = program.at(place).and_then(Question::of) else {
            continue;
        };
        let test = Test { added, question };
        if tests.len() < MOST_TESTS && !tests.contains(&test) {
            tests.push(test)?;
        }
    }
    Ok(())
}

/// The tests of a program, each once, and the same behind each `add`.
pub(crate) fn tests_of(alloc: Global, program: &Program) -> Result<Vec<Test>, AllocError> {
    let sums = sums_of(alloc, program)?;
    let mut tests = Vec::new(alloc);
    for added in &sums {
        push_tests(&mut tests, program, *added)?;
    }
    Ok(tests)
}

/// A bit for each test that a number passes, and one where it reports good.
fn outcomes(tests: &[Test], number: u16) -> u64 {
    let mut bits = u64::from(reported_good(number));
    for test in tests {
        bits = bits << 1 | u64::from(test.passes(number));
    }
    bits
}

/// The least and the greatest number of a range for each way in which all tests turn out.
fn ends_of(
    alloc: Global,
    tests: &[Test],
    range: Range,
) -> Result<IndexMap<u64, (u16, u16)>, AllocError> {
    let mut ends: IndexMap<u64, (u16, u16)> = IndexMap::new(alloc);
    for number in range.low..=range.high {
        let bits = outcomes(tests, number);
        let least = match ends.get(&bits) {
            Some((least, _)) => *least,
            None => number,
        };
        ends.insert(bits, (least, number))?;
    }
    Ok(ends)
}

/// The numbers of a range that make a difference: of each way in which the tests turn out the least
/// and the greatest.
pub(crate) fn telling_values(
    alloc: Global,
    tests: &[Test],
    range: Range,
) -> Result<Vec<u16>, AllocError> {
    let ends = ends_of(alloc, tests, range)?;
    let mut values = Vec::new(alloc);
    for (least, greatest) in ends.values() {
        if values.len() < MOST_VALUES {
            values.push(*least)?;
            if greatest != least {
                values.push(*greatest)?;
            }
        }
    }
    Ok(values)
}
