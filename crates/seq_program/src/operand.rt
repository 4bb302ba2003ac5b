//! Words of a line as operands.

ghost use Rattle.std.specs.Prelude.{◌≡◌, ◌<◌, ◌≤◌, length, option_copied, IfOk, IfSome};
ghost use Rattle.std.specs.List.{list_all, AllByRecursion};
ghost use Rattle.seq_program.specs.Operands.{numbered, register_of, counter_of, label_of};
ghost use Rattle.seq_program.specs.Operands.{direction_of, is_digit, hexadecimal_of, number_of};
ghost use Rattle.seq_program.specs.Operands.{number_within, block_of};

use crate::instr::{Block, Counter, Register};
use std::alloc::{AllocError, Global};
use texts::{decimal_within, is_name, pairs_of};

/// The digit behind a letter, if it is below a limit.
fn numbered(letter: u8, limit: u8, word: &str) -> Option<u8>
    requires { limit ≤ 10 }
    ensures value { result ≡ numbered letter limit word.now }
    ensures small { IfSome result (λ n. n < limit) }
{
    match word.as_bytes() {
        [first, digit] if *first == letter && (b'0'..b'0' + limit).contains(digit) => {
            Some(*digit - b'0')
        }
        _ => None,
    }
}

/// r0 to r7.
pub(crate) fn register_of(word: &str) -> Option<Register>
    ensures value { result ≡ register_of word.now }
    ensures small { IfSome result (λ r. r < 8) }
{
    let index = numbered(b'r', 8, word)?;
    Some(Register { index })
}

/// c0 to c3.
pub(crate) fn counter_of(word: &str) -> Option<Counter>
    ensures value { result ≡ counter_of word.now }
    ensures small { IfSome result (λ c. c < 4) }
{
    let index = numbered(b'c', 4, word)?;
    Some(Counter { index })
}

/// The name of a label.
pub(crate) fn label_of(word: &str) -> Option<&str>
    ensures { option_copied result ≡ label_of word.now }
{
    if is_name(word) { Some(word) } else { None }
}

/// Whether a quick command reads.
pub(crate) fn direction_of(word: &str) -> Option<bool>
    ensures { result ≡ direction_of word.now }
{
    match word {
        "r" => Some(true),
        "w" => Some(false),
        _ => None,
    }
}

fn is_digit(byte: u8) -> bool
    ensures { result ≡ is_digit byte }
{
    byte.is_ascii_hexdigit()
}

fn has_digits(bytes: &[u8]) -> bool
    ensures { result ≡ list_all is_digit bytes.now }
{
    bytes.iter().all(|byte| is_digit(*byte))
}

/// One to four hexadecimal digits of either case.
fn hexadecimal_of(digits: &str) -> Option<u32>
    ensures { result ≡ hexadecimal_of digits.now }
{
    if digits.is_empty() || digits.len() > 4 || !has_digits(digits.as_bytes()) {
        return None;
    }
    u32::from_str_radix(digits, 16).ok()
}

/// The number of a word.
fn number_of(word: &str) -> Option<u32>
    ensures { result ≡ number_of word.now }
{
    match word.strip_prefix("0x") {
        Some(digits) => hexadecimal_of(digits),
        None => {
            let number = decimal_within(word, 99_999_999)?;
            Some(number as u32)
        }
    }
}

/// A number of a range.
pub fn number_within(low: u32, high: u32, word: &str) -> Option<u32>
    ensures value { result ≡ number_within low high word.now }
    ensures within { IfSome result (λ n. (low ≤ n) × (n ≤ high)) }
{
    let number = number_of(word)?;
    if low <= number && number <= high {
        Some(number)
    } else {
        None
    }
}

/// A byte of a range.
pub(crate) fn byte_within(low: u8, high: u8, word: &str) -> Option<u8>
    ensures { result ≡ number_within low high word.now }
{
    let number = number_within(u32::from(low), u32::from(high), word)?;
    Some(number as u8)
}

/// A number of 16 bits of a range.
pub(crate) fn word_within(low: u16, high: u16, word: &str) -> Option<u16>
    ensures value { result ≡ number_within low high word.now }
    ensures within { IfSome result (λ n. (low ≤ n) × (n ≤ high)) }
{
    let number = number_within(u32::from(low), u32::from(high), word)?;
    Some(number as u16)
}

/// As many bytes as pairs of digits spell, one at least, and not more than `most`. Fails only for
/// want of memory.
pub(crate) fn block_of(alloc: Global, most: usize, word: &str) -> Result<Option<Block>, AllocError>
    requires { most ≤ 255 }
    ensures value { IfOk result (λ block. block ≡ block_of most word.now) }
    ensures sized { IfOk result
        (λ block. IfSome block (λ bytes. (1 ≤ length bytes) × (length bytes ≤ most))) }
    ensures bytes { IfOk result
        (λ block. IfSome block (λ bytes. AllByRecursion (λ b. b < 256) bytes)) }
{
    match pairs_of(alloc, word)? {
        Some(bytes) if (1..=most).contains(&bytes.len()) => Ok(Some(Block { bytes })),
        _ => Ok(None),
    }
}
