//! Numbers with a unit, as engineers write them and programs don't have them.

use pmbus_table::mantissas_in_volt;
use sentences::Figure::Number;
use sentences::Word::Text;
use sentences::{Sentence, say};
use texts::decimal_within;

/// The microseconds of a tick.
const TICK: u64 = 5;

/// The most of a unit that is read.
const MOST: u64 = 1_000_000_000;

/// What a decimal digit of a fraction is worth, in millionths, and the next one behind it.
fn millionths(fraction: &str) -> u64 {
    let mut sum = 0u64;
    let mut worth = 100_000u64;
    for digit in fraction.bytes() {
        sum = sum.saturating_add(u64::from(digit.saturating_sub(b'0')).saturating_mul(worth));
        worth /= 10;
    }
    sum
}

/// A number with a point or without, in millionths.
fn number_of(digits: &str) -> Option<u64> {
    let (whole, fraction) = digits.split_once('.').unwrap_or((digits, ""));
    let whole = decimal_within(whole, MOST)?;
    let parts = millionths(fraction);
    whole.checked_mul(1_000_000)?.checked_add(parts)
}

/// A number in millionths, and the unit behind it.
fn with_unit(word: &str) -> Option<(u64, &str)> {
    let is_part = |byte: u8| byte.is_ascii_digit() || byte == b'.';
    let end = word.bytes().take_while(|byte| is_part(*byte)).count();
    Some((number_of(word.get(..end)?)?, word.get(end..)?))
}

/// How many ticks a time is, where a word is one.
pub(crate) fn ticks_help(word: &str) -> Option<Sentence<'_>> {
    let (number, unit) = with_unit(word)?;
    let micros = match unit {
        "s" => number,
        "ms" => number / 1000,
        "us" => number / 1_000_000,
        _ => return None,
    };
    let ticks = Number(micros.div_ceil(TICK));
    Some(say![{Text(word)} " is " (ticks) " ticks of 5 us"])
}

/// The microvolts of a word that is a voltage: it has a point or a unit.
fn microvolts(word: &str) -> Option<u64> {
    let (number, unit) = with_unit(word)?;
    match unit {
        "V" => Some(number),
        "mV" => Some(number / 1000),
        "" if word.contains('.') => Some(number),
        _ => None,
    }
}

/// The mantissa of a voltage at an exponent, where a word is one.
pub(crate) fn mantissa_help(word: &str, exponent: i8) -> Option<Sentence<'_>> {
    let in_volt = mantissas_in_volt(exponent)?;
    let mantissa = microvolts(word)?.checked_mul(in_volt)? / 1_000_000;
    let digits = u64::from(exponent.unsigned_abs());
    Some(say![
        {Text(word)} " is the mantissa " (Number(mantissa)) " here, volts times 2 to the "
        (Number(digits))
    ])
}
