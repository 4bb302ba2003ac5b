//! The numbers of a plan's lines.

ghost use Rattle.std.specs.Prelude.{◌≡◌, ◌≤◌, option_copied, IfSome, codes};
ghost use Rattle.plans.specs.Numbers.{before_ending, ticks_of_milliseconds, ticks_of_microseconds};
ghost use Rattle.plans.specs.Numbers.{whole_ticks, ticks_by_unit, some_positive, ticks_of};
ghost use Rattle.plans.specs.Numbers.{retry_count, poll_count};

use texts::decimal_within;

/// The ticks of a millisecond.
const TICKS_OF_MILLISECOND: u64 = 200;

/// The microseconds of a tick.
const MICROSECONDS_OF_TICK: u64 = 5;

/// The most ticks of 5 µs before power is asked about again: 50 seconds.
pub const MOST_TICKS: u64 = 10_000_000;

/// The most times that a message is tried again, and that STATUS_WORD is asked.
pub const MOST_TIMES: u64 = 1000;

/// What stands before an ending.
pub(crate) fn before_ending<'a>(ending: &str, word: &'a str) -> Option<&'a str>
    ensures { option_copied result ≡ before_ending ending.now word.now }
{
    word.strip_suffix(ending)
}

fn ticks_of_milliseconds(text: &str) -> Option<u64>
    ensures value { result ≡ ticks_of_milliseconds text.now }
    ensures few { IfSome result (λ n. n ≤ 10000000) }
{
    let milliseconds = decimal_within(text, MOST_TICKS / TICKS_OF_MILLISECOND)?;
    Some(milliseconds * TICKS_OF_MILLISECOND)
}

fn ticks_of_microseconds(text: &str) -> Option<u64>
    ensures value { result ≡ ticks_of_microseconds text.now }
    ensures few { IfSome result (λ n. n ≤ 10000000) }
{
    let microseconds = decimal_within(text, MOST_TICKS * MICROSECONDS_OF_TICK)?;
    if microseconds % MICROSECONDS_OF_TICK == 0 {
        Some(microseconds / MICROSECONDS_OF_TICK)
    } else {
        None
    }
}

fn ticks_by_unit(word: &str) -> Option<u64>
    ensures value { result ≡ ticks_by_unit word.now (before_ending (codes "ms") word.now)
        (before_ending (codes "us") word.now) }
    ensures few { IfSome result (λ n. n ≤ 10000000) }
{
    if let Some(milliseconds) = before_ending("ms", word) {
        return ticks_of_milliseconds(milliseconds);
    }
    match before_ending("us", word) {
        Some(microseconds) => ticks_of_microseconds(microseconds),
        None => decimal_within(word, MOST_TICKS),
    }
}

/// Ticks of 5 µs, 1 to 10,000,000: a number of them, of milliseconds with `ms` behind it, or of
/// microseconds, a multiple of 5, with `us` behind it.
pub(crate) fn ticks_of(word: &str) -> Option<u32>
    ensures value { result ≡ ticks_of word.now }
    ensures some { IfSome result (λ n. 1 ≤ n) }
    ensures few { IfSome result (λ n. n ≤ 10000000) }
{
    let ticks = ticks_by_unit(word).filter(|ticks| *ticks > 0)?;
    Some(ticks as u32)
}

/// How many times is tried again, 0 to 1000.
pub(crate) fn retry_count(word: &str) -> Option<u16>
    ensures value { result ≡ retry_count word.now }
    ensures few { IfSome result (λ n. n ≤ 1000) }
{
    let times = decimal_within(word, MOST_TIMES)?;
    Some(times as u16)
}

/// How many times is asked, 1 to 1000.
pub(crate) fn poll_count(word: &str) -> Option<u16>
    ensures value { result ≡ poll_count word.now }
    ensures some { IfSome result (λ n. 1 ≤ n) }
    ensures few { IfSome result (λ n. n ≤ 1000) }
{
    retry_count(word).filter(|times| *times > 0)
}
