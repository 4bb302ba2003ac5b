//! Voltages of a plan's lines: mantissas, or volts.

ghost use Rattle.std.specs.Prelude.{◌≡◌, ◌≤◌, ◌<◌, IfSome};
ghost use Rattle.std.specs.List.{list_all};
ghost use Rattle.std.specs.Char.{is_ascii_digit};
ghost use Rattle.plans.specs.Volts.{millionths_of, microvolts_of, nearest_mantissa, mantissa_of};
ghost use Rattle.plans.specs.Volts.{nearest_among};

use crate::number::before_ending;
use pmbus_table::mantissas_in_volt;
use texts::decimal_within;

/// The microvolts of a volt.
const MICROVOLTS_OF_VOLT: u64 = 1_000_000;

/// The most digits behind the point.
const MOST_DIGITS: usize = 6;

/// The most whole volts.
const MOST_VOLTS: u64 = 9999;

fn has_digits(bytes: &[u8]) -> bool
    ensures { result ≡ list_all is_ascii_digit bytes.now }
{
    bytes.iter().all(|byte| byte.is_ascii_digit())
}

/// The millionths that the digits behind a point are.
fn millionths_of(digits: &str) -> Option<u64>
    ensures value { result ≡ millionths_of digits.now }
    ensures few { IfSome result (λ n. n < 1000000) }
{
    if digits.is_empty() || digits.len() > MOST_DIGITS || !has_digits(digits.as_bytes()) {
        return None;
    }
    let scale = 10u64.pow((MOST_DIGITS - digits.len()) as u32);
    let number: u64 = digits.parse().ok()?;
    Some(number * scale)
}

/// The microvolts of a decimal number of volts with a point in it.
fn microvolts_of(volts: &str) -> Option<u64>
    ensures value { result ≡ microvolts_of volts.now }
    ensures few { IfSome result (λ n. n < 10000000000) }
{
    let (whole, digits) = volts.split_once('.')?;
    let whole = decimal_within(whole, MOST_VOLTS)?;
    let millionths = millionths_of(digits)?;
    Some(whole * MICROVOLTS_OF_VOLT + millionths)
}

/// The mantissa whose voltage is nearest, and the higher one of two, if it has 16 bits.
fn nearest_among(microvolts: u64, in_volt: u64) -> Option<u16>
    requires few { microvolts < 10000000000 }
    requires scale { in_volt ≤ 65536 }
    ensures { result ≡ nearest_among microvolts in_volt }
{
    let mantissa = (microvolts * in_volt + MICROVOLTS_OF_VOLT / 2) / MICROVOLTS_OF_VOLT;
    u16::try_from(mantissa).ok()
}

fn nearest_mantissa(exponent: i8, microvolts: u64) -> Option<u16>
    requires { microvolts < 10000000000 }
    ensures { result ≡ nearest_mantissa exponent microvolts }
{
    nearest_among(microvolts, mantissas_in_volt(exponent)?)
}

/// The mantissa that a word says at an exponent of -16 to 0: the mantissa itself, or a number of
/// volts with `V` behind it.
pub(crate) fn mantissa_of(exponent: i8, word: &str) -> Option<u16>
    ensures { result ≡ mantissa_of exponent word.now }
{
    match before_ending("V", word) {
        Some(volts) => nearest_mantissa(exponent, microvolts_of(volts)?),
        None => {
            let mantissa = decimal_within(word, 65535)?;
            Some(mantissa as u16)
        }
    }
}
