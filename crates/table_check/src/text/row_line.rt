//! The first and the last line of a row.

ghost use Rattle.std.specs.Prelude.{◌≡◌, map};
ghost use Rattle.table_check.specs.text.Saying.{number_of, five_numbers, numbers_of, ticks_said};
ghost use Rattle.table_check.specs.text.Saying.{has_row};
ghost use Rattle.table_check.specs.declared.text.version.Version.TheVariants.{First, Second};
ghost use Rattle.table_check.specs.text.Saying.{numbered, head_said};

use crate::text::set_line::after_key;
use crate::text::version::Version;
use texts::decimal_within;

fn number_of(text: &str) -> Option<u64>
    ensures { result ≡ number_of text.now }
{
    decimal_within(text, u64::MAX)
}

#[tactic(auto, unfolding(crate::specs::text::Saying::five_numbers))]
fn five_numbers(base: &str, k0: &str, k1: &str, k2: &str, k3: &str) -> Option<(u64, [u64; 4])>
    ensures { result ≡ five_numbers base.now k0.now k1.now k2.now k3.now }
{
    let base = number_of(base)?;
    let k0 = number_of(k0)?;
    let k1 = number_of(k1)?;
    let k2 = number_of(k2)?;
    let k3 = number_of(k3)?;
    Some((base, [k0, k1, k2, k3]))
}

/// The base of the ticks, a coefficient for each counter, and that of lost arbitrations.
pub(crate) type Ticks = (u64, [u64; 4], u64);

fn first_numbers(words: &[&str]) -> Option<Ticks>
    ensures { result ≡ numbers_of First (map (λ w. w.now) words.now) }
{
    match words {
        [base, k0, k1, k2, k3] => {
            let (base, coeffs) = five_numbers(base, k0, k1, k2, k3)?;
            Some((base, coeffs, 0))
        }
        _ => None,
    }
}

fn second_numbers(words: &[&str]) -> Option<Ticks>
    ensures { result ≡ numbers_of Second (map (λ w. w.now) words.now) }
{
    match words {
        [base, k0, k1, k2, k3, lost] => {
            let (base, coeffs) = five_numbers(base, k0, k1, k2, k3)?;
            Some((base, coeffs, number_of(lost)?))
        }
        _ => None,
    }
}

pub(crate) fn ticks_said(version: Version, words: &[&str]) -> Option<Ticks>
    ensures { result ≡ ticks_said version (map (λ w. w.now) words.now) }
{
    let numbers = after_key("ticks", words)?;
    match version {
        Version::First => first_numbers(numbers),
        Version::Second => second_numbers(numbers),
    }
}

fn has_row(words: &[&str]) -> Option<bool>
    ensures { result ≡ has_row (map (λ w. w.now) words.now) }
{
    match words {
        [] => Some(true),
        [word] if *word == "none" => Some(false),
        _ => None,
    }
}

fn numbered(place: usize, words: &[&str]) -> Option<bool>
    ensures { result ≡ numbered place (map (λ w. w.now) words.now) }
{
    match words {
        [word, rest @ ..] if number_of(word) == Some(place as u64) => has_row(rest),
        _ => None,
    }
}

/// Whether a row follows for a place; `None` where the line is no first line of this place.
pub(crate) fn head_said(place: usize, words: &[&str]) -> Option<bool>
    ensures { result ≡ head_said place (map (λ w. w.now) words.now) }
{
    numbered(place, after_key("row", words)?)
}
