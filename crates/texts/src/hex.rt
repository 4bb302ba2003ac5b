ghost use Rattle.std.specs.Prelude.{◌≡◌, ◌<◌, ◌≤◌, ◌+◌, ◌++◌, ℕ, List, [], ◌∷◌, All, IsTrue, IsOk};
ghost use Rattle.std.specs.Prelude.{IfOk, OnOk, OnErr, IfSome, Some, option_map};
ghost use Rattle.std.specs.Prelude.{string_bytes, string_len, string_capacity};
ghost use Rattle.std.specs.List.{list_all};
ghost use Rattle.std.specs.Char.{digit_value};
ghost use Rattle.texts.specs.Hex.{is_digit, digit_of, pair_of, pair_text, pairs_of, pairs_text};
ghost use Rattle.texts.specs.Hex.{hex_number, word_text};

use std::alloc::{AllocError, Global};

/// What the code of a letter is above its value: `A` stands for 10.
const LETTERS: u8 = b'A' - 10;

fn is_digit(byte: u8) -> bool
    ensures { result ≡ is_digit byte }
{
    byte.is_ascii_digit() || (b'A'..=b'F').contains(&byte)
}

fn has_digits(bytes: &[u8]) -> bool
    ensures { result ≡ list_all is_digit bytes.now }
{
    bytes.iter().all(|byte| is_digit(*byte))
}

/// The byte that exactly two upper case hexadecimal digits spell; `None` for any other text.
pub fn pair_of(text: &str) -> Option<u8>
    ensures value { result ≡ pair_of text.now }
    ensures spelled { IfSome result (λ byte. text.now ≡ pair_text byte) }
    ensures only { (byte : ℕ) → byte < 256 → text.now ≡ pair_text byte → result ≡ Some byte }
{
    if text.len() != 2 || !has_digits(text.as_bytes()) {
        return None;
    }
    u8::from_str_radix(text, 16).ok()
}

/// The number that one to four upper case hexadecimal digits spell; `None` for any other text.
pub fn hex_number(text: &str) -> Option<u16>
    ensures value { result ≡ hex_number text.now }
    ensures only { (word : ℕ) → word < 65536 → text.now ≡ word_text word → result ≡ Some word }
{
    if text.is_empty() || text.len() > 4 || !has_digits(text.as_bytes()) {
        return None;
    }
    u16::from_str_radix(text, 16).ok()
}

fn digit_value(digit: u8) -> u8
    requires { IsTrue (is_digit digit) }
    ensures value { result ≡ digit_value digit }
    ensures small { result < 16 }
{
    if digit < b'A' {
        digit - b'0'
    } else {
        digit - LETTERS
    }
}

fn byte_of(high: u8, low: u8) -> Option<u8>
    ensures { result ≡ pair_of (high ∷ low ∷ []) }
{
    if is_digit(high) && is_digit(low) {
        Some(16 * digit_value(high) + digit_value(low))
    } else {
        None
    }
}

/// The bytes that pairs of upper case hexadecimal digits spell, none for the empty text; `None` for
/// any other text. Fails only for want of memory.
#[tactic(auto, unfolding(crate::specs::Hex::pairs_of))]
pub fn pairs_of(alloc: Global, text: &str) -> Result<Option<Vec<u8>>, AllocError>
    ensures value { IfOk result (λ r. option_map (λ v. v.items) r ≡ pairs_of text.now) }
    ensures spelled { IfOk result (λ r. IfSome r (λ v. text.now ≡ pairs_text v.items)) }
    ensures only { IfOk result (λ r. (bytes : List ℕ) → All (λ b. b < 256) bytes →
        text.now ≡ pairs_text bytes → option_map (λ v. v.items) r ≡ Some bytes) }
{
    let mut bytes = Vec::with_capacity(alloc, text.len() / 2)?;
    let mut rest = text.as_bytes();
    while let [high, low, more @ ..] = rest {
        let Some(byte) = byte_of(*high, *low) else {
            return Ok(None);
        };
        bytes.push(byte)?;
        rest = more;
    }
    if rest.is_empty() {
        Ok(Some(bytes))
    } else {
        Ok(None)
    }
}

fn digit_of(n: u8) -> char
    requires { n < 16 }
    ensures { result ≡ digit_of n }
{
    if n < 10 {
        char::from(n + b'0')
    } else {
        char::from(n + LETTERS)
    }
}

/// Appends the two upper case hexadecimal digits of a byte. Where memory is short the text stays.
pub fn push_pair(text: &mut String, byte: u8) -> Result<(), AllocError>
    ensures ok { OnOk result (string_bytes text.new ≡ string_bytes text.old ++ pair_text byte) }
    ensures err { OnErr result (string_bytes text.new ≡ string_bytes text.old) }

    // It fails only where there was no room.
    ensures room { string_len text.old + 2 ≤ string_capacity text.old → IsOk result }
    ensures len { OnOk result (string_len text.new ≡ string_len text.old + 2) }
    ensures capacity { string_capacity text.old ≤ string_capacity text.new }
{
    text.try_reserve(2)?;
    text.push(digit_of(byte / 16))?;
    text.push(digit_of(byte % 16))?;
    Ok(())
}

/// Appends the four upper case hexadecimal digits of a word. Where memory is short the text stays.
pub fn push_word(text: &mut String, word: u16) -> Result<(), AllocError>
    ensures ok { OnOk result (string_bytes text.new ≡ string_bytes text.old ++ word_text word) }
    ensures err { OnErr result (string_bytes text.new ≡ string_bytes text.old) }
{
    let [high, low] = word.to_be_bytes();
    text.try_reserve(4)?;
    push_pair(text, high)?;
    push_pair(text, low)?;
    Ok(())
}
