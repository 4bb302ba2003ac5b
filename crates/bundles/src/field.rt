ghost use Rattle.std.specs.Prelude.{◌≡◌, ◌≤◌, ◌-◌, ◌++◌, ◌∷◌, [], ◌==◌, ℕ};
ghost use Rattle.std.specs.Prelude.{replicate, option_map, option_copied, vec_len, IfOk, OnOk};
ghost use Rattle.std.specs.Prelude.{IfSome, All, Some, None, option_and_then, if◌then◌else◌};
ghost use Rattle.std.specs.List.{slice_split};
ghost use Rattle.bundles.specs.Texts.{texts_of};
ghost use Rattle.bundles.specs.Flaws.{bad_field, bad_word};
ghost use Rattle.bundles.specs.Keys.{key_text};
ghost use Rattle.bundles.specs.Fields.{after_key, value_of, rest_of, refuse_of, number_of};
ghost use Rattle.bundles.specs.Fields.{bytes_of, cut_at};
ghost use Rattle.bundles.specs.Holds.{hold_of, holds_of};
ghost use Rattle.bundles.specs.HoldsRead.{with_hold, holds_from};

use crate::flaw::{Flaw, Key};
use bit_bus::LONGEST_HOLD;
use std::alloc::{AllocError, Global};
use texts::{decimal_within, hex_number, pairs_of};

/// The words of a line that aren't read yet, each of them KEY=VALUE.
#[derive(Debug, Drop)]
pub struct Fields<'a> {
    pub words: &'a [&'a str],
}

/// What stands after the key, if the word begins with it.
fn after_key<'a>(key: &str, word: &'a str) -> Option<&'a str>
    ensures { option_copied result ≡ after_key key.now word.now }
{
    word.strip_prefix(key)
}

impl<'a> Fields<'a> {
    /// Takes the first word, if it has this key, and gives its value.
    #[tactic(auto, unfolding(crate::specs::Fields::value_of, crate::specs::Fields::rest_of))]
    pub fn take(&mut self, key: Key) -> Option<&'a str>
        ensures value { option_copied result
            ≡ value_of (key_text key) (texts_of self.old.words.now) }
        ensures rest { texts_of self.new.words.now
            ≡ rest_of (key_text key) (texts_of self.old.words.now) }
    {
        let [word, rest @ ..] = self.words else {
            return None;
        };
        match after_key(key.text(), word) {
            Some(value) => {
                self.words = rest;
                Some(value)
            }
            None => None,
        }
    }

    /// The flaw where the field of this key comes next.
    pub fn bad(&self, key: Key) -> Flaw
        ensures { result ≡ bad_field key (texts_of self.now.words.now) }
    {
        Flaw::Field(key, self.words.len())
    }

    /// The flaw where no field takes the word that comes next.
    pub fn unread(&self) -> Flaw
        ensures { result ≡ bad_word (texts_of self.now.words.now) }
    {
        Flaw::Word(self.words.len())
    }
}

/// The number of a controller's byte, where one is given.
pub fn refuse_of(text: Option<&str>) -> Option<Option<u16>>
    ensures { result ≡ refuse_of (option_copied text.entry) }
{
    match text {
        None => Some(None),
        Some(text) => match decimal_within(text, 65_535) {
            Some(number) => Some(Some(number as u16)),
            None => None,
        },
    }
}

/// A word that was read, or 0.
pub fn number_of(text: Option<&str>) -> Option<u16>
    ensures { result ≡ number_of (option_copied text.entry) }
{
    match text {
        None => Some(0),
        Some(text) => hex_number(text),
    }
}

/// Bytes, one at least where they are given.
pub fn bytes_of(alloc: Global, text: Option<&str>) -> Result<Option<Vec<u8>>, AllocError>
    ensures { IfOk result
        (λ bytes. option_map (λ b. b.items) bytes ≡ bytes_of (option_copied text.entry)) }
{
    match text {
        None => Ok(Some(Vec::new(alloc))),
        Some("") => Ok(None),
        Some(text) => pairs_of(alloc, text),
    }
}

/// What stands before the first colon, and after it.
pub(crate) fn cut_at_colon(text: &str) -> Option<(&str, &str)>
    ensures { option_map (λ p. (p.0.now, p.1.now)) result ≡ cut_at 58 text.now }
{
    text.split_once(':')
}

/// A slot and its hold.
fn hold_of(part: &str) -> Option<(usize, u16)>
    ensures value { result ≡ hold_of part.now }
    ensures held { IfSome result (λ hold. hold.1 ≤ LONGEST_HOLD) }
{
    let (slot, hold) = cut_at_colon(part)?;
    let slot = decimal_within(slot, 4095)?;
    let hold = decimal_within(hold, u64::from(LONGEST_HOLD))?;
    Some((slot as usize, hold as u16))
}

/// The parts between commas.
pub fn parts_of<'a>(alloc: Global, text: &'a str) -> Result<Vec<&'a str>, AllocError>
    ensures { IfOk result (λ parts. texts_of parts.items ≡ slice_split (λ b. b == 44) text.now) }
{
    let mut parts = Vec::new(alloc);
    for part in text.split(',') {
        parts.push(part)?;
    }
    Ok(parts)
}

/// Adds the hold of a slot behind the others.
fn push_hold(holds: &mut Vec<u16>, slot: usize, hold: u16) -> Result<(), AllocError>
    requires behind { vec_len holds.old ≤ slot }
    requires hold_held { hold ≤ LONGEST_HOLD }
    requires held { All (λ hold. hold ≤ LONGEST_HOLD) holds.old.items }
    ensures held { OnOk result (All (λ hold. hold ≤ LONGEST_HOLD) holds.new.items) }
    ensures added { OnOk result
        (holds.new.items ≡ holds.old.items ++ replicate (slot - vec_len holds.old) 0 ++ hold ∷ []) }
{
    holds.resize(slot, 0)?;
    holds.push(hold)?;
    Ok(())
}

/// Adds the hold that a part names, if its slot stands behind the others.
fn push_named(holds: &mut Vec<u16>, part: &str) -> Result<bool, AllocError>
    requires { All (λ hold. hold ≤ LONGEST_HOLD) holds.old.items }
    ensures held { OnOk result (All (λ hold. hold ≤ LONGEST_HOLD) holds.new.items) }
    ensures added { IfOk result
        (λ is_added. option_and_then (with_hold holds.old.items) (hold_of part.now)
        ≡ (if is_added then Some holds.new.items else None)) }
{
    match hold_of(part) {
        Some((slot, hold)) if slot >= holds.len() => {
            push_hold(holds, slot, hold)?;
            Ok(true)
        }
        _ => Ok(false),
    }
}

/// The holds of all slots up to the last that is named.
#[tactic(auto, unfolding(crate::specs::HoldsRead::holds_from))]
fn listed_holds(alloc: Global, parts: &[&str]) -> Result<Option<Vec<u16>>, AllocError>
    ensures held { IfOk result
        (λ holds. IfSome holds (λ h. All (λ hold. hold ≤ LONGEST_HOLD) h.items)) }
    ensures value { IfOk result
        (λ holds. option_map (λ h. h.items) holds ≡ holds_from [] (texts_of parts.now)) }
{
    let mut holds = Vec::new(alloc);
    for part in parts {
        if !push_named(&mut holds, part)? {
            return Ok(None);
        }
    }
    Ok(Some(holds))
}

/// The holds of the slots, in ascending order of the slots.
#[tactic(auto, using(crate::proofs::HoldsLaw::holds_from_named))]
pub fn holds_of(alloc: Global, text: Option<&str>) -> Result<Option<Vec<u16>>, AllocError>
    ensures held { IfOk result
        (λ holds. IfSome holds (λ h. All (λ hold. hold ≤ LONGEST_HOLD) h.items)) }
    ensures value { IfOk result
        (λ holds. option_map (λ h. h.items) holds ≡ holds_of (option_copied text.entry)) }
{
    match text {
        None => Ok(Some(Vec::new(alloc))),
        Some(text) => {
            let parts = parts_of(alloc, text)?;
            listed_holds(alloc, &parts)
        }
    }
}
