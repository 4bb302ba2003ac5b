//! Answers as lines that are read back.

ghost use Rattle.std.specs.Prelude.{◌≡◌, ◌≤◌, ◌<◌, ◌++◌, ◌↔◌, ◌==◌, ℕ, [], All, IfOk, IfSome};
ghost use Rattle.std.specs.Prelude.{IsTrue, OnOk, Ok, Some, codes, if◌then◌else◌, option_map};
ghost use Rattle.std.specs.Prelude.{option_and_then, string_bytes};
ghost use Rattle.std.specs.Fmt.{decimal};
ghost use Rattle.std.specs.List.{join_with_byte};
ghost use Rattle.smbus.specs.Contenders.{Contender as OtherController};
ghost use Rattle.texts.specs.Hex.{pairs_text};
ghost use Rattle.bundles.specs.AnswerLines.{answer_line_of};
ghost use Rattle.bundles.specs.AnswerLineTexts.{hold_text, held_texts, holds_value, number_value};
ghost use Rattle.bundles.specs.AnswerLineTexts.{bytes_value, took_value, contender_text};
ghost use Rattle.bundles.specs.AnswerLineTexts.{said_values, answer_text};
ghost use Rattle.bundles.specs.AnswerTexts.{ends_held, AreSayable, CanBeSaid};
ghost use Rattle.bundles.specs.SpelledAnswers.{key_values};
ghost use Rattle.bundles.specs.TextLines.{IsLineOf};
ghost use Rattle.bundles.specs.WrittenWords.{spaced, with_value, with_values, written_line};
ghost use Rattle.bundles.specs.WrittenWords.{IsTypedContender, IsTyped};
ghost use Rattle.bit_bus.specs.declared.plan.TheConstants.{LONGEST_HOLD};

use bit_bus::{LONGEST_HOLD, MOST_SLOTS};
use smbus::{Answer, Contender};
use std::alloc::{AllocError, Global};
use texts::{numbers_read_back, push_pair};

fn are_short(holds: &[u16]) -> bool
    ensures { IsTrue result ↔ All (λ hold. hold ≤ LONGEST_HOLD) holds.now }
{
    holds.iter().all(|hold| *hold <= LONGEST_HOLD)
}

/// Whether the last slot, if there is one, is held.
fn ends_held(holds: &[u16]) -> bool
    ensures { result ≡ ends_held holds.now }
{
    match holds.last() {
        Some(hold) => *hold != 0,
        None => true,
    }
}

fn are_sayable(holds: &[u16]) -> bool
    ensures { IsTrue result ↔ AreSayable holds.now }
{
    holds.len() <= MOST_SLOTS && are_short(holds) && ends_held(holds)
}

/// Whether an answer line can say an answer: each list of holds has at most 4096 slots and holds of
/// at most 6999, and ends with a slot that is held.
pub fn can_be_said(answer: &Answer) -> bool
    ensures { IsTrue result ↔ CanBeSaid answer.now }
{
    match &answer.contender {
        Some(contender) => are_sayable(&answer.holds) && are_sayable(&contender.holds),
        None => are_sayable(&answer.holds),
    }
}

/// Begins a word: behind a space, unless it is the first.
fn push_key(text: &mut String, key: &str) -> Result<(), AllocError>
    ensures { OnOk result
        (string_bytes text.new ≡ spaced (string_bytes text.old) ++ key.now) }
{
    if !text.is_empty() {
        text.push(' ')?;
    }
    text.push_str(key)
}

/// Adds a slot behind what parts it from those before it, if it is held, and says what parts the
/// next from it.
fn push_hold<'a>(
    text: &mut String,
    comma: &'a str,
    slot: usize,
    hold: u16,
) -> Result<&'a str, AllocError>
    ensures added { OnOk result (string_bytes text.new ≡ string_bytes text.old
        ++ (if hold == 0 then [] else comma.now ++ hold_text (slot, hold))) }
    ensures next { IfOk result
        (λ next. next.now ≡ (if hold == 0 then comma.now else codes ",")) }
{
    if hold == 0 {
        return Ok(comma);
    }
    write!(text, "{comma}{slot}:{hold}")?;
    Ok(",")
}

/// Adds the slots that are held, with commas between them.
fn push_slots(text: &mut String, holds: &[u16]) -> Result<(), AllocError>
    ensures { OnOk result (string_bytes text.new
        ≡ string_bytes text.old ++ join_with_byte 44 (held_texts 0 holds.now)) }
{
    let mut comma = "";
    for (slot, hold) in holds.iter().enumerate() {
        comma = push_hold(text, comma, slot, *hold)?;
    }
    Ok(())
}

/// Adds the word of holds, if there are some.
fn push_holds(text: &mut String, key: &str, holds: &[u16]) -> Result<(), AllocError>
    ensures { OnOk result (string_bytes text.new
        ≡ with_value (string_bytes text.old) key.now (holds_value holds.now)) }
{
    if holds.is_empty() {
        return Ok(());
    }
    push_key(text, key)?;
    push_slots(text, holds)
}

/// Adds the word of a number in hexadecimal digits, if it isn't 0.
fn push_number(text: &mut String, key: &str, number: u16) -> Result<(), AllocError>
    ensures { OnOk result (string_bytes text.new
        ≡ with_value (string_bytes text.old) key.now (number_value number)) }
{
    if number == 0 {
        return Ok(());
    }
    push_key(text, key)?;
    write!(text, "{number:X}")
}

/// Adds the number of a byte that isn't acknowledged, if there is one.
fn push_refuse(text: &mut String, refuse: Option<u16>) -> Result<(), AllocError>
    ensures { OnOk result (string_bytes text.new
        ≡ with_value (string_bytes text.old) (codes "refuse=") (option_map decimal refuse)) }
{
    match refuse {
        Some(number) => {
            push_key(text, "refuse=")?;
            write!(text, "{number}")
        }
        None => Ok(()),
    }
}

/// Adds the two digits of each byte.
fn push_pairs(text: &mut String, bytes: &[u8]) -> Result<(), AllocError>
    ensures { OnOk result
        (string_bytes text.new ≡ string_bytes text.old ++ pairs_text bytes.now) }
{
    for byte in bytes {
        push_pair(text, *byte)?;
    }
    Ok(())
}

/// Adds the word of a block, if it has bytes.
fn push_bytes(text: &mut String, bytes: &[u8]) -> Result<(), AllocError>
    ensures { OnOk result (string_bytes text.new
        ≡ with_value (string_bytes text.old) (codes "bytes=") (bytes_value bytes.now)) }
{
    if bytes.is_empty() {
        return Ok(());
    }
    push_key(text, "bytes=")?;
    push_pairs(text, bytes)
}

/// Adds the word of a write that takes effect.
fn push_took(text: &mut String, took: bool) -> Result<(), AllocError>
    ensures { OnOk result (string_bytes text.new
        ≡ with_value (string_bytes text.old) (codes "took=") (took_value took)) }
{
    if !took {
        return Ok(());
    }
    push_key(text, "took=")?;
    text.push('1')
}

/// Adds the word of another controller: its address byte, and its data bytes behind a colon.
fn push_contender(text: &mut String, contender: &Contender) -> Result<(), AllocError>
    ensures { OnOk result (string_bytes text.new ≡ with_value (string_bytes text.old)
        (codes "contender=") (Some (contender_text contender.now))) }
{
    push_key(text, "contender=")?;
    push_pair(text, 2 * contender.address + u8::from(contender.read))?;
    text.push(':')?;
    push_pairs(text, &contender.bytes)
}

/// Adds the words of another controller and of its holds, if there is one.
fn push_other(text: &mut String, contender: &Option<Contender>) -> Result<(), AllocError>
    ensures { OnOk result (string_bytes text.new ≡ with_value (with_value (string_bytes text.old)
        (codes "contender=") (option_map contender_text contender.now)) (codes "cholds=")
        (option_and_then (λ (c : OtherController). holds_value c.holds) contender.now)) }
{
    match contender {
        Some(contender) => {
            push_contender(text, contender)?;
            push_holds(text, "cholds=", &contender.holds)
        }
        None => Ok(()),
    }
}

/// Adds the words of an answer.
fn push_words(text: &mut String, answer: &Answer) -> Result<(), AllocError>
    ensures { OnOk result (string_bytes text.new
        ≡ with_values (string_bytes text.old) (key_values (said_values answer.now))) }
{
    push_holds(text, "holds=", &answer.holds)?;
    push_refuse(text, answer.refuse)?;
    push_number(text, "value=", answer.value)?;
    push_bytes(text, &answer.bytes)?;
    push_took(text, answer.took)?;
    push_number(text, "alerts=", answer.alerts)?;
    push_other(text, &answer.contender)
}

fn written_line(alloc: Global, answer: &Answer) -> Result<String, AllocError>
    ensures { IfOk result (λ line. string_bytes line ≡ written_line answer.now) }
{
    let mut text = String::new(alloc);
    push_words(&mut text, answer)?;
    if text.is_empty() {
        text.push('-')?;
    }
    Ok(text)
}

pub(crate) fn are_bytes(bytes: &[u8])
    ensures { All (λ byte. byte < 256) bytes.now }
{}

fn is_typed_contender(contender: &Contender)
    ensures { IsTypedContender contender.now }
{
    are_bytes(&contender.bytes);
}

fn is_typed_other(contender: &Option<Contender>)
    ensures { IfSome contender.now IsTypedContender }
{
    if let Some(contender) = contender {
        is_typed_contender(contender);
    }
}

fn is_word(number: u16)
    ensures { number < 65536 }
{}

/// What every answer of the code keeps to: its numbers are within their types.
fn is_typed(answer: &Answer)
    ensures { IsTyped answer.now }
{
    if let Some(number) = answer.refuse {
        is_word(number);
    }
    is_word(answer.value);
    are_bytes(&answer.bytes);
    is_word(answer.alerts);
    is_typed_other(&answer.contender);
}

/// The line of an answer that can be said, which is a line of a text of answers too.
pub(crate) fn said_line(alloc: Global, answer: &Answer) -> Result<String, AllocError>
    requires { CanBeSaid answer.now }
    ensures text { IfOk result (λ line. string_bytes line ≡ answer_text answer.now) }
    ensures says { IfOk result (λ line. IsLineOf (string_bytes line) answer.now) }
{
    is_typed(answer);
    numbers_read_back();
    written_line(alloc, answer)
}

/// The line that says an answer: `-` where it is the answer of no words, and else its words in the
/// order of their keys, each where it isn't what a missing word says. Reading the line gives the
/// answer. Fails only for want of memory.
pub fn answer_line(alloc: Global, answer: &Answer) -> Result<String, AllocError>
    requires { CanBeSaid answer.now }
    ensures text { IfOk result (λ line. string_bytes line ≡ answer_text answer.now) }
    ensures read { IfOk result
        (λ line. (number : ℕ) → answer_line_of number (string_bytes line) ≡ Ok answer.now) }
{
    said_line(alloc, answer)
}
