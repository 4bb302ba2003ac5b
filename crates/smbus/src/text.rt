ghost use Rattle.std.specs.Prelude.{◌≡◌, ◌++◌, ◌∷◌, OnOk, IfOk, map, string_bytes};
ghost use Rattle.std.specs.List.{flat_map};
ghost use Rattle.smbus.specs.Text.{byte_word, bytes_words, repeated_words, segments_words};
ghost use Rattle.smbus.specs.Text.{tail_words, bit_digit, spaced, text_of};

use crate::frame::{Frame, Segment};
use std::alloc::{AllocError, Global};
use texts::push_pair;

fn push_byte(text: &mut String, byte: u8, acknowledged: bool) -> Result<(), AllocError>
    ensures { OnOk result
        (string_bytes text.new ≡ string_bytes text.old ++ 32 ∷ byte_word (byte, acknowledged)) }
{
    let mark = if acknowledged { 'A' } else { 'N' };
    text.push(' ')?;
    push_pair(text, byte)?;
    text.push(mark)
}

fn push_bytes(text: &mut String, bytes: &[(u8, bool)]) -> Result<(), AllocError>
    ensures { OnOk result
        (string_bytes text.new ≡ string_bytes text.old ++ spaced (bytes_words bytes.now)) }
{
    text.reserve(bytes.len().saturating_mul(4))?;
    for (byte, acknowledged) in bytes {
        push_byte(text, *byte, *acknowledged)?;
    }
    Ok(())
}

fn push_repeated(text: &mut String, segments: &[Segment]) -> Result<(), AllocError>
    ensures { OnOk result (string_bytes text.new
        ≡ string_bytes text.old ++ spaced (flat_map repeated_words segments.now)) }
{
    for segment in segments {
        text.push_str(" Sr")?;
        push_bytes(text, &segment.bytes)?;
    }
    Ok(())
}

fn push_segments(text: &mut String, segments: &[Segment]) -> Result<(), AllocError>
    ensures { OnOk result
        (string_bytes text.new ≡ string_bytes text.old ++ spaced (segments_words segments.now)) }
{
    if let [first, later @ ..] = segments {
        push_bytes(text, &first.bytes)?;
        push_repeated(text, later)?;
    }
    Ok(())
}

fn push_bits(text: &mut String, bits: &[bool]) -> Result<(), AllocError>
    ensures { OnOk result
        (string_bytes text.new ≡ string_bytes text.old ++ map bit_digit bits.now) }
{
    for bit in bits {
        text.push(if *bit { '1' } else { '0' })?;
    }
    Ok(())
}

fn push_tail(text: &mut String, tail: &[bool]) -> Result<(), AllocError>
    ensures { OnOk result
        (string_bytes text.new ≡ string_bytes text.old ++ spaced (tail_words tail.now)) }
{
    if tail.is_empty() {
        return Ok(());
    }
    text.push_str(" /")?;
    push_bits(text, tail)
}

/// The text of a frame, such as `S 80A 79A Sr 81A 40A 08N P`: `S`, each byte as two upper case
/// hexadecimal digits with `A` where it was acknowledged and `N` where it wasn't, `Sr` before each
/// later segment, `/` and the bits of a nonempty tail, and `P`. Fails only for want of memory.
#[tactic(auto, unfolding(crate::specs::Text::text_of))]
pub fn frame_text(alloc: Global, frame: &Frame) -> Result<String, AllocError>
    ensures { IfOk result (λ text. string_bytes text ≡ text_of frame.now) }
{
    let mut text = String::from_str(alloc, "S")?;
    push_segments(&mut text, &frame.segments)?;
    push_tail(&mut text, &frame.tail)?;
    text.push_str(" P")?;
    Ok(text)
}
