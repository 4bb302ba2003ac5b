//! Words of lines that are written.

ghost use Rattle.std.specs.Prelude.{◌≡◌, ◌<◌, ◌++◌, OnOk, string_bytes};
ghost use Rattle.texts.specs.Hex.{pair_text};
ghost use Rattle.std.specs.Fmt.{decimal};
ghost use Rattle.facts.specs.domain.Sets.{rails_in, values_in};
ghost use Rattle.table_check.specs.text.Written.{spaced, all_spaced, if_chosen};
ghost use Rattle.table_check.specs.text.Lines.{name_at, byte_words, rail_words, source_words};

use board::Board;
use facts::{ByteSet, GoodSet, Kind, Source};
use std::alloc::{AllocError, Global};
use texts::push_pair;

/// Appends a space and a word.
pub(crate) fn push_word(text: &mut String, word: &str) -> Result<(), AllocError>
    ensures { OnOk result (string_bytes text.new ≡ string_bytes text.old ++ spaced word.now) }
{
    text.push(' ')?;
    text.push_str(word)?;
    Ok(())
}

/// Appends a space and a number.
pub(crate) fn push_number(alloc: Global, text: &mut String, number: u64) -> Result<(), AllocError>
    ensures { OnOk result (string_bytes text.new
        ≡ string_bytes text.old ++ spaced (decimal number)) }
{
    let digits = format!(in alloc; "{number}")?;
    push_word(text, &digits)
}

pub(crate) fn target_name(board: &Board, target: usize) -> &str
    ensures { result.now ≡ name_at board.now.target_names target }
{
    board.target_name(target).unwrap_or("")
}

pub(crate) fn rail_name(board: &Board, rail: usize) -> &str
    ensures { result.now ≡ name_at board.now.rail_names rail }
{
    board.rail_name(rail).unwrap_or("")
}

pub(crate) fn push_source(
    text: &mut String,
    board: &Board,
    source: &Source,
) -> Result<(), AllocError>
    ensures { OnOk result (string_bytes text.new
        ≡ string_bytes text.old ++ all_spaced (source_words board.now source.now)) }
{
    let (kind, name) = match source {
        Source::None => return push_word(text, "none"),
        Source::Status(rail) => ("status", rail_name(board, *rail)),
        Source::Page(target) => ("page", target_name(board, *target)),
        Source::Protect(target) => ("protect", target_name(board, *target)),
    };
    push_word(text, kind)?;
    push_word(text, name)
}

/// Appends a space and a byte's two digits.
fn push_byte(text: &mut String, byte: u8) -> Result<(), AllocError>
    ensures { OnOk result (string_bytes text.new
        ≡ string_bytes text.old ++ spaced (pair_text byte)) }
{
    text.push(' ')?;
    push_pair(text, byte)
}

fn push_value<K: Kind>(text: &mut String, set: ByteSet<K>, value: u8) -> Result<(), AllocError>
    ensures { OnOk result (string_bytes text.new ≡ string_bytes text.old
        ++ if_chosen (values_in K.is_value K.place set value) (pair_text value)) }
{
    if set.contains(value) {
        push_byte(text, value)?;
    }
    Ok(())
}

fn push_rail(text: &mut String, board: &Board, set: GoodSet, rail: u8) -> Result<(), AllocError>
    ensures { OnOk result (string_bytes text.new ≡ string_bytes text.old
        ++ if_chosen (rails_in set rail) (name_at board.now.rail_names rail)) }
{
    if set.contains(rail) {
        push_word(text, rail_name(board, usize::from(rail)))?;
    }
    Ok(())
}

/// Appends the values of a set, each behind a space.
pub(crate) fn push_values<K: Kind>(text: &mut String, set: ByteSet<K>) -> Result<(), AllocError>
    ensures { OnOk result (string_bytes text.new ≡ string_bytes text.old
        ++ all_spaced (byte_words (values_in K.is_value K.place set))) }
{
    for value in 0..256u16 {
        push_value(text, set, value as u8)?;
    }
    Ok(())
}

pub(crate) fn push_good(text: &mut String, board: &Board, set: GoodSet) -> Result<(), AllocError>
    ensures { OnOk result (string_bytes text.new ≡ string_bytes text.old
        ++ all_spaced (rail_words board.now (rails_in set))) }
{
    for rail in 0..board.rails().len() as u8 {
        push_rail(text, board, set, rail)?;
    }
    Ok(())
}
