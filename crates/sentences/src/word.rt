//! The words of sentences.

ghost use Rattle.std.specs.Prelude.{◌≡◌, ◌++◌, [], codes, option_map, string_bytes};
ghost use Rattle.std.specs.Prelude.{unwrap_or, IfOk, IfSome, OnOk};
ghost use Rattle.std.specs.List.{filter, range_with_len};
ghost use Rattle.texts.specs.Hex.{pair_text};
ghost use Rattle.pmbus_table.specs.Protect.{protections};
ghost use Rattle.facts.specs.domain.Sets.{pages_in, protects_in};
ghost use Rattle.notes.specs.ShownLines.{quoted};
ghost use Rattle.sentences.specs.Words.{bytes_text, command_text, entry_text, figure_text};
ghost use Rattle.sentences.specs.Words.{hex_text, limit_text, name_at, names_text, page_values};
ghost use Rattle.sentences.specs.Words.{permitting, said, span_text};

use crate::Result;
use board::Board;
use facts::{PageSet, ProtectSet};
use notes::Quoted;
use pmbus_table::code::ALL_PAGES;
use pmbus_table::{PROTECTIONS, by_code, mantissas_in_volt, name_of, permits};
use std::alloc::Global;
use texts::{push_pair, push_word as push_digits};

/// A word of a sentence. Each is kept small, since a proof goes through all parts of the eight that
/// an advice may have: what needs no text of somebody else is a figure.
#[derive(Clone, Copy)]
pub enum Word<'a> {
    /// Nothing is said.
    Nothing,
    /// A text as it stands.
    Text(&'a str),
    /// A name in quotes, the beginning of a long one.
    Name(&'a str),
    /// The values of PAGE in a set.
    Pages(&'a PageSet),
    /// The values of WRITE_PROTECT in a set.
    Protects(&'a ProtectSet),
    /// A number, or what is said by numbers.
    Figure(Figure),
}

/// A name, or the empty text where there is none.
fn name_or_none(name: Option<&str>) -> &str
    ensures { result.now ≡ unwrap_or (option_map (λ n. n.now) name.entry) [] }
{
    match name {
        Some(name) => name,
        None => "",
    }
}

impl<'a> Word<'a> {
    /// The name of a board's target, by its index.
    pub fn target(board: &'a Board, index: usize) -> Word<'a>
        ensures { said result ≡ quoted (name_at index board.now.target_names) }
    {
        Word::Name(name_or_none(board.target_name(index)))
    }

    /// The name of a board's rail, by its index.
    pub fn rail(board: &'a Board, index: usize) -> Word<'a>
        ensures { said result ≡ quoted (name_at index board.now.rail_names) }
    {
        Word::Name(name_or_none(board.rail_name(index)))
    }
}

/// A number, or what is said by numbers.
#[derive(Clone, Copy)]
pub enum Figure {
    /// A number in decimal digits.
    Count(usize),
    /// The same.
    Number(u64),
    /// The numbers from the first to the second.
    Span(u16, u16),
    /// Upper case hexadecimal digits, at least so many: 1, 2 or 4.
    Hex(u16, usize),
    /// The name of the command with this code.
    Command(u8),
    /// An entry of `allow` with this form, and with the command of this code if it has one.
    Entry(&'static str, Option<u8>),
    /// The values of WRITE_PROTECT that permit a write of the command with this code.
    Permitting(u8),
    /// A voltage by its mantissa, and in microvolts.
    Voltage(u64, u64),
    /// A limit in microvolts, and before it the greatest voltage within it at an exponent, by its
    /// mantissa.
    Limit(u32, i8),
}

/// Adds a name in quotes.
fn push_name(text: &mut String, name: &str) -> Result<()>
    ensures { OnOk result (IfSome (quoted name.now)
        (λ told. string_bytes text.new ≡ string_bytes text.old ++ told)) }
{
    let name = Quoted(name);
    write!(text, "{name}")
}

/// Names in quotes, with commas between them. Fails only for want of memory.
pub fn quoted_names(alloc: Global, names: &[&str]) -> Result<String>
    ensures { IfOk result (λ text. string_bytes text ≡ names_text names.now) }
{
    let [_, ..] = names else {
        return Ok(String::new(alloc));
    };
    let names = names.join(alloc, "\", \"")?;
    format!(in alloc; "\"{names}\"")
}

/// Adds the name of a command, if there is one.
fn push_command(alloc: Global, text: &mut String, code: u8) -> Result<()>
    ensures { OnOk result
        (string_bytes text.new ≡ string_bytes text.old ++ command_text code) }
{
    match by_code(code) {
        Some(command) => text.push_str(&name_of(alloc, command)?),
        None => Ok(()),
    }
}

/// Adds the numbers of a span.
fn push_span(text: &mut String, low: u16, high: u16) -> Result<()>
    ensures { OnOk result
        (string_bytes text.new ≡ string_bytes text.old ++ span_text low high) }
{
    if low == high {
        write!(text, "{low}")
    } else {
        write!(text, "{low} to {high}")
    }
}

/// Adds hexadecimal digits.
fn push_hex(text: &mut String, number: u16, digits: usize) -> Result<()>
    ensures { OnOk result
        (string_bytes text.new ≡ string_bytes text.old ++ hex_text number digits) }
{
    match (digits, u8::try_from(number)) {
        (4, _) => push_digits(text, number),
        (2, Ok(byte)) => push_pair(text, byte),
        _ => write!(text, "{number:X}"),
    }
}

/// Adds a byte of two digits behind a text.
fn push_byte(text: &mut String, before: &str, byte: u8) -> Result<()>
    ensures { OnOk result
        (string_bytes text.new ≡ string_bytes text.old ++ (before.now ++ pair_text byte)) }
{
    text.push_str(before)?;
    push_pair(text, byte)
}

/// Bytes of two digits, with commas between them. Fails only for want of memory.
pub fn listed_bytes(alloc: Global, bytes: &[u8]) -> Result<String>
    ensures { IfOk result (λ text. string_bytes text ≡ bytes_text [] (codes ", ") bytes.now) }
{
    let mut text = String::new(alloc);
    push_bytes(&mut text, bytes, "", ", ")?;
    Ok(text)
}

/// Adds bytes of two digits, each behind a text, and a text between each two.
fn push_bytes(text: &mut String, bytes: &[u8], before: &str, between: &str) -> Result<()>
    ensures { OnOk result (string_bytes text.new
        ≡ string_bytes text.old ++ bytes_text before.now between.now bytes.now) }
{
    let Some((first, rest)) = bytes.split_first() else {
        return Ok(());
    };
    push_byte(text, before, *first)?;
    for byte in rest {
        text.push_str(between)?;
        push_byte(text, before, *byte)?;
    }
    Ok(())
}

/// The values below one that stand in a set of values of PAGE.
fn pages_below(alloc: Global, end: u8, pages: &PageSet) -> Result<Vec<u8>>
    ensures { IfOk result
        (λ values. values.items ≡ filter (pages_in pages.now) (range_with_len 0 end)) }
{
    (0..end).filter(|page| pages.contains(*page)).collect(alloc)
}

/// The values of PAGE in a set: pages 0 to 31, and FFh for all (PMBus 1.3 Part II, 11.10).
fn pages_of(alloc: Global, pages: &PageSet) -> Result<Vec<u8>>
    ensures { IfOk result (λ values. values.items ≡ page_values (pages_in pages.now)) }
{
    let mut values = pages_below(alloc, 32, pages)?;
    if pages.contains(ALL_PAGES) {
        values.push(ALL_PAGES)?;
    }
    Ok(values)
}

/// The values of WRITE_PROTECT in a set.
fn protects_of(alloc: Global, protects: &ProtectSet) -> Result<Vec<u8>>
    ensures { IfOk result
        (λ values. values.items ≡ filter (protects_in protects.now) protections) }
{
    PROTECTIONS
        .iter()
        .copied()
        .filter(|value| protects.contains(*value))
        .collect(alloc)
}

/// The values of WRITE_PROTECT that permit a write of a command.
fn permitting(alloc: Global, code: u8) -> Result<Vec<u8>>
    ensures { IfOk result (λ values. values.items ≡ permitting code) }
{
    PROTECTIONS
        .iter()
        .copied()
        .filter(|value| permits(*value, code).unwrap_or(false))
        .collect(alloc)
}

/// Adds an entry of `allow`.
fn push_entry(alloc: Global, text: &mut String, form: &str, code: Option<u8>) -> Result<()>
    ensures { OnOk result
        (string_bytes text.new ≡ string_bytes text.old ++ entry_text form.now code) }
{
    let Some(code) = code else {
        return write!(text, "{{form = \"{form}\"}}");
    };
    write!(text, "{{form = \"{form}\", command = \"")?;
    push_command(alloc, text, code)?;
    text.push_str("\"}")
}

/// Adds a limit in microvolts, and before it the greatest mantissa within it at an exponent.
fn push_limit(text: &mut String, limit: u32, exponent: i8) -> Result<()>
    ensures { OnOk result
        (string_bytes text.new ≡ string_bytes text.old ++ limit_text limit exponent) }
{
    if let Some(in_volt) = mantissas_in_volt(exponent) {
        let greatest = u64::from(limit) * in_volt / 1_000_000;
        write!(text, "{greatest}, ")?;
    }
    write!(text, "{limit} uV")
}

/// Adds what a figure says.
fn push_figure(alloc: Global, text: &mut String, figure: Figure) -> Result<()>
    ensures { OnOk result
        (string_bytes text.new ≡ string_bytes text.old ++ figure_text figure) }
{
    match figure {
        Figure::Count(count) => write!(text, "{count}"),
        Figure::Number(number) => write!(text, "{number}"),
        Figure::Span(low, high) => push_span(text, low, high),
        Figure::Hex(number, digits) => push_hex(text, number, digits),
        Figure::Command(code) => push_command(alloc, text, code),
        Figure::Entry(form, code) => push_entry(alloc, text, form, code),
        Figure::Permitting(code) => push_bytes(text, &permitting(alloc, code)?, "0x", " or "),
        Figure::Voltage(mantissa, microvolts) => write!(text, "{mantissa}, {microvolts} uV"),
        Figure::Limit(limit, exponent) => push_limit(text, limit, exponent),
    }
}

/// Adds what a word says.
pub(crate) fn push_word(alloc: Global, text: &mut String, word: Word) -> Result<()>
    ensures { OnOk result (IfSome (said word.entry)
        (λ told. string_bytes text.new ≡ string_bytes text.old ++ told)) }
{
    match word {
        Word::Nothing => Ok(()),
        Word::Text(word) => text.push_str(word),
        Word::Name(name) => push_name(text, name),
        Word::Pages(pages) => push_bytes(text, &pages_of(alloc, pages)?, "", ", "),
        Word::Protects(protects) => push_bytes(text, &protects_of(alloc, protects)?, "", ", "),
        Word::Figure(figure) => push_figure(alloc, text, figure),
    }
}
