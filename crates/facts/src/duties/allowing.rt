//! K1: whether a target allows what may be sent to it, and what is to blame where it doesn't.

ghost use Rattle.std.specs.Prelude.{◌≡◌, ◌+◌, ◌↔◌, length, IsTrue, None, Some};
ghost use Rattle.board.specs.Boards.{entry_of};
ghost use Rattle.targets.specs.Fitting.{IsIn};
ghost use Rattle.seq_program.specs.Requests.{Value, Block};
ghost use Rattle.seq_program.specs.RequestViews.{content_view, transaction_view};
ghost use Rattle.facts.specs.declared.duties.rule.Rule.TheVariants.{K1};
ghost use Rattle.facts.specs.domain.Rows.{Row as AnyRow, row_view};
ghost use Rattle.facts.specs.duties.Duties.{written_span, one, LeavesRoom, IsKnownValue};
ghost use Rattle.facts.specs.duties.KnownBytes.{IsKnownByte};
ghost use Rattle.facts.specs.duties.Blaming.{FindsPlace, FindsOutside, FindsUntaken, Blames};

use crate::domain::row::Row;
use crate::domain::span::Span;
use crate::duties::violation::Violation;
use board::{Allow, Board, Range, Target, is_page_value};
use pmbus_table::code::{OPERATION, PAGE, WRITE_PROTECT};
use pmbus_table::{enables, is_protection};
use seq_program::{Content, Transaction, Written};

/// One value.
pub(crate) fn one(value: u16) -> Span
    ensures { result ≡ one value }
{
    Span {
        lo: value,
        hi: value,
    }
}

/// The values that may be written.
pub(crate) fn written_span(row: &Row, value: Written) -> Span
    ensures { result ≡ written_span (row_view row.now) value }
{
    match value {
        Written::Byte(byte) => one(u16::from(byte)),
        Written::Word(word) => one(word),
        Written::Register(register) => row.regs[register.index()],
    }
}

/// What of a value that may be written isn't within an entry's.
fn outside_values(row: &Row, entry: &Allow, value: Written) -> Option<Violation>
    ensures { FindsOutside (row_view row.now) entry.now (Value value) None result }
{
    let range = entry.values();
    let span = written_span(row, value);
    if range.low <= span.lo && span.hi <= range.high {
        None
    } else {
        Some(Violation::Values(span))
    }
}

fn is_in(range: Range, number: usize) -> bool
    ensures { IsTrue result ↔ IsIn range number }
{
    usize::from(range.low) <= number && number <= usize::from(range.high)
}

/// The place of the first byte that isn't in a range.
fn first_outside(range: Range, bytes: &[u8]) -> Option<usize>
    ensures { FindsPlace (IsIn range) bytes.now result }
{
    bytes
        .iter()
        .position(|byte| !is_in(range, usize::from(*byte)))
}

/// What of a block isn't within an entry's ranges.
fn outside_block(entry: &Allow, bytes: &[u8]) -> Option<Violation>
    ensures { (row : AnyRow) → FindsOutside row entry.now (Block bytes.now) None result }
{
    if !is_in(entry.length(), bytes.len()) {
        return Some(Violation::BlockLength);
    }
    let place = first_outside(entry.values(), bytes)?;
    Some(Violation::BlockByte(place))
}

/// What of a write isn't within an entry's ranges.
fn outside_content(row: &Row, entry: &Allow, content: &Content<'_>) -> Option<Violation>
    ensures { FindsOutside (row_view row.now) entry.now (content_view content.now) None result }
{
    match content {
        Content::Value(value) => outside_values(row, entry, *value),
        Content::Block(bytes) => outside_block(entry, bytes.bytes()),
        Content::Nothing => None,
    }
}

/// Whether a block that is written leaves room for the longest that is read.
fn leaves_room(entry: &Allow, content: &Content<'_>) -> bool
    ensures { IsTrue result ↔ LeavesRoom entry.now (content_view content.now) }
{
    match content {
        Content::Block(bytes) => bytes.bytes().len() + usize::from(entry.length().high) <= 255,
        _ => true,
    }
}

/// What of a message isn't within an entry's ranges.
fn outside_entry(row: &Row, entry: &Allow, transaction: &Transaction<'_>) -> Option<Violation>
    ensures { let x = transaction_view transaction.now in
        FindsOutside (row_view row.now) entry.now x.content x.register result }
{
    match transaction.register {
        None => outside_content(row, entry, &transaction.content),
        Some(_) if leaves_room(entry, &transaction.content) => None,
        Some(_) => Some(Violation::NoRoom),
    }
}

/// Whether a byte that is written to a command is one of the command's values.
fn is_known_byte(device: &Target, code: u8, value: u8) -> bool
    ensures { IsTrue result ↔ IsKnownByte device.now code value }
{
    match code {
        PAGE => is_page_value(device.pages(), value),
        WRITE_PROTECT => is_protection(value),
        OPERATION => value == 0x00 || value == 0x40 || enables(value),
        _ => true,
    }
}

/// Whether a byte that is written is one of its command's values.
fn is_known_value(device: &Target, transaction: &Transaction<'_>) -> bool
    ensures { IsTrue result ↔ IsKnownValue device.now (transaction_view transaction.now) }
{
    match &transaction.content {
        Content::Value(Written::Byte(value)) => is_known_byte(device, transaction.code(), *value),
        _ => true,
    }
}

/// What of a message an entry doesn't take, or that it writes none of its command's values.
fn untaken(
    row: &Row,
    device: &Target,
    entry: &Allow,
    transaction: &Transaction<'_>,
) -> Option<Violation>
    ensures { FindsUntaken (row_view row.now) device.now entry.now
        (transaction_view transaction.now) result }
{
    if let Some(outside) = outside_entry(row, entry, transaction) {
        return Some(outside);
    }
    if is_known_value(device, transaction) {
        None
    } else {
        Some(Violation::UnknownValue)
    }
}

/// K1: why a target doesn't allow the message with every value that it may carry.
pub(crate) fn disallowed(
    board: &Board,
    row: &Row,
    target: usize,
    transaction: &Transaction<'_>,
) -> Option<Violation>
    ensures { Blames board.now (row_view row.now) target (transaction_view transaction.now) K1
        result }
{
    let Some(device) = board.target(target) else {
        return Some(Violation::NoEntry);
    };
    let Some(entry) = device.entry(transaction.form, transaction.code()) else {
        return Some(Violation::NoEntry);
    };
    untaken(row, device, entry, transaction)
}
