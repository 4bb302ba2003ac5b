//! The duties of an instruction at a row, and what is to blame where it doesn't meet one.

ghost use Rattle.std.specs.Prelude.{◌≡◌, ◌↔◌, false, Some, None, IsTrue, IfSome, All, option_map};
ghost use Rattle.smbus.specs.FormWords.{carries_code};
ghost use Rattle.pmbus_table.specs.Codes.{all_pages};
ghost use Rattle.pmbus_table.specs.Commands.{form_read, is_paged};
ghost use Rattle.pmbus_table.specs.Protect.{protections};
ghost use Rattle.board.specs.Boards.{Board as AnyBoard};
ghost use Rattle.seq_program.specs.RequestViews.{content_view, transaction_view};
ghost use Rattle.facts.specs.declared.duties.rule.Rule.TheVariants.{K2, K3, K4, K5};
ghost use Rattle.facts.specs.domain.Rows.{row_view};
ghost use Rattle.facts.specs.domain.Sets.{pages_in, rails_in};
ghost use Rattle.facts.specs.duties.Duties.{may_select, duties, IsFirstFailing};
ghost use Rattle.facts.specs.duties.Permitting.{PermitsAt};
ghost use Rattle.facts.specs.duties.Touching.{touches_in, IsWithinLimit, HasGoodNeeds};
ghost use Rattle.facts.specs.duties.Violations.{rule_of, words_of, voltages_of, TurnsOn, IsToBlame};
ghost use Rattle.facts.specs.duties.Blaming.{FindsPlace, FindsItem};
ghost use Rattle.facts.specs.duties.Blaming.{FindsLacking, FindsUnready};
ghost use Rattle.facts.specs.duties.Blaming.{Blames, BlamesFirst};

use crate::domain::good_set::GoodSet;
use crate::domain::page_set::PageSet;
use crate::domain::parts::{pages_at, protects_at};
use crate::domain::protect_set::ProtectSet;
use crate::domain::row::Row;
use crate::domain::span::Span;
use crate::duties::allowing::{disallowed, written_span};
use crate::duties::rule::Rule;
use crate::duties::violation::Violation;
use board::{Board, Rail, Target};
use pmbus_table::code::{ALL_PAGES, OPERATION};
use pmbus_table::{Command, PROTECTIONS, carries_voltage, enables, permits, within};
use seq_program::{Content, Instr, Transaction, Written};
use smbus::Form;

/// Whether a paged command is read while PAGE may stand for all pages.
fn reads_all_pages(pages: PageSet, command: Command, form: Form) -> bool
    ensures { IsTrue result ↔ (IsTrue (is_paged command) × (form_read command ≡ Some form)
        × IsTrue (pages_in pages all_pages)) }
{
    command.paged() && command.form_read() == Some(form) && pages.contains(ALL_PAGES)
}

/// K2: a read of all pages at once.
fn read_of_all(row: &Row, target: usize, transaction: &Transaction<'_>) -> Option<Violation>
    ensures { (b : AnyBoard) → Blames b (row_view row.now) target
        (transaction_view transaction.now) K2 result }
{
    let command = transaction.command?;
    if reads_all_pages(pages_at(row, target), command, transaction.form) {
        Some(Violation::AllPages)
    } else {
        None
    }
}

/// Whether a protection, where it may be stored, permits writes of a code.
fn permits_at(protects: ProtectSet, protect: u8, code: u8) -> bool
    ensures { IsTrue result ↔ PermitsAt protects code protect }
{
    if protects.contains(protect) {
        permits(protect, code) == Some(true)
    } else {
        true
    }
}

/// The least protection that may be stored and doesn't permit writes of a code.
fn least_forbidding(protects: ProtectSet, code: u8) -> Option<u8>
    ensures { FindsItem (PermitsAt protects code) protections result }
{
    let place = PROTECTIONS
        .iter()
        .position(|protect| !permits_at(protects, *protect, code))?;
    Some(PROTECTIONS[place])
}

/// K3: a protection that may be stored and doesn't permit the write.
fn forbidden(row: &Row, target: usize, transaction: &Transaction<'_>) -> Option<Violation>
    requires { transaction.now.command ≡ None → carries_code transaction.now.form ≡ false }
    ensures { (b : AnyBoard) → Blames b (row_view row.now) target
        (transaction_view transaction.now) K3 result }
{
    let command = transaction.command?;
    if !command.counts_as_write(transaction.form) {
        return None;
    }
    let protect = least_forbidding(protects_at(row, target), command.code())?;
    Some(Violation::Protected(protect))
}

/// Whether some page of a set selects a page.
fn may_select(pages: PageSet, page: u8) -> bool
    ensures { result ≡ may_select (pages_in pages) page }
{
    pages.contains(page) || pages.contains(ALL_PAGES)
}

/// Whether a rail is one of a target, and may be touched there.
pub(crate) fn touches(pages: PageSet, target: usize, rail: &Rail) -> bool
    ensures { result ≡ touches_in pages target rail.now }
{
    rail.target() == target && may_select(pages, rail.page())
}

/// Whether a voltage is within a rail's limit, where the rail is touched.
fn is_within_limit(
    pages: PageSet,
    target: usize,
    device: &Target,
    voltage: u16,
    rail: &Rail,
) -> bool
    ensures { IsTrue result ↔ IsWithinLimit pages target device.now.exponent voltage rail.now }
{
    if touches(pages, target, rail) {
        within(voltage, device.exponent(), rail.limit_uv())
    } else {
        true
    }
}

/// The first rail that is touched and whose limit is under a voltage.
fn first_over(
    board: &Board,
    pages: PageSet,
    target: usize,
    device: &Target,
    voltage: u16,
) -> Option<usize>
    ensures { FindsPlace (IsWithinLimit pages target device.now.exponent voltage) board.now.rails
        result }
{
    board.rails().iter().position(|rail| !is_within_limit(pages, target, device, voltage, rail))
}

/// The values that may be written as a word.
fn words_of(row: &Row, content: &Content<'_>) -> Option<Span>
    ensures { result ≡ words_of (row_view row.now) (content_view content.now) None }
{
    match content {
        Content::Value(Written::Byte(_)) => None,
        Content::Value(value) => Some(written_span(row, *value)),
        _ => None,
    }
}

/// The voltages that may be commanded. A message that reads commands none.
fn voltages_of(row: &Row, transaction: &Transaction<'_>) -> Option<Span>
    ensures { result ≡ voltages_of (row_view row.now) (transaction_view transaction.now) }
{
    if transaction.register.is_none() && carries_voltage(transaction.code()) {
        words_of(row, &transaction.content)
    } else {
        None
    }
}

/// K4: a rail that may be touched, and whose limit is under the greatest voltage.
fn over_limit(
    board: &Board,
    row: &Row,
    target: usize,
    transaction: &Transaction<'_>,
) -> Option<Violation>
    ensures { Blames board.now (row_view row.now) target (transaction_view transaction.now) K4
        result }
{
    let most = voltages_of(row, transaction)?.hi;
    let device = board.target(target)?;
    let rail = first_over(board, pages_at(row, target), target, device, most)?;
    Some(Violation::OverLimit { rail, most })
}

/// Whether a rail is known to be good.
fn is_good(good: GoodSet, rail: usize) -> bool
    ensures { result ≡ rails_in good rail }
{
    match u8::try_from(rail) {
        Ok(rail) => good.contains(rail),
        Err(_) => false,
    }
}

/// The first of some rails that isn't known to be good.
fn first_not_good(good: GoodSet, rails: &[usize]) -> Option<usize>
    ensures { FindsItem (λ rail. IsTrue (rails_in good rail)) rails.now result }
{
    let place = rails.iter().position(|rail| !is_good(good, *rail))?;
    Some(rails[place])
}

/// The first need of a rail that isn't known to be good, where the rail is touched.
fn lacking(pages: PageSet, target: usize, good: GoodSet, rail: &Rail) -> Option<usize>
    ensures { FindsLacking pages target good rail.now result }
{
    if touches(pages, target, rail) {
        first_not_good(good, rail.needs())
    } else {
        None
    }
}

/// The first rail that is touched and has a need that isn't known to be good, and that need.
fn first_unready(
    board: &Board,
    pages: PageSet,
    target: usize,
    good: GoodSet,
) -> Option<(usize, usize)>
    ensures { FindsUnready pages target good board.now.rails result }
{
    for (index, rail) in board.rails().iter().enumerate() {
        if let Some(need) = lacking(pages, target, good, rail) {
            return Some((index, need));
        }
    }
    None
}

/// Whether a rail is turned on: OPERATION is written with a value that does.
fn turns_on(transaction: &Transaction<'_>) -> bool
    ensures { IsTrue result ↔ TurnsOn (transaction_view transaction.now) }
{
    match &transaction.content {
        Content::Value(Written::Byte(value)) => {
            transaction.code() == OPERATION && enables(*value)
        }
        _ => false,
    }
}

/// K5: a rail that may be turned on, and a need of it that isn't known to be good.
fn unready(
    board: &Board,
    row: &Row,
    target: usize,
    transaction: &Transaction<'_>,
) -> Option<Violation>
    ensures { Blames board.now (row_view row.now) target (transaction_view transaction.now) K5
        result }
{
    if !turns_on(transaction) {
        return None;
    }
    let (rail, need) = first_unready(board, pages_at(row, target), target, row.good)?;
    Some(Violation::NotGood { rail, need })
}

/// What a message to a target breaks of the rules K1 to K5, by the first that isn't met.
fn first_broken(
    board: &Board,
    row: &Row,
    target: usize,
    transaction: &Transaction<'_>,
) -> Option<Violation>
    requires { transaction.now.command ≡ None → carries_code transaction.now.form ≡ false }
    ensures { BlamesFirst board.now (row_view row.now) target (transaction_view transaction.now)
        duties result }
{
    if let Some(found) = disallowed(board, row, target, transaction) {
        return Some(found);
    }
    if let Some(found) = read_of_all(row, target, transaction) {
        return Some(found);
    }
    if let Some(found) = forbidden(row, target, transaction) {
        return Some(found);
    }
    if let Some(found) = over_limit(board, row, target, transaction) {
        return Some(found);
    }
    unready(board, row, target, transaction)
}

/// What an instruction breaks of the rules K1 to K5 at a row, by the first that isn't met, and what
/// is to blame. It has duties where it sends a message to a target.
pub fn violation(board: &Board, instr: &Instr, row: &Row) -> Option<Violation>
    ensures first { IsFirstFailing board.now (row_view row.now) instr.now duties
        (option_map rule_of result) }
    ensures blame { IfSome result (IsToBlame board.now (row_view row.now) instr.now) }
{
    let Some(request) = instr.request() else {
        return None;
    };
    first_broken(board, row, request.target, &request.transaction)
}

/// The first of the rules K1 to K5 that an instruction doesn't meet at a row. It has duties where
/// it sends a message to a target.
pub fn duty(board: &Board, instr: &Instr, row: &Row) -> Option<Rule>
    ensures { IsFirstFailing board.now (row_view row.now) instr.now duties result }
{
    Some(violation(board, instr, row)?.rule())
}
