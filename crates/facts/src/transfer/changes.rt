//! What is known after a message.

ghost use Rattle.std.specs.Prelude.{◌≡◌, ◌<◌, length, IsTrue};
ghost use Rattle.facts.specs.domain.Sets.{only, values_in};
ghost use Rattle.facts.specs.domain.Rows.{row_view};
ghost use Rattle.facts.specs.transfer.Edges.{else_row, ReadsStatus};
ghost use Rattle.facts.specs.transfer.Effects.{effect_view, IsOfKind, done_with};

use crate::domain::byte_set::{ByteSet, bounds};
use crate::domain::kind::Kind;
use crate::domain::parts::{pages_at, protects_at};
use crate::domain::row::Row;
use crate::domain::source::Source;
use crate::domain::span::Span;
use crate::transfer::clearing::{with_page, with_protect};
use crate::transfer::effect::Effect;
use crate::transfer::moves::with_reg;
use crate::transfer::reporting::status_source;
use crate::transfer::withdrawing::without_touched;
use board::Board;
use seq_program::Register;

/// The set of one value.
fn only<K: Kind>(value: u8) -> ByteSet<K>
    requires { IsTrue (K.is_value value) }
    ensures { values_in K.is_value K.place result ≡ only value }
{
    ByteSet::empty().with(value)
}

/// A status word is read, after which nothing is known of the rails that may have been touched.
fn with_status(board: &Board, row: Row, target: usize, span: Span, register: Register) -> Row
    ensures { row_view result ≡ done_with board.now (row_view row) target span
        (ReadsStatus register) }
{
    let source = status_source(board, &row, target);
    with_reg(
        without_touched(row, board, target),
        register.index(),
        span,
        source,
    )
}

/// The row after a message that is done and that reads so much.
pub(crate) fn done_row(board: &Board, row: Row, target: usize, span: Span, effect: &Effect) -> Row
    requires pages { target < length row.pages.items }
    requires protects { target < length row.protects.items }
    requires kind { IsOfKind effect.now }
    ensures { row_view result
        ≡ done_with board.now (row_view row) target span (effect_view effect.now) }
{
    match effect {
        Effect::SetsPage(value) => with_page(row, target, only(*value)),
        Effect::SetsProtect(value) => with_protect(row, target, only(*value)),
        Effect::TurnsOff => without_touched(row, board, target),
        Effect::ReadsStatus(register) => with_status(board, row, target, span, *register),
        Effect::ReadsPage(register) => {
            let known = bounds(pages_at(&row, target));
            with_reg(row, register.index(), known, Source::Page(target))
        }
        Effect::ReadsProtect(register) => {
            let known = bounds(protects_at(&row, target));
            with_reg(row, register.index(), known, Source::Protect(target))
        }
        Effect::Loads(register) => with_reg(row, register.index(), span, Source::None),
        Effect::Nothing => row,
    }
}

/// The row after one that isn't.
pub(crate) fn else_row(board: &Board, row: Row, target: usize, effect: &Effect) -> Row
    requires pages { target < length row.pages.items }
    requires protects { target < length row.protects.items }
    requires kind { IsOfKind effect.now }
    ensures { row_view result ≡ else_row board.now (row_view row) target (effect_view effect.now) }
{
    match effect {
        Effect::SetsPage(value) => {
            let pages = pages_at(&row, target).with(*value);
            with_page(row, target, pages)
        }
        Effect::SetsProtect(value) => {
            let protects = protects_at(&row, target).with(*value);
            with_protect(row, target, protects)
        }
        Effect::TurnsOff => without_touched(row, board, target),
        Effect::ReadsStatus(_) => without_touched(row, board, target),
        _ => row,
    }
}
