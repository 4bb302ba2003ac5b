//! The ways of `if`.

ghost use Rattle.std.specs.Prelude.{◌≡◌, ◌<◌, ◌+◌, ◌++◌, ◌∷◌, ◌&&◌, [], IfOk};
ghost use Rattle.simulator.specs.Moves.{passes};
ghost use Rattle.facts.specs.domain.Rows.{row_view, source_at, span_at};
ghost use Rattle.facts.specs.transfer.Edges.{keep, learn_good, has_any, is_possible, is_single};
ghost use Rattle.facts.specs.transfer.Edges.{in_span};
ghost use Rattle.facts.specs.transfer.Edges.{if_may_jump, if_jump_row, if_may_go_on, if_next_row};
ghost use Rattle.facts.specs.transfer.Edges.{possible, edge, edge_if, good_bits};
ghost use Rattle.facts.specs.domain.Sets.{values_in};
ghost use Rattle.facts.specs.transfer.Tests.{asked};
ghost use Rattle.facts.specs.transfer.Ways.{way_list, ways_list, IsNamedIn, IsOfFew};

use crate::domain::byte_set::{ByteSet, least};
use crate::domain::kind::Kind;
use crate::domain::parts::{pages_at, protects_at};
use crate::domain::row::Row;
use crate::domain::source::Source;
use crate::domain::span::Span;
use crate::duties::allowing::one;
use crate::transfer::learning::{keep_page, keep_protect, with_good};
use crate::transfer::moves::{copied, reg_at, reg_in};
use crate::transfer::test::{Test, passes};
use crate::transfer::ways::{Way, Ways};
use std::alloc::AllocError;

/// POWER_GOOD_N and OFF of a status word.
const GOOD_BITS: u16 = 0x0840;

/// A mask that lets all bits through.
const ALL_BITS: u16 = 0xFFFF;

/// The values of a register's source that are as a test asks.
fn keep(row: Row, source: Source, test: Test) -> Row
    requires { IsNamedIn row source }
    ensures { row_view result ≡ keep (row_view row) source (asked test) }
{
    match source {
        Source::Page(target) => keep_page(row, target, test),
        Source::Protect(target) => keep_protect(row, target, test),
        _ => row,
    }
}

/// A rail is good where its last report is seen to be.
fn learn_good(row: Row, source: Source, is_seen: bool) -> Row
    requires { IsOfFew source }
    ensures { row_view result ≡ learn_good (row_view row) source is_seen }
{
    match source {
        Source::Status(rail) => { if is_seen { with_good(row, rail) } else { row } }
        _ => row,
    }
}

/// Whether a set has a value.
#[tactic(auto, unfolding(crate::specs::transfer::Edges::bounds))]
fn has_any<K: Kind>(set: ByteSet<K>) -> bool
    ensures { result ≡ has_any (values_in K.is_value K.place set) }
{
    set.contains(least(set))
}

/// Whether a source has a value left.
fn is_possible(row: &Row, source: Source) -> bool
    ensures { result ≡ is_possible (row_view row.now) source }
{
    match source {
        Source::Page(target) => has_any(pages_at(row, target)),
        Source::Protect(target) => has_any(protects_at(row, target)),
        _ => true,
    }
}

fn is_single(span: Span) -> bool
    ensures { result ≡ is_single span }
{
    span.lo == span.hi
}

fn in_span(span: Span, value: u16) -> bool
    ensures { result ≡ in_span span value }
{
    span.lo <= value && value <= span.hi
}

/// Whether the jump may be taken.
fn may_jump(span: Span, mask: u16, value: u16) -> bool
    ensures { result ≡ if_may_jump span mask value }
{
    passes(value, mask, value)
        && (if is_single(span) {
            passes(span.lo, mask, value)
        } else {
            true
        })
        && (if mask == ALL_BITS {
            in_span(span, value)
        } else {
            true
        })
}

/// Whether it may be left.
fn may_go_on(span: Span, mask: u16, value: u16) -> bool
    ensures { result ≡ if_may_go_on span mask value }
{
    (if is_single(span) {
        !passes(span.lo, mask, value)
    } else {
        true
    }) && !(mask == 0 && value == 0)
}

/// Whether a value under a mask shows that a rail is good.
fn shows_good(mask: u16, value: u16) -> bool
    ensures { result ≡ (passes mask good_bits good_bits && passes value good_bits 0) }
{
    passes(mask, GOOD_BITS, GOOD_BITS) && passes(value, GOOD_BITS, 0)
}

/// What is known of the source of a register that passes.
fn learned(row: Row, source: Source, mask: u16, value: u16) -> Row
    requires named { IsNamedIn row source }
    requires few { IsOfFew source }
    ensures { row_view result
        ≡ learn_good (keep (row_view row) source (λ x. passes x mask value)) source
        (passes mask good_bits good_bits && passes value good_bits 0) }
{
    let test = Test {
        mask,
        value,
        holds: true,
    };
    let kept = keep(row, source, test);
    learn_good(kept, source, shows_good(mask, value))
}

/// The row where it is taken.
fn jump_row(row: Row, register: usize, mask: u16, value: u16) -> Row
    requires here { register < 8 }
    requires named { IsNamedIn row (source_at row.sources register) }
    requires few { IsOfFew (source_at row.sources register) }
    ensures { row_view result ≡ if_jump_row (row_view row) register mask value }
{
    let source = row.sources[register];
    let kept = learned(row, source, mask, value);
    if mask == ALL_BITS {
        reg_in(kept, register, one(value))
    } else {
        kept
    }
}

/// The row where it isn't.
fn next_row(row: Row, register: usize, mask: u16, value: u16) -> Row
    requires here { register < 8 }
    requires named { IsNamedIn row (source_at row.sources register) }
    ensures { row_view result ≡ if_next_row (row_view row) register mask value }
{
    let source = row.sources[register];
    keep(
        row,
        source,
        Test {
            mask,
            value,
            holds: false,
        },
    )
}

/// The way to a row that leaves a value to the source of a register.
fn possible(row: &Row, register: usize, to: usize, row_there: Row) -> Option<Way>
    requires { register < 8 }
    ensures { way_list result
        ≡ possible (row_view row.now) register (edge to (row_view row_there) ∷ []) }
{
    if is_possible(&row_there, row.sources[register]) {
        Some(Way { to, row: row_there })
    } else {
        None
    }
}

/// The jump, where it may be taken.
fn jump_way(
    row: &Row,
    register: usize,
    mask: u16,
    value: u16,
    to: usize,
) -> Result<Option<Way>, AllocError>
    requires here { register < 8 }
    requires named { IsNamedIn row.now (source_at row.now.sources register) }
    requires few { IsOfFew (source_at row.now.sources register) }
    ensures { IfOk result (λ w. way_list w ≡ possible (row_view row.now) register
        (edge_if (if_may_jump (span_at row.now.regs register) mask value) to
        (if_jump_row (row_view row.now) register mask value))) }
{
    if may_jump(reg_at(row, register), mask, value) {
        let row_there = jump_row(copied(row)?, register, mask, value);
        Ok(possible(row, register, to, row_there))
    } else {
        Ok(None)
    }
}

/// Going on, where it may be left.
fn next_way(
    row: &Row,
    register: usize,
    mask: u16,
    value: u16,
    to: usize,
) -> Result<Option<Way>, AllocError>
    requires here { register < 8 }
    requires named { IsNamedIn row.now (source_at row.now.sources register) }
    ensures { IfOk result (λ w. way_list w ≡ possible (row_view row.now) register
        (edge_if (if_may_go_on (span_at row.now.regs register) mask value) to
        (if_next_row (row_view row.now) register mask value))) }
{
    if may_go_on(reg_at(row, register), mask, value) {
        let row_there = next_row(copied(row)?, register, mask, value);
        Ok(possible(row, register, to, row_there))
    } else {
        Ok(None)
    }
}

/// The jump, and going on.
pub(crate) fn if_ways(
    row: &Row,
    register: usize,
    mask: u16,
    value: u16,
    jump: usize,
    next: usize,
) -> Result<Ways, AllocError>
    requires here { register < 8 }
    requires named { IsNamedIn row.now (source_at row.now.sources register) }
    requires few { IsOfFew (source_at row.now.sources register) }
    ensures { IfOk result (λ w. ways_list w ≡ possible (row_view row.now) register
        (edge_if (if_may_jump (span_at row.now.regs register) mask value) jump
        (if_jump_row (row_view row.now) register mask value)
        ++ edge_if (if_may_go_on (span_at row.now.regs register) mask value) next
        (if_next_row (row_view row.now) register mask value))) }
{
    let first = jump_way(row, register, mask, value, jump)?;
    let second = next_way(row, register, mask, value, next)?;
    Ok(Ways { first, second })
}
