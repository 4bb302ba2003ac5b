//! The ways of an instruction that sends nothing to a target.

ghost use Rattle.std.specs.Prelude.{◌≡◌, ◌<◌, ◌≤◌, ◌+◌, ◌++◌, ◌==◌, ◌∷◌, [], nat_lt, nat_le};
ghost use Rattle.std.specs.Prelude.{IfOk, slice_index};
ghost use Rattle.facts.specs.domain.Rows.{row_view, most_ticks, span_at};
ghost use Rattle.facts.specs.declared.domain.span.Span.{Span};
ghost use Rattle.facts.specs.transfer.Edges.{edge, edge_if, above, up_to, reg_in, counter_in};
ghost use Rattle.facts.specs.transfer.Edges.{taken_off};
ghost use Rattle.facts.specs.transfer.Edges.{other_edges, with_reg, a_byte, plus, with_counter};
ghost use Rattle.facts.specs.duties.Duties.{one};
ghost use Rattle.facts.specs.transfer.Ways.{way_list, ways_list, IsFit};
ghost use Rattle.facts.specs.declared.domain.source.Source.TheVariants as source;
ghost use Rattle.seq_program.specs.declared.program.TheConstants.{MOST_PLACES};

use crate::domain::row::Row;
use crate::domain::source::Source;
use crate::domain::span::Span;
use crate::duties::allowing::one;
use crate::transfer::branching::if_ways;
use crate::transfer::moves::{
    above, copied, counter_in, plus, reg_at, reg_in, taken_off, up_to, with_counter, with_reg,
};
use crate::transfer::ways::{Way, Ways, one_way, two_ways};
use seq_program::Instr;
use std::alloc::AllocError;

/// Where a register is above a number.
fn above_way(row: &Row, register: usize, value: u16, to: usize) -> Result<Option<Way>, AllocError>
    requires { register < 8 }
    ensures { IfOk result (λ w. way_list w ≡ edge_if
        (nat_lt value (Span.hi (span_at row.now.regs register))) to
        (reg_in (row_view row.now) register (above (span_at row.now.regs register) value))) }
{
    let span = reg_at(row, register);
    if value < span.hi {
        let row = reg_in(copied(row)?, register, above(span, value));
        Ok(Some(Way { to, row }))
    } else {
        Ok(None)
    }
}

/// Where it isn't.
fn up_to_way(row: &Row, register: usize, value: u16, to: usize) -> Result<Option<Way>, AllocError>
    requires { register < 8 }
    ensures { IfOk result (λ w. way_list w ≡ edge_if
        (nat_le (Span.lo (span_at row.now.regs register)) value) to
        (reg_in (row_view row.now) register (up_to (span_at row.now.regs register) value))) }
{
    let span = reg_at(row, register);
    if span.lo <= value {
        let row = reg_in(copied(row)?, register, up_to(span, value));
        Ok(Some(Way { to, row }))
    } else {
        Ok(None)
    }
}

/// Where a counter is over 0.
fn again_way(row: &Row, counter: usize, to: usize) -> Result<Option<Way>, AllocError>
    requires here { counter < 4 }
    requires base { row.now.base ≤ most_ticks }
    requires coeff { slice_index row.now.coeffs counter ≤ most_ticks }
    ensures { IfOk result (λ w. way_list w ≡ edge_if
        (nat_le 1 (Span.hi (span_at row.now.counters counter))) to
        (taken_off (row_view row.now) counter)) }
{
    if row.counters[counter].hi >= 1 {
        let row = taken_off(copied(row)?, counter);
        Ok(Some(Way { to, row }))
    } else {
        Ok(None)
    }
}

/// Where it is 0.
fn spent_way(row: &Row, counter: usize, to: usize) -> Result<Option<Way>, AllocError>
    requires { counter < 4 }
    ensures { IfOk result (λ w. way_list w ≡ edge_if
        (Span.lo (span_at row.now.counters counter) == 0) to
        (counter_in (row_view row.now) counter (one 0))) }
{
    if row.counters[counter].lo == 0 {
        let row = counter_in(copied(row)?, counter, one(0));
        Ok(Some(Way { to, row }))
    } else {
        Ok(None)
    }
}

fn above_ways(
    row: &Row,
    register: usize,
    value: u16,
    jump: usize,
    next: usize,
) -> Result<Ways, AllocError>
    requires { register < 8 }
    ensures { IfOk result (λ w. ways_list w ≡ edge_if
        (nat_lt value (Span.hi (span_at row.now.regs register))) jump
        (reg_in (row_view row.now) register (above (span_at row.now.regs register) value))
        ++ edge_if (nat_le (Span.lo (span_at row.now.regs register)) value) next
        (reg_in (row_view row.now) register (up_to (span_at row.now.regs register) value))) }
{
    let first = above_way(row, register, value, jump)?;
    let second = up_to_way(row, register, value, next)?;
    Ok(Ways { first, second })
}

fn again_ways(row: &Row, counter: usize, jump: usize, next: usize) -> Result<Ways, AllocError>
    requires here { counter < 4 }
    requires base { row.now.base ≤ most_ticks }
    requires coeff { slice_index row.now.coeffs counter ≤ most_ticks }
    ensures { IfOk result (λ w. ways_list w ≡ edge_if
        (nat_le 1 (Span.hi (span_at row.now.counters counter))) jump
        (taken_off (row_view row.now) counter)
        ++ edge_if (Span.lo (span_at row.now.counters counter) == 0) next
        (counter_in (row_view row.now) counter (one 0))) }
{
    let first = again_way(row, counter, jump)?;
    let second = spent_way(row, counter, next)?;
    Ok(Ways { first, second })
}

fn set_ways(row: &Row, register: usize, span: Span, to: usize) -> Result<Ways, AllocError>
    requires { register < 8 }
    ensures { IfOk result (λ w. ways_list w
        ≡ edge to (with_reg (row_view row.now) register span source.None) ∷ []) }
{
    let row = with_reg(copied(row)?, register, span, Source::None);
    Ok(one_way(to, row))
}

fn count_ways(row: &Row, counter: usize, value: u16, to: usize) -> Result<Ways, AllocError>
    requires here { counter < 4 }
    requires base { row.now.base ≤ most_ticks }
    requires coeff { slice_index row.now.coeffs counter ≤ most_ticks }
    ensures { IfOk result (λ w. ways_list w
        ≡ edge to (with_counter (row_view row.now) counter value) ∷ []) }
{
    let row = with_counter(copied(row)?, counter, value);
    Ok(one_way(to, row))
}

fn alert_ways(row: &Row, register: usize, to: usize, otherwise: usize) -> Result<Ways, AllocError>
    requires { register < 8 }
    ensures { IfOk result (λ w. ways_list w
        ≡ edge to (with_reg (row_view row.now) register a_byte source.None)
        ∷ edge otherwise (row_view row.now) ∷ []) }
{
    let read = with_reg(
        copied(row)?,
        register,
        Span { lo: 0, hi: 255 },
        Source::None,
    );
    let same = copied(row)?;
    Ok(two_ways(to, read, otherwise, same))
}

fn same_ways(row: &Row, to: usize, other: usize) -> Result<Ways, AllocError>
    ensures { IfOk result (λ w. ways_list w
        ≡ edge to (row_view row.now) ∷ edge other (row_view row.now) ∷ []) }
{
    let first = copied(row)?;
    let second = copied(row)?;
    Ok(two_ways(to, first, other, second))
}

fn same_way(row: &Row, to: usize) -> Result<Ways, AllocError>
    ensures { IfOk result (λ w. ways_list w ≡ edge to (row_view row.now) ∷ []) }
{
    let same = copied(row)?;
    Ok(one_way(to, same))
}

/// The ways of an instruction that sends nothing to a target.
pub(crate) fn other_ways(place: usize, instr: &Instr, row: &Row) -> Result<Ways, AllocError>
    requires place { place < MOST_PLACES }
    requires fit { IsFit row.now }
    ensures { IfOk result (λ w. ways_list w ≡ other_edges place instr.now (row_view row.now)) }
{
    let next = place + 1;
    match instr {
        Instr::Alert {
            register,
            otherwise,
        } => alert_ways(row, register.index(), next, *otherwise),
        Instr::IfAlert { jump } => same_ways(row, *jump, next),
        Instr::Set { register, value } => set_ways(row, register.index(), one(*value), next),
        Instr::Add { register, value } => {
            let span = plus(reg_at(row, register.index()), *value);
            set_ways(row, register.index(), span, next)
        }
        Instr::If {
            register,
            mask,
            value,
            jump,
        } => if_ways(row, register.index(), *mask, *value, *jump, next),
        Instr::Above {
            register,
            value,
            jump,
        } => above_ways(row, register.index(), *value, *jump, next),
        Instr::Count { counter, value } => count_ways(row, counter.index(), *value, next),
        Instr::Again { counter, jump } => again_ways(row, counter.index(), *jump, next),
        Instr::Wait { .. } => same_way(row, next),
        Instr::Goto { jump } => same_way(row, *jump),
        _ => Ok(Ways {
            first: None,
            second: None,
        }),
    }
}
