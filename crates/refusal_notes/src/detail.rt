//! What is to blame for a refusal, with names and numbers.

use crate::Result;
use crate::cause::Cause;
use crate::edge_detail::{edge_detail, end_detail};
use crate::entry_words::{known_values, no_entry, no_room, other_byte, other_length, other_values};
use crate::facts_here::facts_here;
use crate::roads::Judged;
use crate::table_detail::{length_detail, shape_detail, start_detail};
use board::{Allow, Board, Target};
use facts::{PageSet, Row, Violation, violation};
use sentences::Figure::{Command, Hex, Limit, Number, Permitting};
use sentences::{Advice, Remark, Sentence, Word, say, told};
use seq_program::{Content, Instr, Request, Transaction};
use std::alloc::Global;
use table_check::{Breach, Refusal};

/// The bytes of a block that is written.
fn block_of<'a>(transaction: &Transaction<'a>) -> &'a [u8] {
    match transaction.content {
        Content::Block(block) => block.bytes(),
        _ => &[],
    }
}

/// K1: what an entry of a target doesn't take.
fn entry_advice(
    device: &Target,
    entry: &Allow,
    transaction: &Transaction<'_>,
    violation: Violation,
) -> Option<Advice<'static>> {
    let block = block_of(transaction);
    match violation {
        Violation::Values(span) => Some(other_values(entry.values(), span)),
        Violation::BlockLength => Some(other_length(entry.length(), block.len())),
        Violation::BlockByte(place) => Some(other_byte(entry.values(), *block.get(place)?)),
        Violation::NoRoom => Some(no_room(entry.length(), block.len())),
        _ => known_values(device, transaction.code()),
    }
}

/// What may help where PAGE has one of these values. Where it may have several, they are told too.
fn limit_help(pages: Option<&PageSet>) -> Option<Sentence<'static>> {
    let pages = pages?;
    if (0..=u8::MAX).filter(|page| pages.contains(*page)).count() != 1 {
        return None;
    }
    Some(say!["a voltage is its mantissa times two to the target's exponent"])
}

/// K4: what may be written, and a limit that it is over.
fn limit_advice<'a>(
    board: &'a Board,
    device: &Target,
    pages: Option<&PageSet>,
    code: u8,
    rail: usize,
    most: u16,
) -> Option<Advice<'a>> {
    let limit = Limit(board.rail(rail)?.limit_uv(), device.exponent());
    Some(Advice {
        message: say![
            "up to " (Number(u64::from(most))) " may be written to " (Command(code)) ", and "
            {Word::rail(board, rail)} " takes up to " (limit)
        ],
        help: limit_help(pages),
    })
}

/// K3: what may be stored that forbids a write of this command, and what permits it.
fn forbidden(name: Word<'_>, value: u8, code: u8) -> Advice<'_> {
    say![{name} " may store " (Hex(u16::from(value), 2)) "h here"].with_help(say![
        "write " (Permitting(code)) " to WRITE_PROTECT before; where that write wasn't done, \
         leave by its `else` label, or read it back and test the register"
    ])
}

/// What is to blame in a message to a target.
fn advice_on<'a>(
    board: &'a Board,
    row: &Row,
    request: &Request<'_>,
    violation: Violation,
) -> Option<Advice<'a>> {
    let (target, transaction) = (request.target, &request.transaction);
    let (device, code) = (board.target(target)?, transaction.code());
    let name = Word::target(board, target);
    match violation {
        Violation::NoEntry => {
            let name = board.target_name(target).unwrap_or("");
            Some(no_entry(name, transaction, device.allow().is_empty()))
        }
        Violation::AllPages => {
            Some(say![{name} " has " (Command(code)) " for each page"].alone())
        }
        Violation::Protected(value) => Some(forbidden(name, value, code)),
        Violation::OverLimit { rail, most } => {
            limit_advice(board, device, row.pages.get(target), code, rail, most)
        }
        Violation::NotGood { rail, need } => {
            let (rail, need) = (Word::rail(board, rail), Word::rail(board, need));
            Some(say![{rail} " needs " {need}].alone())
        }
        _ => {
            let entry = device.entry(transaction.form, code)?;
            entry_advice(device, entry, transaction, violation)
        }
    }
}

/// What is to blame in an instruction at a row, and what is known there.
fn duty_cause(
    alloc: Global,
    board: &Board,
    instr: &Instr,
    row: &Row,
    violation: Violation,
) -> Result<Cause> {
    let Some(request) = instr.request() else {
        return Ok(Cause::none(alloc));
    };
    let blame = match advice_on(board, row, &request, violation) {
        Some(advice) => Some(advice.told(alloc)?),
        None => None,
    };
    let known = facts_here(alloc, board, row, request.target, violation.rule())?;
    Cause::of(alloc, blame, known)
}

/// What is to blame where an instruction breaks a rule at a row, and what is known there.
pub(crate) fn instr_cause(alloc: Global, board: &Board, instr: &Instr, row: &Row) -> Result<Cause> {
    match violation(board, instr, row) {
        Some(violation) => duty_cause(alloc, board, instr, row, violation),
        None => Ok(Cause::none(alloc)),
    }
}

/// The cause of a violation at a place.
fn place_cause(
    alloc: Global,
    judged: Judged<'_>,
    place: usize,
    violation: Violation,
) -> Result<Cause> {
    match (judged.program.at(place), judged.row(place)) {
        (Some(instr), Some(row)) => duty_cause(alloc, judged.board, instr, row, violation),
        _ => Ok(Cause::none(alloc)),
    }
}

/// What is to blame for a refusal, and what is known there.
pub(crate) fn refusal_cause(alloc: Global, judged: Judged<'_>, refusal: Refusal) -> Result<Cause> {
    let Refusal { place, breach } = refusal;
    let detail = match breach {
        Breach::Duty(violation) => return place_cause(alloc, judged, place, violation),
        Breach::NoRow { edge, .. } | Breach::Uncovered { edge, .. } | Breach::Unpaid { edge, .. } =>
            edge_detail(alloc, judged, place, edge, breach)?,
        Breach::UnpaidEnd { .. } => end_detail(alloc, place)?,
        Breach::NoStart => told(alloc, Some(say!["row 0 is none"]))?,
        Breach::Start(unheld) => told(alloc, start_detail(judged, unheld))?,
        Breach::Length => told(alloc, Some(length_detail(judged)))?,
        Breach::Shape(misfit) => shape_detail(alloc, judged, place, misfit)?,
    };
    Cause::of(alloc, detail.map(|detail| Remark::bare(detail)), None)
}
