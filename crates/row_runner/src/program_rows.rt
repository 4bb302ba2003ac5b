//! Rows of programs: what their lines are read as, and their faults.

use crate::cells::{board, count, number, or_dash, program, shown};
use crate::row::{Flaw, Outcome, Row};
use board::Board;
use seq_program::{
    Content, Instr, Program, Request, label_in, message_of, number_within, other_faults,
    place_line, place_lines, read_program,
};
use smbus::Form;
use std::alloc::Global;
use texts::words_of;

/// The registers of a program that sends a message.
const REGISTERS: [u16; 8] = [0, 0, 0, 0x1199, 0, 0, 0, 0];

/// The board and the program of a section.
fn board_and_program(alloc: Global, given: &Row) -> Outcome<(Box<Board>, Program)> {
    let (board_text, text) = given.two_texts()?;
    let board = board(alloc, board_text)?;
    let program = program(alloc, &board, text)?;
    Ok((board, program))
}

/// The target, the form and the code of a request, the register that what is read goes to, and the
/// place that it leads to if it isn't done.
type Asked = (usize, Form, u8, Option<usize>, usize);

fn asked(request: &Request<'_>) -> Asked {
    let transaction = &request.transaction;
    let register = match transaction.register {
        Some(register) => Some(register.index()),
        None => None,
    };
    (
        request.target,
        transaction.form,
        transaction.code(),
        register,
        request.otherwise,
    )
}

/// What an instruction asks of a target.
fn request(instr: &Instr) -> Option<Asked> {
    match instr.request() {
        Some(request) => Some(asked(&request)),
        None => None,
    }
}

/// The bytes of the block that an instruction writes.
fn block(instr: &Instr) -> Option<&[u8]> {
    match instr.request() {
        Some(request) => match request.transaction.content {
            Content::Block(bytes) => Some(bytes.bytes()),
            _ => None,
        },
        None => None,
    }
}

/// The word of an instruction, its register or counter, its value, and the place it jumps to.
type Parts = (&'static str, Option<usize>, Option<u16>, Option<usize>);

/// The parts of an instruction that a request doesn't say.
fn parts(instr: &Instr) -> Parts {
    let jump = instr.jump();
    match instr {
        Instr::Read { register, .. } => ("read", Some(register.index()), None, None),
        Instr::BlockRead { register, .. } => ("blockread", Some(register.index()), None, None),
        Instr::Alert { register, .. } => ("alert", Some(register.index()), None, None),
        Instr::IfAlert { .. } => ("ifalert", None, None, jump),
        Instr::Set { register, value } => ("set", Some(register.index()), Some(*value), None),
        Instr::Add { register, value } => ("add", Some(register.index()), Some(*value), None),
        Instr::If {
            register: r,
            value,
            ..
        } => ("if", Some(r.index()), Some(*value), jump),
        Instr::Above {
            register: r,
            value,
            ..
        } => ("above", Some(r.index()), Some(*value), jump),
        Instr::Count { counter, value } => ("count", Some(counter.index()), Some(*value), None),
        Instr::Again { counter, .. } => ("again", Some(counter.index()), None, jump),
        Instr::Goto { .. } => ("goto", None, None, jump),
        Instr::End => ("end", None, None, None),
        Instr::Fail => ("fail", None, None, None),
        _ => ("another", None, None, None),
    }
}

/// The mask of a comparison, or the ticks of a wait.
fn mask_or_ticks(instr: &Instr) -> Option<u32> {
    match instr {
        Instr::If { mask, .. } => Some(u32::from(*mask)),
        Instr::Wait { ticks } => Some(*ticks),
        _ => None,
    }
}

/// `PLACE | PART`: a part of the instruction of a place; or `PLACES`: the number of places.
fn place_row(alloc: Global, kind: &str, given: &Row) -> Outcome {
    let (board, program) = board_and_program(alloc, given)?;
    if kind == "places" {
        return shown(alloc, program.places());
    }
    let Some(instr) = program.at(count(given.one()?)?) else {
        return Ok("-".to_string(alloc)?);
    };
    match kind {
        "message" => or_dash(alloc, message_of(alloc, &board, instr, &REGISTERS)?),
        "request" => or_dash(alloc, request(instr)),
        "block" => or_dash(alloc, block(instr)),
        "otherwise" => or_dash(alloc, instr.otherwise()),
        "jump" => or_dash(alloc, instr.jump()),
        "parts" => shown(alloc, parts(instr)),
        "number" => or_dash(alloc, mask_or_ticks(instr)),
        _ => Err(Flaw::Kind.error()),
    }
}

/// `LOW | HIGH | WORD | NUMBER`: the number that a word says, if it is from low to high.
fn number_row(alloc: Global, given: &Row) -> Outcome {
    let (low, high, word) = given.three()?;
    let (low, high) = (number(low, u32::MAX)?, number(high, u32::MAX)?);
    or_dash(alloc, number_within(low, high, word))
}

/// `LINE | LABEL`: the label that a line is.
fn label_row(alloc: Global, given: &Row) -> Outcome {
    let words = words_of(alloc, given.one()?)?;
    Ok(label_in(&words).unwrap_or("-").to_string(alloc)?)
}

/// `TEXT | FAULT`: the first fault of a program, the word that is to blame, or the fault's number,
/// name and line.
fn fault_row(alloc: Global, kind: &str, given: &Row) -> Outcome {
    let board = board(alloc, given.text()?)?;
    let Some(fault) = read_program(alloc, &board, given.one()?).err() else {
        return Ok("-".to_string(alloc)?);
    };
    match kind {
        "fault" => shown(alloc, fault),
        "blamed" => shown(alloc, (fault.name(), fault.word())),
        _ => shown(alloc, (fault.number(), fault.name(), fault.line())),
    }
}

/// `LINE | MOST | FAULTS MORE`: the first faults of all lines but one, and the number of the
/// others.
fn other_faults_row(alloc: Global, given: &Row) -> Outcome {
    let (board_text, text) = given.two_texts()?;
    let board = board(alloc, board_text)?;
    let (line, most) = given.two()?;
    let faults = other_faults(alloc, &board, text, count(line)?, count(most)?)?;
    let (first, more) = (faults.first, faults.more);
    Ok(format!(in alloc; "{first:?} {more}")?)
}

/// What a row of some kind comes out as.
pub(crate) fn outcome(alloc: Global, kind: &str, given: &Row) -> Outcome {
    match kind {
        "place_lines" => shown(alloc, place_lines(alloc, given.text()?)?),
        "place_line" => or_dash(
            alloc,
            place_line(alloc, given.text()?, count(given.one()?)?)?,
        ),
        "number_within" => number_row(alloc, given),
        "label_in" => label_row(alloc, given),
        "fault" | "blamed" | "named" => fault_row(alloc, kind, given),
        "other_faults" => other_faults_row(alloc, given),
        _ => place_row(alloc, kind, given),
    }
}
