//! The message that an instruction sends.

ghost use Rattle.std.specs.Prelude.{◌≡◌, ◌≢◌, ◌≤◌, IfOk, IfSome, option_map, slice_get};
ghost use Rattle.smbus.specs.declared.message.Form.TheVariants.{Alert};
ghost use Rattle.seq_program.specs.Requests.{low_byte_first, data_of, bytes_in};
ghost use Rattle.seq_program.specs.RequestViews.{content_view, request_view};
ghost use Rattle.seq_program.specs.Messages.{message_to, message_for, other_message};
ghost use Rattle.seq_program.specs.Messages.{message_of};

use crate::instr::{Instr, Written};
use crate::request::{Content, Request};
use board::{Board, board_is_valid};
use smbus::{Form, Message};
use std::alloc::{AllocError, Global};

/// The two bytes of a word.
fn low_byte_first(alloc: Global, word: u16) -> Result<Vec<u8>, AllocError>
    ensures { IfOk result (λ bytes. bytes.items ≡ low_byte_first word) }
{
    let mut bytes = Vec::new(alloc);
    bytes.push((word % 256) as u8)?;
    bytes.push((word / 256) as u8)?;
    Ok(bytes)
}

/// The data bytes of a value.
fn data_of(alloc: Global, registers: &[u16; 8], value: Written) -> Result<Vec<u8>, AllocError>
    ensures { IfOk result (λ bytes. bytes.items ≡ data_of registers.now value) }
{
    match value {
        Written::Byte(byte) => {
            let mut bytes = Vec::new(alloc);
            bytes.push(byte)?;
            Ok(bytes)
        }
        Written::Word(word) => low_byte_first(alloc, word),
        Written::Register(register) => low_byte_first(alloc, registers[register.index()]),
    }
}

/// The data bytes of what is written.
fn bytes_in(
    alloc: Global,
    registers: &[u16; 8],
    content: &Content<'_>,
) -> Result<Vec<u8>, AllocError>
    ensures { IfOk result
        (λ bytes. bytes.items ≡ bytes_in registers.now (content_view content.now)) }
{
    match content {
        Content::Nothing => Ok(Vec::new(alloc)),
        Content::Value(value) => data_of(alloc, registers, *value),
        Content::Block(block) => Ok(block.copied()?.bytes),
    }
}

/// The address of a target.
fn address_of(board: &Board, target: usize) -> Option<u8>
    ensures value { result ≡ option_map (λ t. t.address) (slice_get board.now.targets target) }
    ensures seven_bits { IfSome result (λ address. address ≤ 127) }
{
    board_is_valid(board);
    Some(board.target(target)?.address())
}

/// A message to a target.
fn message_to(board: &Board, target: usize, form: Form, code: u8, out: Vec<u8>) -> Option<Message>
    requires { form ≢ Alert }
    ensures { result ≡ message_to board.now target form code out.items }
{
    let address = address_of(board, target)?;
    Some(Message {
        address,
        form,
        code,
        out,
    })
}

/// The message of a request, if the board has its target.
fn message_for(
    alloc: Global,
    board: &Board,
    registers: &[u16; 8],
    request: &Request<'_>,
) -> Result<Option<Message>, AllocError>
    requires { request.now.transaction.form ≢ Alert }
    ensures { IfOk result
        (λ m. m ≡ message_for board.now registers.now (request_view request.now)) }
{
    let transaction = &request.transaction;
    let out = bytes_in(alloc, registers, &transaction.content)?;
    Ok(message_to(
        board,
        request.target,
        transaction.form,
        transaction.code(),
        out,
    ))
}

/// The message of an instruction that asks no target for anything.
fn other_message(alloc: Global, instr: &Instr) -> Option<Message>
    ensures { result ≡ other_message instr.now }
{
    match instr {
        Instr::Alert { .. } => Some(Message {
            address: 0x0C,
            form: Form::Alert,
            code: 0,
            out: Vec::new(alloc),
        }),
        _ => None,
    }
}

/// The message that an instruction sends to a target of the board, where the registers hold these
/// words; `None` for an instruction that sends nothing, and for a target that the board hasn't.
/// Memory is answered where a growth was refused.
pub fn message_of(
    alloc: Global,
    board: &Board,
    instr: &Instr,
    registers: &[u16; 8],
) -> Result<Option<Message>, AllocError>
    ensures { IfOk result (λ m. m ≡ message_of board.now instr.now registers.now) }
{
    match instr.request() {
        Some(request) => message_for(alloc, board, registers, &request),
        None => Ok(other_message(alloc, instr)),
    }
}
