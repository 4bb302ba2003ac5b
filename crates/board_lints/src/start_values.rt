//! Targets that may start so that they don't take what a program sends them.

ghost use Rattle.std.specs.Prelude.{◌≡◌, ◌++◌, IfOk, OnOk, flat_map};
ghost use Rattle.std.specs.List.{list_any, enumerate_from};
ghost use Rattle.board_lints.specs.Lints.{first_code, first_forbidding, page_lint, protect_lint};
ghost use Rattle.board_lints.specs.Lints.{target_lints};
ghost use Rattle.board_lints.specs.Reasons.{message_at, sent_by, is_write_of, is_forbidden};
ghost use Rattle.board_lints.specs.Reasons.{is_read_of_page, starts_at_all_pages, starts_protected};

use crate::lint::Lint;
use crate::never_enabled::is_among;
use board::{Board, Target};
use pmbus_table::code::{ALL_PAGES, PAGE, WRITE_PROTECT};
use pmbus_table::{by_code, permits};
use seq_program::{Program, message_of};
use smbus::{Form, Message, carries_code};
use std::alloc::{AllocError, Global};

/// The message of a program's place, with 0 in its registers.
fn message_at(
    alloc: Global,
    board: &Board,
    program: &Program,
    place: usize,
) -> Result<Option<Message>, AllocError>
    ensures { IfOk result (λ message. message ≡ message_at board.now program.now place) }
{
    match program.at(place) {
        Some(instr) => message_of(alloc, board, instr, &[0; 8]),
        None => Ok(None),
    }
}

/// The messages of a program's places.
pub(crate) fn messages_of(
    alloc: Global,
    board: &Board,
    program: &Program,
) -> Result<Vec<Message>, AllocError>
    ensures { IfOk result (λ messages. messages.items ≡ sent_by board.now program.now) }
{
    let mut messages = Vec::new(alloc);
    for place in 0..program.places() {
        if let Some(message) = message_at(alloc, board, program, place)? {
            messages.push(message)?;
        }
    }
    Ok(messages)
}

fn is_write_of(device: &Target, code: u8, message: &Message) -> bool
    ensures { result ≡ is_write_of device.now code message.now }
{
    message.address == device.address()
        && matches!(message.form, Form::WriteByte)
        && message.code == code
}

/// Whether a command of a target is written by one of the messages.
fn is_written(messages: &[Message], device: &Target, code: u8) -> bool
    ensures { result ≡ list_any (is_write_of device.now code) messages.now }
{
    messages
        .iter()
        .any(|message| is_write_of(device, code, message))
}

/// Whether a message to a target is a write that a protection forbids.
fn is_forbidden(device: &Target, protect: u8, message: &Message) -> bool
    ensures { result ≡ is_forbidden device.now protect message.now }
{
    if message.address != device.address() || !carries_code(message.form) {
        return false;
    }
    match by_code(message.code) {
        Some(command) => {
            command.counts_as_write(message.form) && permits(protect, message.code) == Some(false)
        }
        None => false,
    }
}

/// Whether a message to a target reads what one of its pages has.
fn is_read_of_page(device: &Target, message: &Message) -> bool
    ensures { result ≡ is_read_of_page device.now message.now }
{
    if message.address != device.address() || !carries_code(message.form) {
        return false;
    }
    match by_code(message.code) {
        Some(command) => command.paged() && command.form_read() == Some(message.form),
        None => false,
    }
}

fn is_page_read(messages: &[Message], device: &Target) -> bool
    ensures { result ≡ list_any (is_read_of_page device.now) messages.now }
{
    messages
        .iter()
        .any(|message| is_read_of_page(device, message))
}

/// Whether a protection forbids one of the messages.
fn forbids(messages: &[Message], device: &Target, protect: u8) -> bool
    ensures { result ≡ list_any (is_forbidden device.now protect) messages.now }
{
    messages
        .iter()
        .any(|message| is_forbidden(device, protect, message))
}

fn may_forbid(messages: &[Message], device: &Target) -> bool
    ensures { result ≡ list_any (λ protect. list_any (is_forbidden device.now protect)
        messages.now) device.now.start_protects }
{
    device
        .start_protects()
        .iter()
        .any(|protect| forbids(messages, device, *protect))
}

/// Whether all pages are a start value, and the program reads one.
fn starts_at_all_pages(messages: &[Message], device: &Target) -> bool
    ensures { result ≡ starts_at_all_pages messages.now device.now }
{
    !is_written(messages, device, PAGE)
        && is_among(device.start_pages(), ALL_PAGES)
        && is_page_read(messages, device)
}

/// Whether a start value of WRITE_PROTECT forbids what the program writes.
fn starts_protected(messages: &[Message], device: &Target) -> bool
    ensures { result ≡ starts_protected messages.now device.now }
{
    !is_written(messages, device, WRITE_PROTECT) && may_forbid(messages, device)
}

/// The first command of a message that reads what a page has.
fn first_read(messages: &[Message], device: &Target) -> u8
    ensures { result ≡ first_code (is_read_of_page device.now) messages.now }
{
    for message in messages {
        if is_read_of_page(device, message) {
            return message.code;
        }
    }
    0
}

/// The first command of a message that a protection forbids.
fn first_written(messages: &[Message], device: &Target, protect: u8) -> u8
    ensures { result ≡ first_code (is_forbidden device.now protect) messages.now }
{
    for message in messages {
        if is_forbidden(device, protect, message) {
            return message.code;
        }
    }
    0
}

/// The first start value of WRITE_PROTECT that forbids a message.
fn first_forbidding(messages: &[Message], device: &Target) -> u8
    ensures { result ≡ first_forbidding messages.now device.now }
{
    for protect in device.start_protects() {
        if forbids(messages, device, *protect) {
            return *protect;
        }
    }
    0
}

fn page_lint(target: usize, device: &Target, messages: &[Message]) -> Lint
    ensures { result ≡ page_lint messages.now target device.now }
{
    Lint::AllPages {
        target,
        read: first_read(messages, device),
    }
}

fn protect_lint(target: usize, device: &Target, messages: &[Message]) -> Lint
    ensures { result ≡ protect_lint messages.now target device.now }
{
    let protect = first_forbidding(messages, device);
    Lint::Protected {
        target,
        protect,
        written: first_written(messages, device, protect),
    }
}

/// Lints of the start values of a target.
fn push_target_lints(
    lints: &mut Vec<Lint>,
    index: usize,
    device: &Target,
    messages: &[Message],
) -> Result<(), AllocError>
    ensures { OnOk result (lints.new.items
        ≡ lints.old.items ++ target_lints messages.now (index, device.now)) }
{
    if starts_at_all_pages(messages, device) {
        lints.push(page_lint(index, device, messages))?;
    }
    if starts_protected(messages, device) {
        lints.push(protect_lint(index, device, messages))?;
    }
    Ok(())
}

/// Lints of the start values of targets, of which these messages need others.
pub(crate) fn push_unready_targets(
    lints: &mut Vec<Lint>,
    board: &Board,
    messages: &[Message],
) -> Result<(), AllocError>
    ensures { OnOk result (lints.new.items ≡ lints.old.items
        ++ flat_map (target_lints messages.now) (enumerate_from 0 board.now.targets)) }
{
    for (index, device) in board.targets().iter().enumerate() {
        push_target_lints(lints, index, device, messages)?;
    }
    Ok(())
}
