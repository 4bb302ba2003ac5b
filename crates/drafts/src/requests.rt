//! The messages that a drafted program sends.

ghost use Rattle.std.specs.Prelude.{◌≡◌, ◌++◌, map, flat_map, None, OnOk, IfOk, IfErr, find};
ghost use Rattle.plans.specs.Wishes.{voltage_of};
ghost use Rattle.drafts.specs.Requests.{byte_write, opening, protection, page_requests};
ghost use Rattle.drafts.specs.Requests.{clear_requests, voltage_requests, plain_requests};
ghost use Rattle.drafts.specs.Requests.{rail_requests, requests, first_refused, is_refused};
ghost use Rattle.drafts.specs.Faults.{IsOrderOn, IsFault};

use crate::fault::Undraftable;
use crate::opening::{targets_to_open, targets_to_protect};
use crate::page::needs_page;
use crate::request::{Request, is_refused};
use board::{Board, Rail};
use plans::Plan;
use pmbus_table::code::{CLEAR_FAULTS, OPERATION, PAGE, STATUS_WORD, VOUT_COMMAND, WRITE_PROTECT};
use smbus::Form;
use std::alloc::{AllocError, Global};
use texts::ReadError;

fn byte_write(target: usize, code: u8, value: u8) -> Request
    ensures { result ≡ byte_write target code value }
{
    Request {
        target,
        form: Form::WriteByte,
        code,
        value: Some(u16::from(value)),
    }
}

fn push_page(requests: &mut Vec<Request>, board: &Board, output: &Rail) -> Result<(), AllocError>
    ensures { OnOk result (requests.new.items
        ≡ requests.old.items ++ page_requests board.now output.now) }
{
    if needs_page(board, output) {
        requests.push(byte_write(output.target(), PAGE, output.page()))?;
    }
    Ok(())
}

fn push_clear(requests: &mut Vec<Request>, plan: &Plan, target: usize) -> Result<(), AllocError>
    ensures { OnOk result (requests.new.items
        ≡ requests.old.items ++ clear_requests plan.now.wishes.items target) }
{
    if plan.clears(target) {
        requests.push(Request {
            target,
            form: Form::SendByte,
            code: CLEAR_FAULTS,
            value: None,
        })?;
    }
    Ok(())
}

fn push_voltage(
    requests: &mut Vec<Request>,
    plan: &Plan,
    target: usize,
    rail: usize,
) -> Result<(), AllocError>
    ensures { OnOk result (requests.new.items
        ≡ requests.old.items ++ voltage_requests target (voltage_of plan.now.wishes.items rail)) }
{
    if let Some(mantissa) = plan.voltage_of(rail) {
        requests.push(Request {
            target,
            form: Form::WriteWord,
            code: VOUT_COMMAND,
            value: Some(mantissa),
        })?;
    }
    Ok(())
}

/// Adds what every rail is sent: it is turned on, asked for its status, and turned off where the
/// program gives up.
fn push_always(requests: &mut Vec<Request>, target: usize) -> Result<(), AllocError>
    ensures { OnOk result (requests.new.items
        ≡ requests.old.items ++ plain_requests target) }
{
    requests.push(byte_write(target, OPERATION, 0x80))?;
    requests.push(Request {
        target,
        form: Form::ReadWord,
        code: STATUS_WORD,
        value: None,
    })?;
    requests.push(byte_write(target, OPERATION, 0x00))?;
    Ok(())
}

fn push_rail(
    requests: &mut Vec<Request>,
    board: &Board,
    plan: &Plan,
    rail: usize,
) -> Result<(), AllocError>
    ensures { OnOk result (requests.new.items
        ≡ requests.old.items ++ rail_requests board.now plan.now.wishes.items rail) }
{
    let Some(output) = board.rail(rail) else {
        return Ok(());
    };
    push_page(requests, board, output)?;
    push_clear(requests, plan, output.target())?;
    push_voltage(requests, plan, output.target(), rail)?;
    push_always(requests, output.target())
}

fn push_openings(requests: &mut Vec<Request>, targets: &[usize]) -> Result<(), AllocError>
    ensures { OnOk result (requests.new.items
        ≡ requests.old.items ++ map opening targets.now) }
{
    for target in targets {
        requests.push(byte_write(*target, WRITE_PROTECT, 0x00))?;
    }
    Ok(())
}

fn push_rails(
    requests: &mut Vec<Request>,
    board: &Board,
    plan: &Plan,
    order: &[usize],
) -> Result<(), AllocError>
    ensures { OnOk result (requests.new.items
        ≡ requests.old.items
        ++ flat_map (rail_requests board.now plan.now.wishes.items) order.now) }
{
    for rail in order {
        push_rail(requests, board, plan, *rail)?;
    }
    Ok(())
}

fn push_protections(
    requests: &mut Vec<Request>,
    plan: &Plan,
    targets: &[usize],
) -> Result<(), AllocError>
    ensures { OnOk result (requests.new.items
        ≡ requests.old.items ++ map (protection plan.now.wishes.items) targets.now) }
{
    for target in targets {
        let value = plan.protect_of(*target).unwrap_or(0);
        requests.push(byte_write(*target, WRITE_PROTECT, value))?;
    }
    Ok(())
}

/// The messages that a program sends which turns on the rails in an order.
fn requests_of(
    alloc: Global,
    board: &Board,
    plan: &Plan,
    order: &[usize],
) -> Result<Vec<Request>, AllocError>
    ensures { IfOk result (λ sent.
        sent.items ≡ requests board.now plan.now.wishes.items order.now) }
{
    let mut requests = Vec::new(alloc);
    let opened = targets_to_open(alloc, board, plan)?;
    push_openings(&mut requests, &opened)?;
    push_rails(&mut requests, board, plan, order)?;
    let protected = targets_to_protect(alloc, board, plan)?;
    push_protections(&mut requests, plan, &protected)?;
    Ok(requests)
}

fn first_refused(board: &Board, requests: &[Request]) -> Option<Request>
    ensures { result ≡ find (is_refused board.now) requests.now }
{
    requests
        .iter()
        .copied()
        .find(|request| is_refused(board, request))
}

/// Fails with `NoEntry` of the first message that its target's entries don't permit.
pub(crate) fn check_requests(
    alloc: Global,
    board: &Board,
    plan: &Plan,
    order: &[usize],
) -> Result<(), ReadError<Undraftable>>
    requires { IsOrderOn board.now plan.now.wishes.items order.now }
    ensures permitted { OnOk result
        (first_refused board.now plan.now.wishes.items order.now ≡ None) }
    ensures fault { IfErr result (IsFault board.now plan.now.wishes.items) }
{
    let requests = requests_of(alloc, board, plan, order)?;
    match first_refused(board, &requests) {
        Some(request) => Err(ReadError::Fault(Undraftable::NoEntry {
            target: request.target,
            form: request.form,
            code: request.code,
        })),
        None => Ok(()),
    }
}
