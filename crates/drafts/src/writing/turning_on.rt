//! How a rail is turned on and asked until its power is good.

use crate::writing::comments::{write_place, write_time, write_volts};
use crate::writing::output::Output;
use crate::writing::scene::{Scene, Sections};
use std::alloc::{AllocError, Global};

fn write_clear(alloc: Global, text: &mut String, output: &Output<'_>) -> Result<(), AllocError> {
    let target = output.target;
    let message = format!(in alloc; "send {target} CLEAR_FAULTS")?;
    output
        .step("clear", "reclear")
        .write_message(text, &message, "")
}

fn write_voltage(
    alloc: Global,
    text: &mut String,
    scene: &Scene<'_>,
    output: &Output<'_>,
    mantissa: u16,
) -> Result<(), AllocError> {
    if let Some(device) = scene.board.target(output.device) {
        write_volts(text, mantissa, device.exponent())?;
    }
    let target = output.target;
    let message = format!(in alloc; "write {target} VOUT_COMMAND {mantissa}")?;
    output
        .step("set", "reset")
        .write_message(text, &message, "")
}

fn write_enable(
    alloc: Global,
    text: &mut String,
    output: &Output<'_>,
    remark: &'static str,
) -> Result<(), AllocError> {
    let target = output.target;
    let message = format!(in alloc; "write {target} OPERATION 0x80")?;
    output
        .step("on", "reon")
        .write_message(text, &message, remark)
}

/// Writes how it is asked whether the power is good, and where the program goes if it isn't after
/// all times.
fn write_poll(
    text: &mut String,
    scene: &Scene<'_>,
    output: &Output<'_>,
    way_out: &str,
) -> Result<(), AllocError> {
    let poll = scene.plan.polling_of(output.rail);
    let (label, target) = (output.label.as_str(), output.target);
    let (more, ticks) = (poll.times.saturating_sub(1), poll.ticks);
    write!(text, "count c1 {more}\n{label}_poll:\n")?;
    write!(text, "read {target} STATUS_WORD r0 else {label}_wait\n")?;
    write!(text, "if r0 0x0840 0x0000 {label}_good\n")?;
    write!(text, "{label}_wait:\nwait {ticks}")?;
    write_time(text, ticks)?;
    write!(text, "again c1 {label}_poll\n{way_out}{label}_good:\n")
}

/// Writes the steps from the page on, in the order in which they are done.
fn write_steps(
    alloc: Global,
    text: &mut String,
    scene: &Scene<'_>,
    output: &Output<'_>,
) -> Result<(), AllocError> {
    let way_out = output.way_to_off(alloc)?;
    let page = output.step("page", "repage");
    output.write_page(alloc, text, page, "paged", &way_out)?;
    if scene.plan.clears(output.device) {
        write_clear(alloc, text, output)?;
    }
    match scene.plan.voltage_of(output.rail) {
        Some(mantissa) => {
            write_voltage(alloc, text, scene, output, mantissa)?;
            write_enable(alloc, text, output, "")?;
        }
        None => write_enable(alloc, text, output, "   # allow before-voltage")?,
    }
    write_poll(text, scene, output, &way_out)
}

/// Writes how a rail is turned on.
pub(crate) fn write_on(
    alloc: Global,
    sections: &mut Sections,
    scene: &Scene<'_>,
    rail: usize,
) -> Result<(), AllocError> {
    let Some(output) = Output::of_rail(alloc, scene, rail)? else {
        return Ok(());
    };
    write_place(&mut sections.up, scene, &output)?;
    write_steps(alloc, &mut sections.up, scene, &output)
}
