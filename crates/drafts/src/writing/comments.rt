//! Comments of a drafted program: why a line stands there, in words of the board.

use crate::waiting::needs;
use crate::writing::output::{Output, Paging};
use crate::writing::scene::Scene;
use std::alloc::AllocError;

/// Writes the first line, in which the rails stand in their order.
pub(crate) fn write_heading(text: &mut String, scene: &Scene<'_>) -> Result<(), AllocError> {
    if scene.order.is_empty() {
        return text.push_str("# rails: none\n");
    }
    let mut lead = "# rails in this order: ";
    for rail in scene.order {
        let name = scene.rail_name(*rail);
        write!(text, "{lead}{name}")?;
        lead = ", ";
    }
    text.push_str("\n")
}

/// Writes the rails that a rail needs.
fn write_needs(text: &mut String, scene: &Scene<'_>, rail: usize) -> Result<(), AllocError> {
    let mut lead = "; needs ";
    for other in scene.order {
        if needs(scene.board, rail, *other) {
            let name = scene.rail_name(*other);
            write!(text, "{lead}{name}")?;
            lead = ", ";
        }
    }
    Ok(())
}

/// Writes the rails that the plan alone puts before a rail.
fn write_wishes(text: &mut String, scene: &Scene<'_>, rail: usize) -> Result<(), AllocError> {
    let mut lead = "; the plan puts it behind ";
    for other in scene.order {
        if scene.plan.puts_before(*other, rail) && !needs(scene.board, rail, *other) {
            let name = scene.rail_name(*other);
            write!(text, "{lead}{name}")?;
            lead = ", ";
        }
    }
    Ok(())
}

/// Writes what a rail is, and behind which rails it stands.
pub(crate) fn write_place(
    text: &mut String,
    scene: &Scene<'_>,
    output: &Output<'_>,
) -> Result<(), AllocError> {
    let (name, target, page) = (output.name, output.target, output.page);
    if output.paging == Paging::Fixed {
        write!(text, "# {name}: the only page of {target}")?;
    } else {
        write!(text, "# {name}: page {page} of {target}")?;
    }
    write_needs(text, scene, output.rail)?;
    write_wishes(text, scene, output.rail)?;
    text.push_str("\n")
}

/// Writes the volts of a mantissa, rounded down to microvolts.
pub(crate) fn write_volts(
    text: &mut String,
    mantissa: u16,
    exponent: i8,
) -> Result<(), AllocError> {
    let places = u32::from(exponent.unsigned_abs()).min(16);
    let microvolts = (u64::from(mantissa) * 1_000_000) >> places;
    let (volts, rest) = (microvolts / 1_000_000, microvolts % 1_000_000);
    write!(text, "# {volts}.{rest:06} V\n")
}

/// Writes how long ticks of 5 µs take.
pub(crate) fn write_time(text: &mut String, ticks: u32) -> Result<(), AllocError> {
    let microseconds = u64::from(ticks) * 5;
    if microseconds % 1000 == 0 {
        let milliseconds = microseconds / 1000;
        return write!(text, "   # {milliseconds} ms\n");
    }
    write!(text, "   # {microseconds} us\n")
}
