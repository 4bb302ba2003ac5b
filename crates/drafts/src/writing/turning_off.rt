//! How a rail is turned off where the program gives up, and the tries to turn it on above that.

use crate::labels::{OFF_FROM, way_to_off};
use crate::waiting::needs;
use crate::writing::output::{Output, Paging};
use crate::writing::scene::{Scene, Sections};
use std::alloc::{AllocError, Global};

/// The rail that stands before another in the order.
fn rail_before(order: &[usize], rail: usize) -> Option<usize> {
    let place = order.iter().position(|other| *other == rail)?;
    order.get(place.checked_sub(1)?).copied()
}

/// The line that goes on with the rail before this one; at the first one the program fails.
fn way_back(alloc: Global, scene: &Scene<'_>, rail: usize) -> Result<String, AllocError> {
    match rail_before(scene.order, rail) {
        Some(before) => {
            let label = scene.labels.rail(alloc, scene.board, before)?;
            way_to_off(alloc, &label)
        }
        None => String::from_str(alloc, scene.failure()),
    }
}

/// Writes how the messages are tried again that turn the rail on.
fn write_tries(
    alloc: Global,
    text: &mut String,
    scene: &Scene<'_>,
    output: &Output<'_>,
) -> Result<(), AllocError> {
    let (name, way_out) = (output.name, output.way_to_off(alloc)?);
    write!(text, "# tries again for {name}; when they are used up, ")?;
    text.push_str("it and all before it are turned off\n")?;
    if output.paging == Paging::Written {
        output.step("page", "repage").write_again(text, &way_out)?;
    }
    if scene.plan.clears(output.device) {
        output.step("clear", "reclear").write_again(text, &way_out)?;
    }
    if scene.plan.voltage_of(output.rail).is_some() {
        output.step("set", "reset").write_again(text, &way_out)?;
    }
    output.step("on", "reon").write_again(text, "")
}

fn write_disable(
    alloc: Global,
    text: &mut String,
    scene: &Scene<'_>,
    output: &Output<'_>,
) -> Result<(), AllocError> {
    let target = output.target;
    let message = format!(in alloc; "write {target} OPERATION 0x00")?;
    let is_need = (0..scene.board.rails().len()).any(|other| needs(
        scene.board,
        other,
        output.rail,
    ));
    let remark = if is_need { "   # allow need-lost" } else { "" };
    output
        .step("off", "reoff")
        .write_message(text, &message, remark)
}

/// Writes how a rail is turned off, below the tries to turn it on.
pub(crate) fn write_off(
    alloc: Global,
    sections: &mut Sections,
    scene: &Scene<'_>,
    rail: usize,
) -> Result<(), AllocError> {
    let Some(output) = Output::of_rail(alloc, scene, rail)? else {
        return Ok(());
    };
    let text = &mut sections.down;
    write_tries(alloc, text, scene, &output)?;
    let (label, way_out) = (output.label.as_str(), way_back(alloc, scene, rail)?);
    write!(text, "{OFF_FROM}{label}:\n")?;
    let page = output.step("back", "reback");
    output.write_page(alloc, text, page, "backed", &way_out)?;
    write_disable(alloc, text, scene, &output)?;
    text.push_str(&way_out)?;
    if output.paging == Paging::Written {
        page.write_again(text, &way_out)?;
    }
    output.step("off", "reoff").write_again(text, &way_out)
}
