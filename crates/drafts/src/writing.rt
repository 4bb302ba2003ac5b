//! The text of a drafted program, part by part.

mod comments;
mod output;
mod protection;
mod scene;
mod steps;
mod turning_off;
mod turning_on;

use crate::part::Part;
use crate::writing::comments::write_heading;
use crate::writing::protection::{write_open, write_protect};
use crate::writing::scene::{Scene, Sections};
use crate::writing::turning_off::write_off;
use crate::writing::turning_on::write_on;
use board::Board;
use plans::Plan;
use std::alloc::{AllocError, Global};

/// Writes one part.
fn write_part(
    alloc: Global,
    sections: &mut Sections,
    scene: &Scene<'_>,
    part: Part,
) -> Result<(), AllocError> {
    match part {
        Part::Open(target) => write_open(alloc, sections, scene, target),
        Part::TurnOn(rail) => write_on(alloc, sections, scene, rail),
        Part::Protect(target) => write_protect(alloc, sections, scene, target),
        Part::TurnOff(rail) => write_off(alloc, sections, scene, rail),
    }
}

/// The text of a program with these parts, which turns on the rails in this order.
pub(crate) fn text_of(
    alloc: Global,
    board: &Board,
    plan: &Plan,
    order: &[usize],
    parts: &[Part],
) -> Result<String, AllocError> {
    let scene = Scene::new(board, plan, order, parts);
    let mut sections = Sections::new(alloc);
    write_heading(&mut sections.up, &scene)?;
    for part in parts {
        write_part(alloc, &mut sections, &scene, *part)?;
    }
    sections.joined(&scene)
}
