//! What the lines about a rail are written from.

use crate::labels::way_to_off;
use crate::page::needs_page;
use crate::writing::scene::Scene;
use crate::writing::steps::Step;
use board::{Board, Rail};
use pmbus_table::code::PAGE;
use smbus::Form;
use std::alloc::{AllocError, Global};

/// How the page of a rail is selected.
#[derive(Clone, Copy, PartialEq, Eq)]
pub(crate) enum Paging {
    /// It is the only one.
    Fixed,
    Written,
    /// It is written, and read back to see that it is taken.
    ReadBack,
}

fn paging_of(board: &Board, output: &Rail) -> Paging {
    if !needs_page(board, output) {
        return Paging::Fixed;
    }
    match board.entry_at(output.target(), Form::ReadByte, PAGE) {
        Some(_) => Paging::ReadBack,
        None => Paging::Written,
    }
}

/// A rail, and how it stands in lines and labels.
#[derive(Drop)]
pub(crate) struct Output<'a> {
    pub(crate) rail: usize,
    pub(crate) name: &'a str,
    pub(crate) label: String,
    pub(crate) device: usize,
    pub(crate) target: &'a str,
    pub(crate) page: u8,
    pub(crate) paging: Paging,
    pub(crate) tries: u16,
}

impl<'a> Output<'a> {
    /// A rail of the board, if there is one of this index.
    pub(crate) fn of_rail(
        alloc: Global,
        scene: &Scene<'a>,
        rail: usize,
    ) -> Result<Option<Output<'a>>, AllocError> {
        let Some(output) = scene.board.rail(rail) else {
            return Ok(None);
        };
        Ok(Some(Output {
            rail,
            name: scene.rail_name(rail),
            label: scene.labels.rail(alloc, scene.board, rail)?,
            device: output.target(),
            target: scene.target_name(output.target()),
            page: output.page(),
            paging: paging_of(scene.board, output),
            tries: scene.plan.retries_of(rail),
        }))
    }

    /// The step of two words.
    pub(crate) fn step(&self, word: &'static str, again: &'static str) -> Step<'_> {
        Step {
            label: self.label.as_str(),
            word,
            again,
            tries: self.tries,
        }
    }

    /// The line that goes to where it is turned off.
    pub(crate) fn way_to_off(&self, alloc: Global) -> Result<String, AllocError> {
        way_to_off(alloc, &self.label)
    }

    /// Writes how its page is selected, by a step whose tries lead to a line in the end; `done` is
    /// the word of the label behind it. Where the page isn't read back, the tries stand elsewhere.
    pub(crate) fn write_page(
        &self,
        alloc: Global,
        text: &mut String,
        step: Step<'_>,
        done: &'static str,
        way_out: &str,
    ) -> Result<(), AllocError> {
        if self.paging == Paging::Fixed {
            return Ok(());
        }
        let (target, page) = (self.target, self.page);
        let message = format!(in alloc; "write {target} PAGE 0x{page:02X}")?;
        step.write_message(text, &message, "")?;
        if self.paging == Paging::ReadBack {
            self.write_page_read(text, step, done)?;
            step.write_again(text, way_out)?;
            let label = step.label;
            write!(text, "{label}_{done}:\n")?;
        }
        Ok(())
    }

    fn write_page_read(
        &self,
        text: &mut String,
        step: Step<'_>,
        done: &'static str,
    ) -> Result<(), AllocError> {
        let (target, page) = (self.target, self.page);
        let (label, again) = (step.label, step.again);
        write!(text, "read {target} PAGE r1 else {label}_{again}\n")?;
        write!(text, "if r1 0xFFFF 0x{page:04X} {label}_{done}\n")
    }
}
