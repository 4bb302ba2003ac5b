//! What all parts of a text are written from, and the sections that they are written into.

use crate::labels::Labels;
use crate::opening::is_protected;
use crate::part::Part;
use board::Board;
use plans::Plan;
use std::alloc::{AllocError, Global};

/// Whether WRITE_PROTECT of a target may start at several values.
fn starts_vary(board: &Board, target: usize) -> bool {
    match board.target(target).map(|device| device.start_protects()) {
        Some([first, more @ ..]) => more.iter().any(|start| start != first),
        _ => false,
    }
}

/// What the parts of a text are written from.
#[derive(Drop)]
pub(crate) struct Scene<'a> {
    pub(crate) board: &'a Board,
    pub(crate) plan: &'a Plan,
    pub(crate) order: &'a [usize],
    pub(crate) labels: Labels,
    /// Whether some target is opened at the start.
    pub(crate) opens: bool,
}

impl<'a> Scene<'a> {
    pub(crate) fn new(
        board: &'a Board,
        plan: &'a Plan,
        order: &'a [usize],
        parts: &[Part],
    ) -> Scene<'a> {
        Scene {
            board,
            plan,
            order,
            labels: Labels::of_board(board),
            opens: parts.iter().any(|part| matches!(part, Part::Open(_))),
        }
    }

    /// The name of a rail.
    pub(crate) fn rail_name(&self, rail: usize) -> &'a str {
        self.board.rail_name(rail).unwrap_or("")
    }

    /// The name of a target.
    pub(crate) fn target_name(&self, target: usize) -> &'a str {
        self.board.target_name(target).unwrap_or("")
    }

    /// The line that ends the program where rails may be on.
    pub(crate) fn failure(&self) -> &'static str {
        if self.opens || self.may_vary() {
            "fail   # allow on-at-fail protect-left\n"
        } else {
            "fail   # allow on-at-fail\n"
        }
    }

    /// The line that ends the program where it has done all.
    fn success(&self) -> &'static str {
        if self.opens || self.protects() {
            "end   # allow protect-left\n"
        } else {
            "end\n"
        }
    }

    /// Whether some target is protected at the end.
    fn protects(&self) -> bool {
        (0..self.board.targets().len()).any(|target| is_protected(self.plan, target))
    }

    /// Whether some target that is protected at the end may start at several values: it isn't known
    /// then what it began with, even where nothing was written.
    fn may_vary(&self) -> bool {
        (0..self.board.targets().len()).any(|target| is_protected(self.plan, target)
            && starts_vary(self.board, target))
    }
}

/// The sections of a text.
#[derive(Drop)]
pub(crate) struct Sections {
    /// What is done in turn, up to `end`.
    pub(crate) up: String,
    /// The way back, on which rails are turned off.
    pub(crate) down: String,
    /// The tries of what is written to no rail.
    pub(crate) tries: String,
}

impl Sections {
    pub(crate) fn new(alloc: Global) -> Sections {
        Sections {
            up: String::new(alloc),
            down: String::new(alloc),
            tries: String::new(alloc),
        }
    }

    /// The whole text.
    pub(crate) fn joined(self, scene: &Scene<'_>) -> Result<String, AllocError> {
        let Sections {
            mut up,
            down,
            tries,
        } = self;
        up.push_str(scene.success())?;
        up.push_str(&down)?;
        up.push_str(&tries)?;
        Ok(up)
    }
}
