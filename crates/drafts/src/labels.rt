//! Labels of a drafted program: the name of a rail or a target, `_`, and a word that says what for.
//! No word has a `_`, and none is used for rails and for targets, so no two labels are the same.

use board::Board;
use std::alloc::{AllocError, Global};

/// What stands before a rail's name in the label at which it is turned off.
pub(crate) const OFF_FROM: &str = "off_from_";
/// How no name begins, since another label could then be the same as such a one.
const TAKEN: &str = "off_from";
/// The most characters of a rail's name: a label has 32 at most, and `off_from_` has 9.
const LONGEST_RAIL: usize = 23;
/// The most of a target's name: `_reprotect` has 10.
const LONGEST_TARGET: usize = 22;

/// What stands for a rail or a target in labels.
#[derive(Clone, Copy)]
pub(crate) enum Labels {
    Names,
    /// Some name is too long, or begins as a label does that is made.
    Numbers,
}

fn serves(name: Option<&str>, most: usize) -> bool {
    name.is_some_and(|name| name.len() <= most && !name.starts_with(TAKEN))
}

fn rails_serve(board: &Board) -> bool {
    (0..board.rails().len()).all(|rail| serves(board.rail_name(rail), LONGEST_RAIL))
}

fn targets_serve(board: &Board) -> bool {
    (0..board.targets().len()).all(|target| serves(board.target_name(target), LONGEST_TARGET))
}

impl Labels {
    /// Names where all of them can stand in labels.
    pub(crate) fn of_board(board: &Board) -> Labels {
        if rails_serve(board) && targets_serve(board) {
            Labels::Names
        } else {
            Labels::Numbers
        }
    }

    /// What stands for a rail.
    pub(crate) fn rail(
        self,
        alloc: Global,
        board: &Board,
        rail: usize,
    ) -> Result<String, AllocError> {
        match (self, board.rail_name(rail)) {
            (Labels::Names, Some(name)) => String::from_str(alloc, name),
            _ => format!(in alloc; "rail{rail}"),
        }
    }

    /// What stands for a target.
    pub(crate) fn target(
        self,
        alloc: Global,
        board: &Board,
        target: usize,
    ) -> Result<String, AllocError> {
        match (self, board.target_name(target)) {
            (Labels::Names, Some(name)) => String::from_str(alloc, name),
            _ => format!(in alloc; "target{target}"),
        }
    }
}

/// The line that goes to where a rail is turned off.
pub(crate) fn way_to_off(alloc: Global, label: &str) -> Result<String, AllocError> {
    format!(in alloc; "goto {OFF_FROM}{label}\n")
}
