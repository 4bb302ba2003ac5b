//! What a draft is, and the parts of its text.

/// A part of a program. Targets and rails are told by their indices on the board.
#[derive(Clone, Copy, Debug, PartialEq, Eq)]
pub enum Part {
    /// WRITE_PROTECT of the target is written so that all writes are permitted.
    Open(usize),
    /// The rail is turned on, and asked until its power is good.
    TurnOn(usize),
    /// WRITE_PROTECT of the target is written as the plan wishes it at the end.
    Protect(usize),
    /// The rail is turned off, where the program gives up.
    TurnOff(usize),
}

/// A program that brings up the rails of a board.
#[derive(Debug, Drop)]
pub struct Draft {
    /// The rails, by their indices, as they are turned on.
    pub order: Vec<usize>,
    /// The parts of the text, from the top.
    pub parts: Vec<Part>,
    /// The program's text.
    pub text: String,
}
