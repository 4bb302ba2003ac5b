//! Why no program is drafted.

use smbus::Form;

/// Why a board's rails can't be brought up as a plan wishes it. Rails and targets are told by their
/// indices on the board.
#[derive(Clone, Copy, Debug, PartialEq, Eq)]
pub enum Undraftable {
    /// No order turns on this rail, since rails wait for one another in a circle. It is the first
    /// such rail of the board.
    Circle(usize),
    /// The program would send this, and no entry of the target permits it.
    NoEntry { target: usize, form: Form, code: u8 },
    /// The voltage that is wished for this rail is over its limit.
    OverLimit(usize),
}
