use board::Board;
use smbus::{Answer, Message};
use targets::{BusState, fits};

/// A step, by what its targets keep before it and what it sends, and an answer to it.
#[derive(Clone, Copy)]
pub(crate) struct Step<'a> {
    pub board: &'a Board,
    pub bus: &'a BusState,
    pub message: Option<&'a Message>,
    pub answer: &'a Answer,
}

impl Step<'_> {
    /// Whether another answer fits.
    pub(crate) fn takes(&self, answer: &Answer) -> bool {
        fits(self.board, self.bus, self.message, answer)
    }
}
