//! Why an input isn't read to its end.

ghost use Rattle.std.specs.Prelude.{◌≡◌};
ghost use Rattle.session.specs.Unreads.{fault_of, of_bundle};

use crate::fault::InputFault;
use board::{Board, BoardFault};
use bundles::BundleFault;
use seq_program::ProgramFault;
use texts::ReadError;

/// The first fault of an input's bundle, its board or its program.
#[derive(Drop)]
pub enum Unread {
    Bundle(BundleFault),
    Board(BoardFault),
    /// The text is no program for this board.
    Program(Board, ProgramFault),
}

impl Unread {
    /// The fault alone.
    pub fn fault(&self) -> InputFault
        ensures { result ≡ fault_of self.now }
    {
        match self {
            Unread::Bundle(fault) => InputFault::Bundle(*fault),
            Unread::Board(fault) => InputFault::Board(*fault),
            Unread::Program(_, fault) => InputFault::Program(*fault),
        }
    }
}

/// A bundle's error as an input's.
pub(crate) fn of_bundle(error: ReadError<BundleFault>) -> ReadError<Unread>
    ensures { result ≡ of_bundle error }
{
    match error {
        ReadError::Memory => ReadError::Memory,
        ReadError::Fault(fault) => ReadError::Fault(Unread::Bundle(fault)),
    }
}
