ghost use Rattle.std.specs.Prelude.{◌≡◌};
ghost use Rattle.table_check.specs.text.Faults.{number_of, name_of, line_of};
ghost use Rattle.table_check.specs.declared.text.fault.TableFault.TheVariants.{Memory};

use std::alloc::{AllocError, AllocFailed};
use thiserror::Error;

/// Why a text is no table.
#[derive(Clone, Copy, Debug, PartialEq, Eq, Error)]
pub enum TableFault {
    #[error("out of memory")]
    Memory,
    /// The first line that isn't as it should be, counted from 1. Where the text ends too early, it
    /// is the one after the last.
    #[error("line {0}: not a line of a table")]
    BadLine(usize),
}

impl TableFault {
    /// The number that is printed.
    pub fn number(self) -> u8
        ensures { result ≡ number_of self }
    {
        match self {
            TableFault::Memory => 1,
            TableFault::BadLine(_) => 2,
        }
    }

    /// The name that is printed.
    pub fn name(self) -> &'static str
        ensures { result.now ≡ name_of self }
    {
        match self {
            TableFault::Memory => "Memory",
            TableFault::BadLine(_) => "BadLine",
        }
    }

    /// The line, for every fault but `Memory`.
    pub fn line(self) -> Option<usize>
        ensures { result ≡ line_of self }
    {
        match self {
            TableFault::Memory => None,
            TableFault::BadLine(line) => Some(line),
        }
    }
}

impl From<AllocError> for TableFault {
    ghost from_gives = { λ _ e. e ≡ Memory };

    fn from(_e: AllocError) -> TableFault {
        TableFault::Memory
    }
}

impl<T: Drop> From<AllocFailed<T>> for TableFault {
    ghost from_gives = { λ _ e. e ≡ Memory };

    fn from(_e: AllocFailed<T>) -> TableFault {
        TableFault::Memory
    }
}
