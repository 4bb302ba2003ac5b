ghost use Rattle.std.specs.Prelude.{◌≡◌};
ghost use Rattle.fact_search.specs.Faults.{number_of, name_of, place_of};
ghost use Rattle.fact_search.specs.declared.fault.FindFault.TheVariants.{Memory};

use std::alloc::{AllocError, AllocFailed};
use thiserror::Error;

/// Why no table of facts was found.
#[derive(Clone, Copy, Debug, PartialEq, Eq, Error)]
pub enum FindFault {
    #[error("out of memory")]
    Memory,
    /// The place that was visited too often, or the least place of a loop that no counter bounds.
    #[error("gave up at place {0}")]
    GaveUp(usize),
}

impl FindFault {
    /// The number that is printed.
    pub fn number(self) -> u8
        ensures { result ≡ number_of self }
    {
        match self {
            FindFault::Memory => 1,
            FindFault::GaveUp(_) => 2,
        }
    }

    /// The name that is printed.
    pub fn name(self) -> &'static str
        ensures { result.now ≡ name_of self }
    {
        match self {
            FindFault::Memory => "Memory",
            FindFault::GaveUp(_) => "GaveUp",
        }
    }

    /// The place, for every fault but `Memory`.
    pub fn place(self) -> Option<usize>
        ensures { result ≡ place_of self }
    {
        match self {
            FindFault::Memory => None,
            FindFault::GaveUp(place) => Some(place),
        }
    }
}

impl From<AllocError> for FindFault {
    ghost from_gives = { λ _ e. e ≡ Memory };

    fn from(_e: AllocError) -> FindFault {
        FindFault::Memory
    }
}

impl<T: Drop> From<AllocFailed<T>> for FindFault {
    ghost from_gives = { λ _ e. e ≡ Memory };

    fn from(_e: AllocFailed<T>) -> FindFault {
        FindFault::Memory
    }
}
