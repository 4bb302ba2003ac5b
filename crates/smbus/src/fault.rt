ghost use Rattle.std.specs.Prelude.{◌≡◌};
ghost use Rattle.smbus.specs.Faults.{number_of, name_of, observe_number_of, observe_name_of};
ghost use Rattle.smbus.specs.declared.fault.ObserveFault.TheVariants.{Memory as ObserveMemory};
ghost use Rattle.smbus.specs.declared.fault.SmbusFault.TheVariants.{Memory};

use std::alloc::{AllocError, AllocFailed};
use thiserror::Error;

/// Why a message and an answer have no slots.
#[derive(Clone, Copy, Debug, PartialEq, Eq, Error)]
pub enum SmbusFault {
    #[error("out of memory")]
    Memory,
    /// A block has no byte or over 255, or both of a block process call have over 255 together.
    #[error("a block that can't be counted")]
    BadBlock,
    /// The data haven't the form's length, or no byte of the controller has the number that is
    /// refused.
    #[error("data of another length than the form's, or a refusal of no byte")]
    BadData,
}

impl SmbusFault {
    pub fn number(self) -> u8
        ensures { result ≡ number_of self }
    {
        match self {
            SmbusFault::Memory => 1,
            SmbusFault::BadBlock => 2,
            SmbusFault::BadData => 3,
        }
    }

    pub fn name(self) -> &'static str
        ensures { result.now ≡ name_of self }
    {
        match self {
            SmbusFault::Memory => "Memory",
            SmbusFault::BadBlock => "BadBlock",
            SmbusFault::BadData => "BadData",
        }
    }
}

impl From<AllocError> for SmbusFault {
    ghost from_gives = { λ _ e. e ≡ Memory };

    fn from(_e: AllocError) -> SmbusFault {
        SmbusFault::Memory
    }
}

impl<T: Drop> From<AllocFailed<T>> for SmbusFault {
    ghost from_gives = { λ _ e. e ≡ Memory };

    fn from(_e: AllocFailed<T>) -> SmbusFault {
        SmbusFault::Memory
    }
}

/// Why events have no frames.
#[derive(Clone, Copy, Debug, PartialEq, Eq, Error)]
pub enum ObserveFault {
    #[error("out of memory")]
    Memory,
    /// The least place for which no frames begin with the events up to it, it included; the number
    /// of the events where all of them begin a frame that doesn't end.
    #[error("no frames at event {0}")]
    NotFrames(usize),
}

impl ObserveFault {
    pub fn number(self) -> u8
        ensures { result ≡ observe_number_of self }
    {
        match self {
            ObserveFault::Memory => 1,
            ObserveFault::NotFrames(_) => 2,
        }
    }

    pub fn name(self) -> &'static str
        ensures { result.now ≡ observe_name_of self }
    {
        match self {
            ObserveFault::Memory => "Memory",
            ObserveFault::NotFrames(_) => "NotFrames",
        }
    }
}

impl From<AllocError> for ObserveFault {
    ghost from_gives = { λ _ e. e ≡ ObserveMemory };

    fn from(_e: AllocError) -> ObserveFault {
        ObserveFault::Memory
    }
}

impl<T: Drop> From<AllocFailed<T>> for ObserveFault {
    ghost from_gives = { λ _ e. e ≡ ObserveMemory };

    fn from(_e: AllocFailed<T>) -> ObserveFault {
        ObserveFault::Memory
    }
}
