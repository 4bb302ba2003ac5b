ghost use Rattle.std.specs.Prelude.{◌≡◌};
ghost use Rattle.simulator.specs.Faults.{number_of, name_of, index_of};
ghost use Rattle.simulator.specs.declared.fault.RunFault.TheVariants.{Memory};

use std::alloc::{AllocError, AllocFailed};
use thiserror::Error;

/// Why there is no run of a program under some answers.
#[derive(Clone, Copy, Debug, PartialEq, Eq, Error)]
pub enum RunFault {
    #[error("out of memory")]
    Memory,
    /// The targets can't answer so to the instruction that is next.
    #[error("answer {0} doesn't fit")]
    AnswerDoesNotFit(usize),
    /// The program had ended before.
    #[error("answer {0} comes after the end")]
    AfterEnd(usize),
    /// Over 2^40 ticks.
    #[error("a run of over 2^40 ticks")]
    TooLong,
    /// The targets can't start so.
    #[error("a start that the board hasn't")]
    BadStart,
}

impl RunFault {
    /// The number that is printed.
    pub fn number(self) -> u8
        ensures { result ≡ number_of self }
    {
        match self {
            RunFault::Memory => 1,
            RunFault::AnswerDoesNotFit(_) => 2,
            RunFault::AfterEnd(_) => 3,
            RunFault::TooLong => 4,
            RunFault::BadStart => 5,
        }
    }

    /// The name that is printed.
    pub fn name(self) -> &'static str
        ensures { result.now ≡ name_of self }
    {
        match self {
            RunFault::Memory => "Memory",
            RunFault::AnswerDoesNotFit(_) => "AnswerDoesNotFit",
            RunFault::AfterEnd(_) => "AfterEnd",
            RunFault::TooLong => "TooLong",
            RunFault::BadStart => "BadStart",
        }
    }

    /// The index of the answer, for the faults that have one.
    pub fn index(self) -> Option<usize>
        ensures { result ≡ index_of self }
    {
        match self {
            RunFault::AnswerDoesNotFit(index) | RunFault::AfterEnd(index) => Some(index),
            _ => None,
        }
    }
}

impl From<AllocError> for RunFault {
    ghost from_gives = { λ _ e. e ≡ Memory };

    fn from(_e: AllocError) -> RunFault {
        RunFault::Memory
    }
}

impl<T: Drop> From<AllocFailed<T>> for RunFault {
    ghost from_gives = { λ _ e. e ≡ Memory };

    fn from(_e: AllocFailed<T>) -> RunFault {
        RunFault::Memory
    }
}
