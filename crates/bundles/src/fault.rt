ghost use Rattle.std.specs.Prelude.{◌≡◌};
ghost use Rattle.bundles.specs.Faults.{number_of, name_of};
ghost use Rattle.bundles.specs.Flaws.{at_line};

use crate::command::Header;
use crate::flaw::Flaw;
use texts::ReadError;
use thiserror::Error;

/// What is wrong with a bundle: its first fault, with its line and the line's flaw.
#[derive(Clone, Copy, Debug, PartialEq, Eq, Error)]
pub enum BundleFault {
    #[error("the bundle is empty")]
    NoCommand,
    #[error("the bundle is no text")]
    NotText,
    #[error("the first line is no command")]
    UnknownCommand,
    #[error("line {0} doesn't belong here")]
    Unexpected(usize),
    #[error("a section is missing")]
    MissingSection(Header),
    #[error("line {0} is no message")]
    BadMessage(usize, Flaw),
    #[error("line {0} is no answer")]
    BadAnswer(usize, Flaw),
    #[error("the bundle is too large")]
    TooLarge,
    #[error("line {0} is no seed")]
    BadSeed(usize, Flaw),
}

impl BundleFault {
    /// The number that is printed.
    pub fn number(self) -> u8
        ensures { result ≡ number_of self }
    {
        match self {
            BundleFault::NoCommand => 1,
            BundleFault::NotText => 2,
            BundleFault::UnknownCommand => 3,
            BundleFault::Unexpected(_) => 4,
            BundleFault::MissingSection(_) => 5,
            BundleFault::BadMessage(..) => 6,
            BundleFault::BadAnswer(..) => 7,
            BundleFault::TooLarge => 8,
            BundleFault::BadSeed(..) => 9,
        }
    }

    /// The name that is printed.
    pub fn name(self) -> &'static str
        ensures { result.now ≡ name_of self }
    {
        match self {
            BundleFault::NoCommand => "NoCommand",
            BundleFault::NotText => "NotText",
            BundleFault::UnknownCommand => "UnknownCommand",
            BundleFault::Unexpected(_) => "Unexpected",
            BundleFault::MissingSection(_) => "MissingSection",
            BundleFault::BadMessage(..) => "BadMessage",
            BundleFault::BadAnswer(..) => "BadAnswer",
            BundleFault::TooLarge => "TooLarge",
            BundleFault::BadSeed(..) => "BadSeed",
        }
    }

    /// The fault as a reader's error.
    pub fn error(self) -> ReadError<BundleFault>
        ensures { result ≡ ReadError.Fault self }
    {
        ReadError::Fault(self)
    }
}

/// A flaw of the line of a message with this number, as the bundle's fault.
pub(crate) fn bad_message(number: usize, error: ReadError<Flaw>) -> ReadError<BundleFault>
    ensures { result ≡ at_line (BundleFault.BadMessage number) error }
{
    match error {
        ReadError::Memory => ReadError::Memory,
        ReadError::Fault(flaw) => BundleFault::BadMessage(number, flaw).error(),
    }
}

/// A flaw of the line of an answer with this number, as the bundle's fault.
pub(crate) fn bad_answer(number: usize, error: ReadError<Flaw>) -> ReadError<BundleFault>
    ensures { result ≡ at_line (BundleFault.BadAnswer number) error }
{
    match error {
        ReadError::Memory => ReadError::Memory,
        ReadError::Fault(flaw) => BundleFault::BadAnswer(number, flaw).error(),
    }
}
