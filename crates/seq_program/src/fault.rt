ghost use Rattle.std.specs.Prelude.{◌≡◌};
ghost use Rattle.seq_program.specs.Faults.{number_of, name_of, line_of, word_of};
ghost use Rattle.seq_program.specs.declared.fault.ProgramFault.TheVariants.{Memory};

use smbus::Form;
use std::alloc::{AllocError, AllocFailed};
use thiserror::Error;

/// What may stand in a place of a line.
#[derive(Clone, Copy, Debug, PartialEq, Eq)]
pub enum Operand {
    /// `r` or `w`.
    Direction,
    Register,
    Counter,
    /// So many bytes at most.
    Bytes(usize),
    Else,
    Label,
}

/// What is wrong with the words behind a line's first.
#[derive(Clone, Copy, Debug, PartialEq, Eq)]
pub enum Misfit {
    /// There are to be so many.
    Count(usize),
    /// Something else has to stand in the place of the word with this number, the line's first word
    /// having the number 0.
    Word(usize, Operand),
    /// A register is written by a command that sets no voltage.
    NoVoltage,
}

/// Why a text is no program: the first fault that it has, with its line, counted from 1.
#[derive(Clone, Copy, Debug, PartialEq, Eq, Error)]
pub enum ProgramFault {
    #[error("out of memory")]
    Memory,
    /// The first word is no instruction's, and the line is no label.
    #[error("line {0}: an unknown word")]
    UnknownWord(usize),
    /// A word that is no number from the least to the most.
    #[error("line {line}: a number that can't be")]
    BadNumber {
        line: usize,
        /// The word's number, the line's first word having the number 0.
        word: usize,
        low: u32,
        high: u32,
    },
    #[error("line {0}: a target that the board hasn't")]
    UnknownTarget(usize),
    /// A command that isn't known, or that has neither of the instruction's forms.
    #[error("line {0}: an unknown command")]
    UnknownCommand(usize, Form, Form),
    #[error("line {0}: a label that stands nowhere")]
    UnknownLabel(usize),
    #[error("line {0}: a label that stands twice")]
    SameLabel(usize),
    /// The last instruction isn't `end` or `fail`, or a label stands after it.
    #[error("line {0}: the program doesn't end")]
    NoEnd(usize),
    /// Over 1024 instructions.
    #[error("line {0}: too many instructions")]
    TooLong(usize),
    /// Too few or too many words, or one that can't stand there.
    #[error("line {0}: a bad operand")]
    BadOperand(usize, Misfit),
}

impl ProgramFault {
    /// The number that is printed.
    pub fn number(self) -> u8
        ensures { result ≡ number_of self }
    {
        match self {
            ProgramFault::Memory => 1,
            ProgramFault::UnknownWord(_) => 2,
            ProgramFault::BadNumber { .. } => 3,
            ProgramFault::UnknownTarget(_) => 4,
            ProgramFault::UnknownCommand(..) => 5,
            ProgramFault::UnknownLabel(_) => 6,
            ProgramFault::SameLabel(_) => 7,
            ProgramFault::NoEnd(_) => 8,
            ProgramFault::TooLong(_) => 9,
            ProgramFault::BadOperand(..) => 10,
        }
    }

    /// The name that is printed.
    pub fn name(self) -> &'static str
        ensures { result.now ≡ name_of self }
    {
        match self {
            ProgramFault::Memory => "Memory",
            ProgramFault::UnknownWord(_) => "UnknownWord",
            ProgramFault::BadNumber { .. } => "BadNumber",
            ProgramFault::UnknownTarget(_) => "UnknownTarget",
            ProgramFault::UnknownCommand(..) => "UnknownCommand",
            ProgramFault::UnknownLabel(_) => "UnknownLabel",
            ProgramFault::SameLabel(_) => "SameLabel",
            ProgramFault::NoEnd(_) => "NoEnd",
            ProgramFault::TooLong(_) => "TooLong",
            ProgramFault::BadOperand(..) => "BadOperand",
        }
    }

    /// The line, for every fault but `Memory`.
    pub fn line(self) -> Option<usize>
        ensures { result ≡ line_of self }
    {
        match self {
            ProgramFault::Memory => None,
            ProgramFault::UnknownWord(line)
            | ProgramFault::BadNumber { line, .. }
            | ProgramFault::UnknownTarget(line)
            | ProgramFault::UnknownCommand(line, ..)
            | ProgramFault::UnknownLabel(line)
            | ProgramFault::SameLabel(line)
            | ProgramFault::NoEnd(line)
            | ProgramFault::TooLong(line)
            | ProgramFault::BadOperand(line, _) => Some(line),
        }
    }

    /// The number of the word that is to blame among those of its line, the first having the number
    /// 0; none where it is the whole line, or the label at its end.
    pub fn word(self) -> Option<usize>
        ensures { result ≡ word_of self }
    {
        match self {
            ProgramFault::UnknownWord(_) | ProgramFault::SameLabel(_) => Some(0),
            ProgramFault::UnknownTarget(_) => Some(1),
            ProgramFault::UnknownCommand(..) => Some(2),
            ProgramFault::BadNumber { word, .. } => Some(word),
            ProgramFault::BadOperand(_, Misfit::Word(word, _)) => Some(word),
            ProgramFault::BadOperand(_, Misfit::NoVoltage) => Some(2),
            ProgramFault::BadOperand(_, Misfit::Count(_))
            | ProgramFault::UnknownLabel(_)
            | ProgramFault::NoEnd(_)
            | ProgramFault::TooLong(_)
            | ProgramFault::Memory => None,
        }
    }
}

impl From<AllocError> for ProgramFault {
    ghost from_gives = { λ _ e. e ≡ Memory };

    fn from(_e: AllocError) -> ProgramFault {
        ProgramFault::Memory
    }
}

impl<T: Drop> From<AllocFailed<T>> for ProgramFault {
    ghost from_gives = { λ _ e. e ≡ Memory };

    fn from(_e: AllocFailed<T>) -> ProgramFault {
        ProgramFault::Memory
    }
}
