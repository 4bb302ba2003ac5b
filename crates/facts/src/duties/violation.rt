ghost use Rattle.std.specs.Prelude.{◌≡◌};
ghost use Rattle.facts.specs.duties.Violations.{rule_of};

use crate::domain::span::Span;
use crate::duties::rule::Rule;

/// What breaks a rule from K1 to K5, and what is to blame. Where more than one thing is, it is the
/// first in its order.
#[derive(Clone, Copy, Debug, PartialEq, Eq)]
pub enum Violation {
    /// K1: the target has no entry of the form and the command.
    NoEntry,
    /// K1: these values may be written, and aren't all within the entry's.
    Values(Span),
    /// K1: the length of a block isn't one of the entry's.
    BlockLength,
    /// K1: the byte at this place of a block isn't one of the entry's values.
    BlockByte(usize),
    /// K1: the block that is written and the longest that comes back have over 255 bytes together.
    NoRoom,
    /// K1: the byte that is written is none of the values of PAGE, WRITE_PROTECT or OPERATION.
    UnknownValue,
    /// K2: PAGE may stand for all pages.
    AllPages,
    /// K3: this protection, the least, may be stored and doesn't permit the write.
    Protected(u8),
    /// K4: the first rail that may be touched and whose limit is under the greatest voltage.
    OverLimit { rail: usize, most: u16 },
    /// K5: the first rail that may be touched and has a need that isn't known to be good, and the
    /// first such need.
    NotGood { rail: usize, need: usize },
}

impl Violation {
    /// The rule that is broken.
    pub fn rule(self) -> Rule
        ensures { result ≡ rule_of self }
    {
        match self {
            Violation::NoEntry => Rule::K1,
            Violation::Values(_) => Rule::K1,
            Violation::BlockLength => Rule::K1,
            Violation::BlockByte(_) => Rule::K1,
            Violation::NoRoom => Rule::K1,
            Violation::UnknownValue => Rule::K1,
            Violation::AllPages => Rule::K2,
            Violation::Protected(_) => Rule::K3,
            Violation::OverLimit { .. } => Rule::K4,
            Violation::NotGood { .. } => Rule::K5,
        }
    }
}
