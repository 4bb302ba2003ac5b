//! What of an accepted program is suspicious.

ghost use Rattle.std.specs.Prelude.{◌≡◌, ◌++◌, OnOk};
ghost use Rattle.program_lints.specs.Lints.{only_if};

use facts::GoodSet;
use std::alloc::AllocError;

/// What is suspicious at a place of a program, counted from 0. Rails and targets are numbered as on
/// the board.
#[derive(Debug, PartialEq, Eq, Drop)]
pub enum ProgramLint {
    /// The program fails here, and these rails may be on.
    OnAtFail {
        place: usize,
        rails: GoodSet,
    },
    /// The rail may be turned on here, its target takes voltages, and none was surely written to
    /// the rail before.
    BeforeVoltage {
        place: usize,
        rail: usize,
    },
    /// The first rail may be turned off here, or the program ends here and the rail may be on and
    /// isn't known to be good, while the second may be on, which needs it, itself or through needs
    /// of needs.
    NeedLost {
        place: usize,
        need: usize,
        rail: usize,
    },
    /// Nothing leads here, nor to the places after it up to the next that has a row.
    Unreached {
        place: usize,
    },
    /// The program ends here, writes WRITE_PROTECT of the target somewhere, and may leave it
    /// otherwise than it began.
    ProtectLeft {
        place: usize,
        target: usize,
    },
    /// A rail may be turned on here, or its voltage set, at a page of the target that no rail of
    /// the board has.
    NoRail {
        place: usize,
        target: usize,
    },
    /// SMBALERT# is looked at here, and nothing in the program asks who pulls it low.
    UnservedAlert {
        place: usize,
    },
}

/// A lint more, if there is reason for it.
pub(crate) fn push_if(
    lints: &mut Vec<ProgramLint>,
    is_there: bool,
    lint: ProgramLint,
) -> Result<(), AllocError>
    ensures { OnOk result (lints.new.items ≡ lints.old.items ++ only_if is_there lint) }
{
    if is_there {
        lints.push(lint)?;
    }
    Ok(())
}
