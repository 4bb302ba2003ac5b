//! The place and the name of a lint.

use crate::lint::ProgramLint;

impl ProgramLint {
    ghost use Rattle.std.specs.Prelude.{◌≡◌};
    ghost use Rattle.program_lints.specs.LintNames.{lint_name, lint_place};

    /// The place of the instruction that it is about, counted from 0.
    pub fn place(&self) -> usize
        ensures { result ≡ lint_place self.now }
    {
        match self {
            ProgramLint::OnAtFail { place, .. }
            | ProgramLint::BeforeVoltage { place, .. }
            | ProgramLint::NeedLost { place, .. }
            | ProgramLint::Unreached { place }
            | ProgramLint::ProtectLeft { place, .. }
            | ProgramLint::NoRail { place, .. }
            | ProgramLint::UnservedAlert { place } => *place,
        }
    }

    /// What a comment on its line allows it by.
    pub fn name(&self) -> &'static str
        ensures { result.now ≡ lint_name self.now }
    {
        match self {
            ProgramLint::OnAtFail { .. } => "on-at-fail",
            ProgramLint::BeforeVoltage { .. } => "before-voltage",
            ProgramLint::NeedLost { .. } => "need-lost",
            ProgramLint::Unreached { .. } => "unreached",
            ProgramLint::ProtectLeft { .. } => "protect-left",
            ProgramLint::NoRail { .. } => "no-rail",
            ProgramLint::UnservedAlert { .. } => "unserved-alert",
        }
    }
}
