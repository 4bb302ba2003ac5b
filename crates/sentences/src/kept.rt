//! PAGE and WRITE_PROTECT, which each target keeps.

ghost use Rattle.std.specs.Prelude.{◌≡◌};
ghost use Rattle.sentences.specs.Kept.{command_of, key_of, starts_of};

use board::Target;

/// A register that each target keeps (PMBus 1.3 Part II, 11.1 and 11.10).
#[derive(Clone, Copy, Debug, PartialEq, Eq)]
pub enum Kept {
    Page,
    Protect,
}

impl Kept {
    /// The name of its command.
    pub fn command(self) -> &'static str
        ensures { result.now ≡ command_of self }
    {
        match self {
            Kept::Page => "PAGE",
            Kept::Protect => "WRITE_PROTECT",
        }
    }

    /// The key of a board file at which its start values stand.
    pub fn key(self) -> &'static str
        ensures { result.now ≡ key_of self }
    {
        match self {
            Kept::Page => "start_pages",
            Kept::Protect => "start_protects",
        }
    }

    /// The values with which a target may start.
    pub fn starts(self, target: &Target) -> &[u8]
        ensures { result.now ≡ starts_of self target.now }
    {
        match self {
            Kept::Page => target.start_pages(),
            Kept::Protect => target.start_protects(),
        }
    }
}
