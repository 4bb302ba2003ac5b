ghost use Rattle.std.specs.Prelude.{◌≡◌};
ghost use Rattle.simulator.specs.Moves.{passes};
ghost use Rattle.facts.specs.transfer.Tests.{asked};

/// What an `if` asks of a register: that its bits under the mask are the value, or that they
/// aren't.
#[derive(Clone, Copy)]
pub(crate) struct Test {
    pub mask: u16,
    pub value: u16,
    pub holds: bool,
}

/// Whether the bits of a word under the mask are the value.
pub(crate) fn passes(word: u16, mask: u16, value: u16) -> bool
    ensures { result ≡ passes word mask value }
{
    word & mask == value
}

/// Whether a word is as the test asks.
pub(crate) fn is_asked(test: Test, word: u16) -> bool
    ensures { result ≡ asked test word }
{
    passes(word, test.mask, test.value) == test.holds
}
