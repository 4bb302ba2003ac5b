ghost use Rattle.std.specs.Prelude.{⊤, ◌≡◌, ◌==◌, bit_and};
ghost use Rattle.pmbus_table.specs.Status.{status_bits, reported_good};

use bitflags::{Flag, Flags, bitflag_items};

/// STATUS_WORD's bits (PMBus 1.3 Part II, 17.2).
#[derive(Clone, Copy, PartialEq, Eq, Debug)]
pub struct StatusWord(u16);

bitflag_items! {
    impl StatusWord: u16 {
        const NONE_OF_THE_ABOVE = 1;
        const CML = 2;
        const TEMPERATURE = 4;
        const VIN_UV_FAULT = 8;
        const IOUT_OC_FAULT = 16;
        const VOUT_OV_FAULT = 32;
        const OFF = 64;
        const BUSY = 128;
        const UNKNOWN = 256;
        const OTHER = 512;
        const FANS = 1024;
        const POWER_GOOD_N = 2048;
        const MFR_SPECIFIC = 4096;
        const INPUT = 8192;
        const IOUT_POUT = 16384;
        const VOUT = 32768;
    }
}

impl Flags for StatusWord {
    type Bits = u16;

    ghost exact = { ⊤ };

    ghost table = { status_bits };

    ghost set_of = { λ w. w.0 };

    fn flags<'a>() -> &'a [Flag<StatusWord>] {
        StatusWord::FLAGS
    }

    fn bits(&self) -> u16 {
        self.0
    }

    fn from_bits_retain(bits: u16) -> StatusWord {
        StatusWord(bits)
    }
}

/// Whether a word reports good: neither POWER_GOOD_N nor OFF.
pub fn reported_good(word: u16) -> bool
    ensures value { result ≡ reported_good word }
    ensures mask { result ≡ (bit_and word 0x0840 == 0) }
{
    let word = StatusWord(word);
    !word.contains(StatusWord::POWER_GOOD_N) && !word.contains(StatusWord::OFF)
}
