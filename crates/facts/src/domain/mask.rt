//! Words of 64 bits as sets of places.

ghost use Rattle.std.specs.Prelude.{◌≡◌, ◌<◌, ◌≤◌, ◌^◌, ◌==◌, ◌↔◌, not, ℕ, IsTrue, nat_lt};
ghost use Rattle.wires.specs.Bits.{bit};
ghost use Rattle.facts.specs.domain.Sets.{gains, keeps};
ghost use Rattle.facts.specs.domain.Rows.{SetCovers};

/// Whether the word has a place.
pub(crate) fn has_place(bits: u64, place: u8) -> bool
    requires { place < 64 }
    ensures { result ≡ bit bits place }
{
    bits >> place & 1 == 1
}

/// The word and one place.
pub(crate) fn with_place(bits: u64, place: u8) -> u64
    requires { place < 64 }
    ensures bits { bit result ≡ gains (bit bits) place }
    ensures small { (k : ℕ) → bits < 2 ^ k → place < k → result < 2 ^ k }
{
    bits | 1 << place
}

/// The word without a place.
pub(crate) fn without_place(bits: u64, place: u8) -> u64
    requires { place < 64 }
    ensures bits { bit result ≡ keeps (bit bits) (λ x. not (x == place)) }
    ensures small { result ≤ bits }
{
    bits & !(1 << place)
}

/// The word with the lowest so many places.
pub(crate) fn lowest(places: u8) -> u64
    requires { places < 64 }
    ensures bits { bit result ≡ λ place. nat_lt place places }
    ensures small { result < 2 ^ places }
{
    (1 << places) - 1
}

/// Whether the word has all places of another.
pub(crate) fn has_all(bits: u64, other: u64) -> bool
    ensures { IsTrue result ↔ SetCovers (bit bits) (bit other) }
{
    bits & other == other
}
