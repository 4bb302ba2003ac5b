use crate::domain::byte_set::ByteSet;
use crate::domain::kind::{Choice, Kind};

/// The values of WRITE_PROTECT: 00h, 20h, 40h and 80h.
#[derive(Clone, Copy, Debug, PartialEq, Eq)]
pub struct Protects;

/// A set of values of WRITE_PROTECT. Contracts see a number with bits 0 to 3 for 00h, 20h, 40h and
/// 80h.
pub type ProtectSet = ByteSet<Protects>;

impl Kind for Protects {
    ghost use Rattle.facts.specs.domain.Sets.{is_protect, protect_bit, protect_at};
    ghost use Rattle.std.proofs.Common.{arith};
    ghost use Rattle.std.proofs.lemmas.Bool.Decides.{nat_tests};

    ghost is_value = { is_protect };

    ghost place = { protect_bit };

    ghost value_at = { protect_at };

    ghost places = { 4 };

    ghost few = { Prim.grind (arith, nat_tests) };

    ghost small = { λ v t. Prim.grind (arith, nat_tests) };

    ghost back = { λ v t. Prim.grind (arith, nat_tests) };

    ghost valid = { λ n lt. Prim.grind (arith, nat_tests) };

    ghost kept = { λ n lt. Prim.grind (arith, nat_tests) };

    fn is_value(value: u8) -> bool {
        matches!(value, 0x00 | 0x20 | 0x40 | 0x80)
    }

    fn place(value: u8) -> u8 {
        match value {
            0x00 => 0,
            0x20 => 1,
            0x40 => 2,
            _ => 3,
        }
    }
}

impl Choice for Protects {}
