ghost use Rattle.std.specs.Prelude.{◌≡◌, ◌↔◌, IsTrue, IsSome};
ghost use Rattle.pmbus_table.specs.Protect.{permits, is_one_of, is_protection, protections};

use crate::code::{ON_OFF_CONFIG, OPERATION, PAGE, VOUT_COMMAND, WRITE_PROTECT};

/// The values of WRITE_PROTECT, the least first (PMBus 1.3 Part II, 11.1).
pub const PROTECTIONS: [u8; 4] = [0x00, 0x20, 0x40, 0x80];

/// Whether a WRITE_PROTECT value permits a write of a command code; `None` for a value that is
/// none of 00h, 20h, 40h and 80h.
pub fn permits(protect: u8, code: u8) -> Option<bool>
    ensures value { result ≡ permits protect code }
    ensures valid { IsSome result ↔ IsTrue (is_protection protect) }
{
    match protect {
        0x80 => Some(code == WRITE_PROTECT),
        0x40 => Some(matches!(code, WRITE_PROTECT | OPERATION | PAGE)),
        0x20 => Some(matches!(
            code,
            WRITE_PROTECT | OPERATION | PAGE | ON_OFF_CONFIG | VOUT_COMMAND
        )),
        0x00 => Some(true),
        _ => None,
    }
}

/// Whether a WRITE_PROTECT value is one of 00h, 20h, 40h and 80h.
pub fn is_protection(protect: u8) -> bool
    ensures value { result ≡ is_protection protect }
    ensures listed { result ≡ is_one_of protections protect }
{
    permits(protect, WRITE_PROTECT).is_some()
}
