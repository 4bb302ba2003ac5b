ghost use Rattle.texts.specs.ReadBack.{PairsReadBack, BytesReadBack, DecimalsReadBack};
ghost use Rattle.texts.specs.ReadBack.{PairsAreSpelled, DecimalsAreSpelled};

/// Printed numbers are read back: a byte from its pair of digits, bytes from their pairs, and a
/// number from its decimal digits.
pub fn numbers_read_back()
    ensures pair { PairsReadBack }
    ensures bytes { BytesReadBack }
    ensures decimal { DecimalsReadBack }
{}

/// What is read as a byte is its pair of digits, and what is read as a decimal number its digits.
pub fn numbers_are_spelled()
    ensures pair { PairsAreSpelled }
    ensures decimal { DecimalsAreSpelled }
{}
