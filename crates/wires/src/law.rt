ghost use Rattle.wires.specs.ArbitrationLaws.{LeastByteWins};

/// Of bytes that are sent together, the least is the one on the wire, and its senders win, whatever
/// the bits between (UM10204, 3.1.8).
pub fn least_byte_wins()
    ensures { LeastByteWins }
{}
