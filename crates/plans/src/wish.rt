//! A wish: what one line of a plan asks for.

/// How it is asked whether the power of a rail is good.
#[derive(Clone, Copy, Debug, PartialEq, Eq)]
pub struct Poll {
    /// Ticks of 5 µs before it is asked again, 1 to 10,000,000.
    pub ticks: u32,
    /// How many times it is asked at most, 1 to 1000.
    pub times: u16,
}

/// What one line of a plan asks for. Rails and targets are told by their indices on the board.
#[derive(Clone, Copy, Debug, PartialEq, Eq)]
pub enum Wish {
    /// The mantissa that is commanded before the rail is turned on.
    Voltage { rail: usize, mantissa: u16 },
    /// How many times a message is tried again, up to 1000: of one rail, or of all others.
    Retries { rail: Option<usize>, times: u16 },
    /// How it is asked whether power is good: of one rail, or of all others.
    Polling { rail: Option<usize>, poll: Poll },
    /// What WRITE_PROTECT of the target is at the end.
    Protect { target: usize, value: u8 },
    /// CLEAR_FAULTS is sent before a rail of the target is turned on.
    Clear { target: usize },
    /// The first rail is turned on before the second.
    Order { first: usize, second: usize },
}
