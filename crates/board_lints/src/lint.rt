//! What of a board without faults is suspicious.

/// What is suspicious, and of which target or rail, counted from 0, or of what of the board's
/// other controllers.
#[derive(Debug, PartialEq, Eq, Drop)]
pub enum Lint {
    /// PAGE of the target may be FFh at the start, all pages, and the program reads by this command
    /// what a page has, and doesn't write PAGE.
    AllPages {
        target: usize,
        read: u8,
    },
    /// WRITE_PROTECT of the target may be this at the start, which forbids a write of this command,
    /// and the program has one, and doesn't write WRITE_PROTECT.
    Protected {
        target: usize,
        protect: u8,
        written: u8,
    },
    /// Each of these rails needs the next one, and the last the first.
    Circle(Vec<usize>),
    /// No entry of its target can turn the rail on.
    IdleRail {
        rail: usize,
        lacks: Lack,
    },
    /// No voltage that its target takes is over the rail's limit; this is the greatest, a mantissa.
    LooseLimit {
        rail: usize,
        greatest: u16,
    },
    /// Another controller's frame to this address never wins over a message to a target or over
    /// the alert response.
    NeverWins {
        address: u8,
    },
    /// Other controllers may win so often, and there is no address to which they send.
    NoForeign {
        contentions: u16,
    },
    /// There are addresses to which other controllers send, and none of their frames may win.
    NoContentions,
}

/// What a rail lacks to be turned on.
#[derive(Clone, Copy, Debug, PartialEq, Eq)]
pub enum Lack {
    /// Its target has no entry for OPERATION.
    Entry,
    /// The entry has no value that enables.
    Value,
    /// Neither at the start nor by an entry can PAGE come to select it.
    Page,
}
