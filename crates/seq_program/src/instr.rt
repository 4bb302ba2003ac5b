ghost use Rattle.std.specs.Prelude.{◌≡◌, ◌<◌, ◌≤◌, length, IfOk};

use pmbus_table::Command;
use std::alloc::AllocError;
use std::marker::Model;

/// One of the registers r0 to r7. Contracts see its number.
#[derive(Clone, Copy, Debug, PartialEq, Eq)]
pub struct Register {
    pub(crate) index: u8,
}

impl Model for Register {
    ghost use Rattle.std.specs.Prelude.{ℕ, ◌<◌};

    ghost Value = { ℕ };

    ghost view = { λ r. r.index };

    ghost invariant = { λ r. r.index < 8 };

    ghost inverse = { λ n. record { index = n } };
}

impl Register {
    /// Its number, 0 to 7.
    pub fn index(self) -> usize
        ensures value { result ≡ self }
        ensures small { result < 8 }
    {
        usize::from(self.index)
    }
}

/// One of the counters c0 to c3. Contracts see its number.
#[derive(Clone, Copy, Debug, PartialEq, Eq)]
pub struct Counter {
    pub(crate) index: u8,
}

impl Model for Counter {
    ghost use Rattle.std.specs.Prelude.{ℕ, ◌<◌};

    ghost Value = { ℕ };

    ghost view = { λ c. c.index };

    ghost invariant = { λ c. c.index < 4 };

    ghost inverse = { λ n. record { index = n } };
}

impl Counter {
    /// Its number, 0 to 3.
    pub fn index(self) -> usize
        ensures value { result ≡ self }
        ensures small { result < 4 }
    {
        self.index as usize
    }
}

/// The greatest number that a counter is set to.
pub const MOST_TURNS: u16 = 1000;

/// The bytes of a block that is written, 1 to 255. Contracts see the list of them.
#[derive(Drop)]
pub struct Block {
    pub(crate) bytes: Vec<u8>,
}

impl Model for Block {
    ghost use Rattle.std.specs.Prelude.{ℕ, List, ◌≤◌, length};

    ghost Value = { List ℕ };

    ghost view = { λ b. b.bytes.items };

    ghost invariant = { λ b. (1 ≤ length b.bytes.items) × (length b.bytes.items ≤ 255) };
}

impl Block {
    /// The bytes, in the order in which they are sent.
    pub fn bytes(&self) -> &[u8]
        ensures bytes { result.now ≡ self.now }
        ensures some { 1 ≤ length self.now }
        ensures few { length self.now ≤ 255 }
    {
        self.bytes.as_slice()
    }

    /// The same bytes once more.
    pub(crate) fn copied(&self) -> Result<Block, AllocError>
        ensures { IfOk result (λ block. block ≡ self.now) }
    {
        let bytes = self.bytes.clone()?;
        Ok(Block { bytes })
    }
}

/// How much a command reads.
#[derive(Clone, Copy, Debug, PartialEq, Eq)]
pub enum Width {
    Byte,
    Word,
}

/// What a command writes.
#[derive(Clone, Copy, Debug, PartialEq, Eq)]
pub enum Written {
    Byte(u8),
    Word(u16),
    /// The word that a register holds.
    Register(Register),
}

/// An instruction. Targets are numbered as on the board, and jumps are places; `otherwise` is where
/// a message leads that isn't done.
#[derive(Drop)]
pub enum Instr {
    Quick {
        target: usize,
        read: bool,
        otherwise: usize,
    },
    Send {
        target: usize,
        command: Command,
        otherwise: usize,
    },
    Receive {
        target: usize,
        register: Register,
        otherwise: usize,
    },
    Write {
        target: usize,
        command: Command,
        value: Written,
        otherwise: usize,
    },
    Read {
        target: usize,
        command: Command,
        width: Width,
        register: Register,
        otherwise: usize,
    },
    Call {
        target: usize,
        command: Command,
        value: u16,
        register: Register,
        otherwise: usize,
    },
    BlockWrite {
        target: usize,
        command: Command,
        bytes: Block,
        otherwise: usize,
    },
    BlockRead {
        target: usize,
        command: Command,
        register: Register,
        otherwise: usize,
    },
    BlockCall {
        target: usize,
        command: Command,
        bytes: Block,
        register: Register,
        otherwise: usize,
    },
    Alert {
        register: Register,
        otherwise: usize,
    },
    IfAlert {
        jump: usize,
    },
    Set {
        register: Register,
        value: u16,
    },
    Add {
        register: Register,
        value: u16,
    },
    /// Jumps where the register's bits under the mask are the value.
    If {
        register: Register,
        mask: u16,
        value: u16,
        jump: usize,
    },
    /// Jumps where the register is greater than the value.
    Above {
        register: Register,
        value: u16,
        jump: usize,
    },
    Count {
        counter: Counter,
        value: u16,
    },
    /// Takes one off the counter and jumps, where it is over 0.
    Again {
        counter: Counter,
        jump: usize,
    },
    Wait {
        ticks: u32,
    },
    Goto {
        jump: usize,
    },
    End,
    Fail,
}
