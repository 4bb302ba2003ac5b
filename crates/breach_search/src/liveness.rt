//! Which registers and counters matter at a place: those that some way reads before it writes them.

use seq_program::{Content, Instr, Program, Register, Written};
use std::alloc::{AllocError, Global};

/// A bit for each register and each counter that matters.
#[derive(Clone, Copy, PartialEq, Eq)]
pub(crate) struct Live {
    pub registers: u8,
    pub counters: u8,
}

const NOTHING: Live = Live {
    registers: 0,
    counters: 0,
};

impl Live {
    fn with(self, other: Live) -> Live {
        Live {
            registers: self.registers | other.registers,
            counters: self.counters | other.counters,
        }
    }

    /// Without what an instruction overwrites where it goes on to the next place.
    fn without(self, other: Live) -> Live {
        Live {
            registers: self.registers & !other.registers,
            counters: self.counters & !other.counters,
        }
    }

    pub(crate) fn has_register(self, index: usize) -> bool {
        index < 8 && self.registers >> index & 1 == 1
    }

    pub(crate) fn has_counter(self, index: usize) -> bool {
        index < 4 && self.counters >> index & 1 == 1
    }
}

fn register(register: Register) -> Live {
    Live {
        registers: 1 << register.index(),
        counters: 0,
    }
}

/// The register whose word is written.
fn written_from(value: &Written) -> Live {
    match value {
        Written::Register(sent) => register(*sent),
        Written::Byte(_) | Written::Word(_) => NOTHING,
    }
}

/// The register that a message writes to its target.
fn sent_by(instr: &Instr) -> Live {
    match instr.request() {
        Some(request) => match &request.transaction.content {
            Content::Value(value) => written_from(value),
            Content::Nothing | Content::Block(_) => NOTHING,
        },
        None => NOTHING,
    }
}

/// What an instruction reads.
fn read_by(instr: &Instr) -> Live {
    match instr {
        Instr::If { register: read, .. }
        | Instr::Above { register: read, .. }
        | Instr::Add { register: read, .. } => register(*read),
        Instr::Again { counter, .. } => Live {
            registers: 0,
            counters: 1 << counter.index(),
        },
        _ => sent_by(instr),
    }
}

/// The register that what a message reads goes to.
fn read_into(instr: &Instr) -> Live {
    match instr.request() {
        Some(request) => match request.transaction.register {
            Some(written) => register(written),
            None => NOTHING,
        },
        None => NOTHING,
    }
}

/// What an instruction overwrites, whatever it was, where it goes on to the next place.
fn written_by(instr: &Instr) -> Live {
    match instr {
        Instr::Set {
            register: written,
            ..
        }
        | Instr::Alert {
            register: written,
            ..
        } => register(*written),
        Instr::Count { counter, .. } => Live {
            registers: 0,
            counters: 1 << counter.index(),
        },
        _ => read_into(instr),
    }
}

/// What matters at a place that isn't known.
fn at(live: &[Live], place: usize) -> Live {
    live.get(place).copied().unwrap_or(NOTHING)
}

/// What matters before an instruction.
fn before(live: &[Live], place: usize, instr: &Instr) -> Live {
    let next = at(live, place.saturating_add(1)).without(written_by(instr));
    let jump = match instr.jump() {
        Some(jump) => at(live, jump),
        None => NOTHING,
    };
    read_by(instr).with(next).with(jump)
}

/// Adds what matters at each place because of those to which it leads, and tells whether that is
/// more.
fn spread(live: &mut [Live], program: &Program) -> bool {
    let mut changes = false;
    for back in 1..=live.len() {
        let place = live.len() - back;
        if let Some(instr) = program.at(place) {
            let now = before(live, place, instr);
            if now != live[place] {
                live[place] = now;
                changes = true;
            }
        }
    }
    changes
}

/// That nothing matters at any place.
fn nothing_at(alloc: Global, program: &Program) -> Result<Vec<Live>, AllocError> {
    let mut live = Vec::new(alloc);
    for _ in 0..program.places() {
        live.push(NOTHING)?;
    }
    Ok(live)
}

/// What matters at each place.
pub(crate) fn live_at(alloc: Global, program: &Program) -> Result<Vec<Live>, AllocError> {
    let mut live = nothing_at(alloc, program)?;
    for _ in 0..=program.places() {
        if !spread(&mut live, program) {
            break;
        }
    }
    Ok(live)
}
