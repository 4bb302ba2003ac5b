use std::marker::Model;

/// The bytes between a START and the next START or STOP, each with `true` for an acknowledge.
#[derive(Debug, Drop)]
pub struct Segment {
    pub bytes: Vec<(u8, bool)>,
}

impl Model for Segment {
    ghost use Rattle.std.specs.Prelude.{List, ℕ, Bool};

    ghost Value = { List (ℕ × Bool) };

    ghost view = { λ s. s.bytes.items };
}

impl Segment {
    ghost use Rattle.std.specs.Prelude.{◌≡◌};
    ghost use Rattle.smbus.specs.Shown.{address_of, is_read_of};

    /// The address, which is the upper seven bits of the first byte; None where no byte stands.
    pub fn address(&self) -> Option<u8>
        ensures { result ≡ address_of self.now }
    {
        match self.bytes.first() {
            Some((byte, _)) => Some(byte / 2),
            None => None,
        }
    }

    /// Whether the direction bit, the lowest of the first byte, is to read; None where no byte
    /// stands.
    pub fn read(&self) -> Option<bool>
        ensures { result ≡ is_read_of self.now }
    {
        match self.bytes.first() {
            Some((byte, _)) => Some(byte % 2 == 1),
            None => None,
        }
    }
}

/// A frame: its segments, and the bits that were left over before the STOP.
#[derive(Debug, Drop)]
pub struct Frame {
    pub segments: Vec<Segment>,
    pub tail: Vec<bool>,
}

impl Model for Frame {
    ghost use Rattle.smbus.specs.Shown.{Shown};

    ghost Value = { Shown };

    ghost view = { λ f. record { segments = f.segments.items; tail = f.tail.items } };
}
