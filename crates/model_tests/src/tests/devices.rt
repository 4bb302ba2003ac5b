//! A writer that takes one byte a call.

use std::io;
use std::io::Write;

/// Takes one byte a call, and at one call fails or takes nothing.
#[derive(Drop)]
pub(super) struct SlowWriter {
    pub(super) taken: Vec<u8>,
    pub(super) calls_left: usize,
    pub(super) fails: bool,
}

impl Write for SlowWriter {
    fn write(&mut self, bytes: &[u8]) -> io::Result<usize> {
        if self.calls_left == 0 && self.fails {
            return Err(io::Error::from(io::ErrorKind::BrokenPipe));
        }
        match bytes.first() {
            Some(byte) if self.calls_left > 0 => {
                self.calls_left -= 1;
                self.taken.push(*byte)?;
                Ok(1)
            }
            _ => Ok(0),
        }
    }

    fn flush(&mut self) -> io::Result<()> {
        Ok(())
    }
}
