//! Why a call ends before its files are judged.

use session::{DeviceFault, Status};
use std::alloc::AllocError;
use std::io;

/// The exit status of a call that can't be understood, that names no file there is, or whose files
/// have a fault.
pub(crate) const MISUSED: u8 = 2;

/// Why a call ends.
#[derive(Clone, Copy, Drop)]
pub(crate) enum Stop {
    /// A device failed, of which nothing was told yet.
    Device(DeviceFault),
    /// All was told, and the call ends with this status.
    Told(u8),
}

impl From<DeviceFault> for Stop {
    fn from(fault: DeviceFault) -> Stop {
        Stop::Device(fault)
    }
}

impl From<AllocError> for Stop {
    fn from(_e: AllocError) -> Stop {
        Stop::Device(DeviceFault::Memory)
    }
}

impl<T: Drop> From<std::alloc::AllocFailed<T>> for Stop {
    fn from(_e: std::alloc::AllocFailed<T>) -> Stop {
        Stop::Device(DeviceFault::Memory)
    }
}

/// Tells why a file wasn't read, with the system's reason.
pub(crate) fn unread(rt: &HostRuntime, name: &str, error: io::Error) -> Stop {
    let _told = eprintln!(rt; "pmseq: {name}: {error}");
    match error.kind() {
        io::ErrorKind::NotFound => Stop::Told(MISUSED),
        _ => Stop::Told(Status::DeviceFault.code()),
    }
}
