//! Which build this is.

use std::alloc::{AllocError, Global};
use std::{env, fs};

/// The version of the commands, their inputs and their outputs.
pub(crate) const VERSION: &str = "1.0";

/// What stands beside the program, written when it was built: the toolchain and the commit.
fn build_text(rt: &HostRuntime) -> Option<String> {
    let program = env::current_exe(rt).ok()?;
    let file = program.with_file_name(rt.alloc(), "version").ok()?;
    fs::read_to_string(rt, file).ok()
}

/// The version, and how this program was built.
pub(crate) fn version_text(rt: &HostRuntime) -> Result<String, AllocError> {
    let alloc = rt.alloc();
    match build_text(rt) {
        Some(build) => format!(in alloc; "pmseq {VERSION}\n{build}"),
        None => format!(in alloc; "pmseq {VERSION}\nan unproved build\n"),
    }
}
