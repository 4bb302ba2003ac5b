//! The files that a call names.

use bundles::Header;
use std::alloc::{AllocError, Global};

/// The file that stands for a section, by its name as it is told.
#[derive(Drop)]
pub(crate) struct SectionFile {
    pub header: Header,
    pub name: String,
}

/// A file's name as it is told: standard input has one of its own, and a name that could be taken
/// for other output stands in quotes.
pub(crate) fn told_name(alloc: Global, name: &str) -> Result<String, AllocError> {
    if name == "-" {
        String::from_str(alloc, "<stdin>")
    } else if name.chars().any(|c| c.is_control()) {
        format!(in alloc; "{name:?}")
    } else {
        String::from_str(alloc, name)
    }
}
