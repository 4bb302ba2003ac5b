//! How many rows and cases came out as they shall, and what is said of the others.

use std::alloc::{AllocError, Global};

/// The counts, and a text that says what came out otherwise.
#[derive(Drop)]
pub(crate) struct Report {
    pub(crate) text: String,
    pub(crate) passed: u64,
    pub(crate) failed: u64,
}

impl Report {
    pub(crate) fn new(alloc: Global) -> Report {
        Report {
            text: String::new(alloc),
            passed: 0,
            failed: 0,
        }
    }

    pub(crate) fn pass(&mut self) {
        self.passed = self.passed.saturating_add(1);
    }

    /// Counts a failure, of which these lines speak.
    pub(crate) fn fail(&mut self, lines: &str) -> Result<(), AllocError> {
        self.failed = self.failed.saturating_add(1);
        self.text.push_str(lines)
    }

    /// Counts a failure on a line of a file.
    pub(crate) fn fail_at(
        &mut self,
        alloc: Global,
        file: &str,
        line: usize,
        what: &str,
    ) -> Result<(), AllocError> {
        let lines = format!(in alloc; "{file}:{line}: {what}\n")?;
        self.fail(&lines)
    }
}
