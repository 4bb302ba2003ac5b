//! Cases: a bundle is answered, and what is printed and noted is compared with what is wanted.

use crate::item::Item;
use crate::report::Report;
use diagnostics::{Answered, Beside, answer};
use std::alloc::{AllocError, Global};
use texts::decimal_within;

/// What became of a case's bundle: what was printed, and what was noted.
#[derive(Drop)]
pub(crate) struct Ran {
    output: Vec<u8>,
    notes: String,
}

/// What an answer's notes are as text.
fn notes_of(alloc: Global, answered: Answered) -> Result<String, AllocError> {
    let notes = format!(in alloc; "{}", answered.notes);
    drop(answered);
    notes
}

impl Ran {
    /// Answers a bundle, as the program does; none where that fails.
    pub(crate) fn of(alloc: Global, item: Item<'_>) -> Result<Option<Ran>, AllocError> {
        let mut output = Vec::new(alloc);
        let mut reader = item.bytes;
        match answer(alloc, &mut reader, &mut output, Beside::Nothing) {
            Ok(answered) => {
                let notes = notes_of(alloc, answered)?;
                Ok(Some(Ran { output, notes }))
            }
            Err(_) => Ok(None),
        }
    }

    /// Compares the output with wanted bounds, `LEAST MOST`.
    fn is_within(&self, wanted: &str) -> bool {
        let Some((least, most)) = wanted.trim().split_once(' ') else {
            return false;
        };
        let Ok(output) = str::from_utf8(&self.output) else {
            return false;
        };
        let Some(bound) = output.strip_prefix("accepted bound ") else {
            return false;
        };
        let bound = decimal_within(bound.trim_end(), u64::MAX);
        let (least, most) = (
            decimal_within(least, u64::MAX),
            decimal_within(most, u64::MAX),
        );
        match (least, bound, most) {
            (Some(least), Some(bound), Some(most)) => least <= bound && bound <= most,
            _ => false,
        }
    }

    fn is_as_wanted(&self, item: Item<'_>) -> bool {
        match item.kind {
            "stdout" => self.output.as_slice() == item.bytes,
            "stderr" => self.notes.as_bytes() == item.bytes,
            "accepted" => self.is_within(item.text().unwrap_or("")),
            _ => false,
        }
    }

    /// Counts whether the run is as an item wants it.
    pub(crate) fn compare(
        &self,
        alloc: Global,
        item: Item<'_>,
        report: &mut Report,
    ) -> Result<(), AllocError> {
        if self.is_as_wanted(item) {
            report.pass();
            return Ok(());
        }
        let output = str::from_utf8(&self.output).unwrap_or("not UTF-8\n");
        let (name, kind) = (item.name, item.kind);
        let notes = &self.notes;
        let lines = format!(in alloc; "{name}: another {kind}; printed\n{output}{notes}")?;
        report.fail(&lines)
    }
}
