//! A message with its tries.

use std::alloc::AllocError;

/// How a message is tried: a label and the two words that are added to it, at the message and where
/// it is tried again, and how many times it is.
#[derive(Clone, Copy)]
pub(crate) struct Step<'a> {
    pub(crate) label: &'a str,
    pub(crate) word: &'static str,
    pub(crate) again: &'static str,
    pub(crate) tries: u16,
}

impl<'a> Step<'a> {
    /// Writes the message, with a remark behind it.
    pub(crate) fn write_message(
        &self,
        text: &mut String,
        message: &str,
        remark: &str,
    ) -> Result<(), AllocError> {
        let (label, word, again, tries) = (self.label, self.word, self.again, self.tries);
        write!(text, "count c0 {tries}\n{label}_{word}:\n")?;
        write!(text, "{message} else {label}_{again}{remark}\n")
    }

    /// Writes how it is tried again, and the line to which that leads in the end, if it isn't the
    /// next one.
    pub(crate) fn write_again(&self, text: &mut String, way_out: &str) -> Result<(), AllocError> {
        let (label, word, again) = (self.label, self.word, self.again);
        write!(text, "{label}_{again}:\nagain c0 {label}_{word}\n{way_out}")
    }
}
