//! The words of forms.

use crate::Result;
use bundles::form_word;
use notes::lowercase_suggestion;
use sentences::Word::Text;
use sentences::say;
use smbus::{FORMS, Form};
use std::alloc::Global;

/// The words of these forms.
pub(crate) fn form_words(alloc: Global) -> Result<Vec<&'static str>> {
    FORMS.iter().map(|form| form_word(*form)).collect(alloc)
}

/// What may help where a word is no form of a message.
pub(crate) fn form_help(alloc: Global, word: &str) -> Result<String> {
    let mut words = form_words(alloc)?;
    words.push(form_word(Form::Alert))?;
    match lowercase_suggestion(alloc, word, &words)? {
        Some(help) => Ok(help),
        None => {
            let forms = words.join(alloc, ", ")?;
            say!["the forms are " {Text(&forms)}].told(alloc)
        }
    }
}
