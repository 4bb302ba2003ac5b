//! What is said of a fault, and what may help.

ghost use Rattle.std.specs.Prelude.{◌≡◌, IfOk, None};
ghost use Rattle.sentences.specs.Sentences.{TellsAdvice};

use crate::Result;
use crate::sentence::{Sentence, told};
use std::alloc::Global;

/// What is said, and what may help, as texts.
#[derive(Debug, Drop)]
pub struct Remark {
    pub message: String,
    pub help: Option<String>,
}

impl Remark {
    /// What is said, where no more may be said to mend it.
    pub fn bare(message: String) -> Remark
        ensures { result ≡ record { message = message; help = None } }
    {
        Remark {
            message,
            help: None,
        }
    }
}

/// What is said, and what may help, before it is written.
#[derive(Clone, Copy)]
pub struct Advice<'a> {
    pub message: Sentence<'a>,
    pub help: Option<Sentence<'a>>,
}

impl Advice<'_> {
    /// The sentences as texts. Fails only for want of memory.
    pub fn told(&self, alloc: Global) -> Result<Remark>
        ensures { IfOk result (TellsAdvice self.now) }
    {
        let message = self.message.told(alloc)?;
        let help = told(alloc, self.help)?;
        Ok(Remark { message, help })
    }
}
