//! What is told of a refusal beside its rule.

use crate::Result;
use sentences::Remark;
use std::alloc::Global;

/// What is to blame for a refusal, with names and numbers, and what may mend just that. Behind it
/// stand the facts: what is known at the place, how that is reached, where on the way what is to
/// blame came in, what is wrong beside it, and a run that shows it.
#[derive(Drop)]
pub(crate) struct Cause {
    pub blame: Option<Remark>,
    pub facts: Vec<String>,
    /// What may help, before what mends just that.
    pub helps: Vec<String>,
}

impl Cause {
    /// Nothing is known of it.
    pub(crate) fn none(alloc: Global) -> Cause {
        Cause {
            blame: None,
            facts: Vec::new(alloc),
            helps: Vec::new(alloc),
        }
    }

    /// What is to blame, and what is known at the place.
    pub(crate) fn of(alloc: Global, blame: Option<Remark>, known: Option<String>) -> Result<Cause> {
        let mut facts = Vec::new(alloc);
        facts.extend(known)?;
        let helps = Vec::new(alloc);
        Ok(Cause {
            blame,
            facts,
            helps,
        })
    }
}
