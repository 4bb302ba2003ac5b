//! What explains a rule, or a fault by its name.

use crate::fault_lines::FAULTS;
use crate::rule_pages::RULES;
use notes::nearest;
use std::alloc::{AllocError, Global};

/// The page of a rule.
fn rule_page(word: &str) -> Option<&'static str> {
    let (_, page) = RULES
        .iter()
        .find(|(name, _)| name.eq_ignore_ascii_case(word))?;
    Some(page)
}

/// What the faults of a name say, each in a line.
fn fault_page(alloc: Global, word: &str) -> Result<String, AllocError> {
    let mut page = String::new(alloc);
    for (name, says) in &FAULTS {
        if name.eq_ignore_ascii_case(word) {
            write!(page, "{name}: {says}\n")?;
        }
    }
    Ok(page)
}

/// The page on a rule or on faults, if there is one.
pub(crate) fn page_on(alloc: Global, word: &str) -> Result<Option<String>, AllocError> {
    if let Some(page) = rule_page(word) {
        return Ok(Some(String::from_str(alloc, page)?));
    }
    let page = fault_page(alloc, word)?;
    if page.is_empty() {
        return Ok(None);
    }
    Ok(Some(page))
}

/// The names of the rules, and then of the faults.
fn topics(alloc: Global) -> Result<Vec<&'static str>, AllocError> {
    let mut names = Vec::new(alloc);
    for (name, _) in RULES.iter().chain(&FAULTS) {
        names.push(*name)?;
    }
    Ok(names)
}

/// What is said of a word that nothing explains.
pub(crate) fn unknown_topic(alloc: Global, word: &str) -> Result<String, AllocError> {
    let topics = topics(alloc)?;
    match nearest(alloc, word, &topics)? {
        Some(name) => { format!(in alloc; "nothing is called {word:?}; did you mean `{name}`?") }
        None => format!(in alloc;
            "nothing is called {word:?}; K1 to K9 are explained, and each fault by its name"
        ),
    }
}
