//! Texts that rows may name, such as boards.

use crate::item::Item;
use std::alloc::{AllocError, Global};

/// A text with its name.
#[derive(Drop)]
struct Named<'a> {
    name: &'a str,
    text: String,
}

/// Texts with their names, of which the last may still be written.
#[derive(Drop)]
pub(crate) struct Texts<'a> {
    named: Vec<Named<'a>>,
}

impl<'a> Texts<'a> {
    pub(crate) fn new(alloc: Global) -> Texts<'a> {
        Texts {
            named: Vec::new(alloc),
        }
    }

    /// The same texts, to which others may be added.
    pub(crate) fn copy(&self, alloc: Global) -> Result<Texts<'a>, AllocError> {
        let mut copy = Texts::new(alloc);
        for named in &self.named {
            copy.add(named.name, named.text.clone()?)?;
        }
        Ok(copy)
    }

    /// Adds a text, which hides an earlier one of that name.
    pub(crate) fn add(&mut self, name: &'a str, text: String) -> Result<(), AllocError> {
        Ok(self.named.push(Named { name, text })?)
    }

    /// Adds an item's text, under the name of its file.
    pub(crate) fn keep(&mut self, alloc: Global, item: Item<'a>) -> Result<(), AllocError> {
        let text = item.text().unwrap_or("").to_string(alloc)?;
        self.add(item.name, text)
    }

    /// The last text of this name.
    pub(crate) fn find(&self, name: &str) -> Option<&str> {
        for named in self.named.iter().rev() {
            if named.name == name {
                return Some(&named.text);
            }
        }
        None
    }

    /// Adds to the last text; whether there is one.
    pub(crate) fn append(&mut self, more: &str) -> Result<bool, AllocError> {
        let Some(last) = self.named.last_mut() else {
            return Ok(false);
        };
        last.text.push_str(more)?;
        Ok(true)
    }

    /// Adds a line to the last text.
    pub(crate) fn add_line(&mut self, line: &str) -> Result<(), AllocError> {
        let _is_there = self.append(line)? && self.append("\n")?;
        Ok(())
    }

    /// Puts a text in the place of another in the last text; whether it is there.
    pub(crate) fn replace(
        &mut self,
        alloc: Global,
        old: &str,
        new: &str,
    ) -> Result<bool, AllocError> {
        let Some(last) = self.named.last_mut() else {
            return Ok(false);
        };
        if !last.text.contains(old) {
            return Ok(false);
        }
        last.text = last.text.replace(alloc, old, new)?;
        Ok(true)
    }
}
