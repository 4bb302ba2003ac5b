//! Files of rows: texts that sections name, sections, and rows of cells.

use crate::cells::{escaped, unescaped};
use crate::item::Item;
use crate::layers::outcome;
use crate::named_texts::Texts;
use crate::report::Report;
use crate::row::{Flaw, Outcome, Row};
use std::alloc::{AllocError, Global};
use texts::{ReadError, cut_at_space, words_of};

/// A section of rows of one kind, with the names of the texts that they need.
#[derive(Drop)]
struct Section<'a> {
    kind: &'a str,
    texts: Vec<&'a str>,
}

/// What a line is part of.
#[derive(Drop)]
enum Part<'a> {
    Front,
    Text,
    Rows(Section<'a>),
}

/// A file that is read: its layer's name, the texts that its rows may name, and where its lines
/// stand.
#[derive(Drop)]
struct RowFile<'a> {
    name: &'a str,
    layer: &'a str,
    texts: Texts<'a>,
    part: Part<'a>,
}

/// The layer of a file, `facts` of `examples/rows/facts.rows`.
fn layer_of(name: &str) -> &str {
    let file = match name.rsplit_once('/') {
        Some((_, file)) => file,
        None => name,
    };
    file.strip_suffix(".rows").unwrap_or(file)
}

/// The cells of a row, as they are written.
fn cells_of(alloc: Global, line: &str) -> Result<Vec<String>, AllocError> {
    let mut cells = Vec::new(alloc);
    for cell in line.split('|') {
        cells.push(unescaped(alloc, cell.trim())?)?;
    }
    Ok(cells)
}

impl<'a> RowFile<'a> {
    /// The texts that a section names, if they are there.
    fn texts_of(&self, alloc: Global, section: &Section<'_>) -> Outcome<Vec<String>> {
        let mut texts = Vec::new(alloc);
        for name in &section.texts {
            match self.texts.find(name) {
                Some(text) => texts.push(text.to_string(alloc)?)?,
                None => return Err(Flaw::Texts.error()),
            }
        }
        Ok(texts)
    }

    /// What a row comes out as.
    fn outcome(&self, alloc: Global, section: &Section<'_>, cells: Vec<String>) -> Outcome {
        let texts = self.texts_of(alloc, section)?;
        let row = Row { texts, cells };
        outcome(alloc, (self.layer, section.kind), &row)
    }

    /// Tries a row.
    fn try_row(
        &self,
        alloc: Global,
        section: &Section<'_>,
        (number, line): (usize, &str),
        report: &mut Report,
    ) -> Result<(), AllocError> {
        let mut cells = cells_of(alloc, line)?;
        let Some(want) = cells.pop() else {
            return report.fail_at(alloc, self.name, number, "no cells");
        };
        match self.outcome(alloc, section, cells) {
            Ok(seen) if seen == want => {
                report.pass();
                Ok(())
            }
            Ok(seen) => report.fail_at(alloc, self.name, number, &escaped(alloc, &seen)?),
            Err(ReadError::Fault(flaw)) => {
                report.fail_at(alloc, self.name, number, &flaw.text(alloc)?)
            }
            Err(ReadError::Memory) => Err(AllocError),
        }
    }

    /// Adds an earlier text to the one that is being written.
    fn use_text(&mut self, alloc: Global, name: &str) -> Result<bool, AllocError> {
        let Some(text) = self.texts.find(name) else {
            return Ok(false);
        };
        let text = text.to_string(alloc)?;
        self.texts.append(&text)
    }

    /// Puts a text in the place of another, `OLD | NEW`, in the text that is being written.
    fn change(&mut self, alloc: Global, rest: &str) -> Result<bool, AllocError> {
        let Some((old, new)) = rest.split_once('|') else {
            return Ok(false);
        };
        let old = unescaped(alloc, old.trim())?;
        let new = unescaped(alloc, new.trim())?;
        self.texts.replace(alloc, &old, &new)
    }

    /// Begins a section, `NAME KIND TEXT..`.
    fn begin_rows(&mut self, alloc: Global, rest: &'a str) -> Result<bool, AllocError> {
        let words = words_of(alloc, rest)?;
        let [_, kind, texts @ ..] = words.as_slice() else {
            return Ok(false);
        };
        let texts = texts.to_vec(alloc)?;
        self.part = Part::Rows(Section { kind, texts });
        Ok(true)
    }

    /// Does what a line asks for that begins with `@`; whether there is such a line.
    fn obey(&mut self, alloc: Global, line: &'a str) -> Result<bool, AllocError> {
        let (word, rest) = cut_at_space(line).unwrap_or((line, ""));
        match word {
            "text" => {
                self.part = Part::Text;
                self.texts.add(rest, String::new(alloc))?;
                Ok(true)
            }
            "use" => self.use_text(alloc, rest),
            "change" => self.change(alloc, rest),
            "rows" => self.begin_rows(alloc, rest),
            _ => Ok(false),
        }
    }

    /// Takes a line of the file.
    fn take(
        &mut self,
        alloc: Global,
        (number, line): (usize, &'a str),
        report: &mut Report,
    ) -> Result<(), AllocError> {
        if let Some(order) = line.strip_prefix('@') {
            if self.obey(alloc, order)? {
                return Ok(());
            }
            return report.fail_at(alloc, self.name, number, "this line can't be obeyed");
        }
        match &self.part {
            Part::Front => Ok(()),
            Part::Text => self.texts.add_line(line),
            Part::Rows(_) if line.is_empty() || line.starts_with('#') => Ok(()),
            Part::Rows(section) => self.try_row(alloc, section, (number, line), report),
        }
    }
}

/// Runs the rows of a file.
fn run_lines<'a>(
    alloc: Global,
    shared: &Texts<'a>,
    (name, text): (&'a str, &'a str),
    report: &mut Report,
) -> Result<(), AllocError> {
    let mut file = RowFile {
        name,
        layer: layer_of(name),
        texts: shared.copy(alloc)?,
        part: Part::Front,
    };
    for (index, line) in text.lines().enumerate() {
        file.take(alloc, (index.saturating_add(1), line), report)?;
    }
    Ok(())
}

/// Runs the rows of a file, which has to have some.
pub(crate) fn run_file<'a>(
    alloc: Global,
    shared: &Texts<'a>,
    item: Item<'a>,
    report: &mut Report,
) -> Result<(), AllocError> {
    let Some(text) = item.text() else {
        return report.fail_at(alloc, item.name, 0, "not UTF-8");
    };
    let before = (report.passed, report.failed);
    run_lines(alloc, shared, (item.name, text), report)?;
    if before == (report.passed, report.failed) {
        return report.fail_at(alloc, item.name, 0, "no rows");
    }
    Ok(())
}
