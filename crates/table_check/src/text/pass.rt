//! The lines of a text, one after another.

ghost use Rattle.std.specs.Prelude.{◌≡◌, map, length, None, IfSome, IsTrue};
ghost use Rattle.texts.specs.Reading.{some_or};
ghost use Rattle.texts.specs.Words.{lines_by_feed};
ghost use Rattle.table_check.specs.declared.text.fault.TableFault.TheVariants.{BadLine};
ghost use Rattle.table_check.specs.Tables.{table_view};
ghost use Rattle.table_check.specs.text.Faults.{Gives};
ghost use Rattle.table_check.specs.text.Passes.{part_view, pass_view, is_full, no_pass, whole};
ghost use Rattle.table_check.specs.text.Passes.{with_first, with_last, with_end, after_words};

use crate::table::Table;
use crate::text::fault::TableFault;
use crate::text::part::Part;
use crate::text::row_line::head_said;
use crate::text::version::Version;
use board::Board;
use facts::Row;
use std::alloc::Global;
use texts::line_count;

/// The form, the rows so far, and what is read of the next one.
#[derive(Drop)]
pub(crate) struct RowsSoFar {
    pub version: Version,
    pub rows: Vec<Option<Row>>,
    pub part: Option<Part>,
}

impl RowsSoFar {
    /// No line of a text of this form.
    pub(crate) fn new(alloc: Global, version: Version) -> RowsSoFar
        ensures { pass_view result ≡ no_pass version }
    {
        RowsSoFar {
            version,
            rows: Vec::new(alloc),
            part: None,
        }
    }

    /// The first line of a place.
    fn add_head(
        &mut self,
        alloc: Global,
        board: &Board,
        line: usize,
        words: &[&str],
    ) -> Result<(), TableFault>
        requires { self.old.part ≡ None }
        ensures { Gives (λ _. pass_view self.new) result (some_or (BadLine line)
            (with_first board.now (pass_view self.old) (map (λ w. w.now) words.now))) }
    {
        match head_said(self.rows.len(), words) {
            Some(true) => self.part = Some(Part::new(alloc, self.version, board)?),
            Some(false) => self.rows.push(None)?,
            None => return Err(TableFault::BadLine(line)),
        }
        Ok(())
    }

    /// The last line of a row.
    fn add_last(&mut self, line: usize, part: Part, words: &[&str]) -> Result<(), TableFault>
        requires empty { self.old.part ≡ None }
        requires full { IsTrue (is_full (part_view part)) }
        ensures { Gives (λ _. pass_view self.new) result (some_or (BadLine line)
            (with_last (pass_view self.old) (part_view part) (map (λ w. w.now) words.now))) }
    {
        let row = part.finish(self.version, line, words)?;
        self.rows.push(Some(row))?;
        Ok(())
    }

    /// The first or the last line of a row.
    fn add_end(
        &mut self,
        alloc: Global,
        board: &Board,
        line: usize,
        words: &[&str],
    ) -> Result<(), TableFault>
        requires { IfSome (pass_view self.old).part (λ part. IsTrue (is_full part)) }
        ensures { Gives (λ _. pass_view self.new) result (some_or (BadLine line)
            (with_end board.now (pass_view self.old) (pass_view self.old).part
            (map (λ w. w.now) words.now))) }
    {
        match self.part.take() {
            Some(part) => self.add_last(line, part, words),
            None => self.add_head(alloc, board, line, words),
        }
    }

    /// A line more, by its words.
    pub(crate) fn add_line(
        &mut self,
        alloc: Global,
        board: &Board,
        line: usize,
        words: &[&str],
    ) -> Result<(), TableFault>
        ensures { Gives (λ _. pass_view self.new) result (some_or (BadLine line)
            (after_words board.now (pass_view self.old) (pass_view self.old).part
            (map (λ w. w.now) words.now))) }
    {
        match &mut self.part {
            Some(part) if !part.is_full() => part.add_line(alloc, board, line, words),
            _ => self.add_end(alloc, board, line, words),
        }
    }

    /// The table of a text's lines, unless a row isn't finished.
    pub(crate) fn whole(self, text: &str) -> Result<Table, TableFault>
        ensures { Gives table_view result
            (whole (length (lines_by_feed text.now)) (pass_view self)) }
    {
        match self.part {
            None => Ok(Table { rows: self.rows }),
            Some(_) => Err(TableFault::BadLine(line_count(text) + 1)),
        }
    }
}
