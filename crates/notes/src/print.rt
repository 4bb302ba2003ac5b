//! The one form in which notes are printed, which takes no memory.

ghost use Rattle.std.specs.Prelude.{◌≡◌, Some, flat_map, map};
ghost use Rattle.std.specs.Prelude.{option_copied, option_map, string_bytes};
ghost use Rattle.notes.specs.Notes.{column_text, head_in, helped, indented, noted, one_line};
ghost use Rattle.notes.specs.Notes.{paged, printed_in, said, saying_in};

use crate::lines::line_at;
use crate::note::Note;
use std::fmt;

/// The first line of a text.
fn one_line(text: &str) -> &str
    ensures { result.now ≡ one_line text.now }
{
    line_at(text, 1).unwrap_or("")
}

/// A column, if it is known.
#[derive(Clone, Copy)]
struct Column(Option<usize>);

impl fmt::Display for Column {
    ghost output = { λ c. Some (column_text c.0) };

    fn fmt<W: fmt::Write>(&self, f: &mut fmt::Formatter<W>) -> fmt::Result {
        match self.0 {
            Some(column) => write!(f, ":{column}"),
            None => Ok(()),
        }
    }
}

/// The place of a note, and its level.
#[derive(Clone, Copy)]
struct Head<'a>(InFile<'a>);

impl fmt::Display for Head<'_> {
    ghost output = { λ h. Some (head_in h.0.name.now h.0.note.now) };

    fn fmt<W: fmt::Write>(&self, f: &mut fmt::Formatter<W>) -> fmt::Result {
        let InFile { name, note } = self.0;
        let (line, column) = (note.line, Column(note.column));
        let level = note.level.word();
        write!(f, "{name}:{line}{column}: {level}: ")
    }
}

/// A message, in a line.
#[derive(Clone, Copy)]
struct Message<'a>(&'a String);

impl fmt::Display for Message<'_> {
    ghost output = { λ m. Some (said (string_bytes m.0.now)) };

    fn fmt<W: fmt::Write>(&self, f: &mut fmt::Formatter<W>) -> fmt::Result {
        let message = one_line(self.0);
        write!(f, "{message}\n")
    }
}

/// A line that is indented, if there is one.
#[derive(Clone, Copy)]
struct Indented<'a>(&'a Option<String>);

impl fmt::Display for Indented<'_> {
    ghost output = { λ i. Some (indented (option_map string_bytes i.0.now)) };

    fn fmt<W: fmt::Write>(&self, f: &mut fmt::Formatter<W>) -> fmt::Result {
        match self.0 {
            Some(line) => write!(f, "    {line}\n"),
            None => Ok(()),
        }
    }
}

/// What is known beside, each in a line.
#[derive(Clone, Copy)]
struct Facts<'a>(&'a Vec<String>);

impl fmt::Display for Facts<'_> {
    ghost output = { λ f. Some (flat_map noted (map string_bytes f.0.now.items)) };

    fn fmt<W: fmt::Write>(&self, f: &mut fmt::Formatter<W>) -> fmt::Result {
        for fact in self.0 {
            let fact = one_line(fact);
            write!(f, "note: {fact}\n")?;
        }
        Ok(())
    }
}

/// What may help, each in a line.
#[derive(Clone, Copy)]
struct Helps<'a>(&'a Vec<String>);

impl fmt::Display for Helps<'_> {
    ghost output = { λ h. Some (flat_map helped (map string_bytes h.0.now.items)) };

    fn fmt<W: fmt::Write>(&self, f: &mut fmt::Formatter<W>) -> fmt::Result {
        for help in self.0 {
            let help = one_line(help);
            write!(f, "help: {help}\n")?;
        }
        Ok(())
    }
}

/// A line that names a page, if there is one.
#[derive(Clone, Copy)]
struct Page(Option<&'static str>);

impl fmt::Display for Page {
    ghost output = { λ p. Some (paged (option_copied p.0)) };

    fn fmt<W: fmt::Write>(&self, f: &mut fmt::Formatter<W>) -> fmt::Result {
        match self.0 {
            Some(page) => write!(f, "help: pmseq explain {page}\n"),
            None => Ok(()),
        }
    }
}

/// What a note says of its line: the place, the level and the message, the source line, and a mark
/// below the word.
#[derive(Clone, Copy)]
struct Saying<'a>(InFile<'a>);

impl fmt::Display for Saying<'_> {
    ghost output = { λ s. Some (saying_in s.0.name.now s.0.note.now) };

    fn fmt<W: fmt::Write>(&self, f: &mut fmt::Formatter<W>) -> fmt::Result {
        let note = self.0.note;
        let (head, message) = (Head(self.0), Message(&note.message));
        let (source, mark) = (Indented(&note.source), Indented(&note.mark));
        write!(f, "{head}{message}{source}{mark}")
    }
}

/// A note as it is printed on a file of this name, which stands for its section.
#[derive(Clone, Copy)]
pub struct InFile<'a> {
    pub name: &'a str,
    pub note: &'a Note,
}

/// The place, the level and the message in one line; the source line, and a mark below the word;
/// what is known beside and what may help, each in a line. Of a text of several lines the first is
/// printed.
impl fmt::Display for InFile<'_> {
    ghost output = { λ i. Some (printed_in i.name.now i.note.now) };

    fn fmt<W: fmt::Write>(&self, f: &mut fmt::Formatter<W>) -> fmt::Result {
        let note = self.note;
        let (saying, facts) = (Saying(*self), Facts(&note.facts));
        let (helps, page) = (Helps(&note.helps), Page(note.page));
        write!(f, "{saying}{facts}{helps}{page}")
    }
}
