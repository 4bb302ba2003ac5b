//! Notes on standard error. What becomes of them changes nothing.

ghost use Rattle.std.specs.Prelude.{◌≡◌, map, string_bytes};
ghost use Rattle.command_line.specs.Renamed.{section_of, name_of};

use crate::call::NoteForm;
use crate::named::SectionFile;
use crate::version::VERSION;
use diagnostics::Notes;
use notes::{InFile, Note};
use sarif::sarif_log;
use std::alloc::{AllocError, Global};
use std::io::Write;

/// The name of the file that stands for a section, or the section's own.
fn name_of<'a>(files: &'a [SectionFile], section: &'a str) -> &'a str
    ensures { result.now ≡ name_of (map section_of files.now) section.now }
{
    for file in files {
        if file.header.text() == section {
            return &file.name;
        }
    }
    section
}

/// Writes some text.
pub(crate) fn tell_text<W: Write>(errors: &mut W, text: &str) {
    let _written = errors.write_all(text.as_bytes());
}

/// Writes a note, with its file in the place of its section.
fn tell_note<W: Write>(errors: &mut W, files: &[SectionFile], note: &Note) {
    let name = name_of(files, &note.section);
    let note = InFile { name, note };
    let _written = write!(errors, "{note}");
}

fn tell_notes<W: Write>(errors: &mut W, files: &[SectionFile], notes: &[Note]) {
    for note in notes {
        tell_note(errors, files, note);
    }
}

/// Writes what to mend, and then what is warned of. Of a bundle no files are known, and its notes
/// name its sections.
fn tell_lines<W: Write>(errors: &mut W, files: &[SectionFile], notes: &Notes) {
    let untold = notes.others.untold;
    tell_notes(errors, files, notes.error.as_slice());
    tell_notes(errors, files, &notes.others.notes);
    let _written = write!(errors, "{untold}");
    tell_notes(errors, files, &notes.warnings.of_board);
    tell_notes(errors, files, &notes.warnings.of_program);
    tell_notes(errors, files, &notes.warnings.of_labels);
    tell_notes(errors, files, notes.warnings.of_run.as_slice());
    tell_notes(errors, files, notes.bound.as_slice());
}

/// Some notes, and these behind them, each with its file in the place of its section.
fn with_named<'a>(
    mut named: Vec<InFile<'a>>,
    files: &'a [SectionFile],
    notes: &'a [Note],
) -> Result<Vec<InFile<'a>>, AllocError> {
    for note in notes {
        let name = name_of(files, &note.section);
        named.push(InFile { name, note })?;
    }
    Ok(named)
}

/// The log of what is told of a call's files.
fn log_of<'a>(
    alloc: Global,
    files: &'a [SectionFile],
    notes: &'a Notes,
) -> Result<String, AllocError> {
    let first = with_named(Vec::new(alloc), files, notes.error.as_slice())?;
    let errors = with_named(first, files, &notes.others.notes)?;
    let boards = with_named(errors, files, &notes.warnings.of_board)?;
    let programs = with_named(boards, files, &notes.warnings.of_program)?;
    let labels = with_named(programs, files, &notes.warnings.of_labels)?;
    let warned = with_named(labels, files, notes.warnings.of_run.as_slice())?;
    let named = with_named(warned, files, notes.bound.as_slice())?;
    sarif_log(alloc, VERSION, &named)
}

/// Writes what is told of a call's files, in a form. Where there is no memory for a log, it is
/// lines, which take none: the reply is out by then.
pub(crate) fn tell<W: Write>(
    alloc: Global,
    errors: &mut W,
    files: &[SectionFile],
    notes: &Notes,
    form: NoteForm,
) {
    match form {
        NoteForm::Lines => tell_lines(errors, files, notes),
        NoteForm::Sarif => match log_of(alloc, files, notes) {
            Ok(log) => {
                let _written = write!(errors, "{log}\n");
            }
            Err(_) => tell_lines(errors, files, notes),
        },
    }
}

/// Writes a note on a file of this name, in a form.
pub(crate) fn tell_alone<W: Write>(
    alloc: Global,
    errors: &mut W,
    name: &str,
    note: &Note,
    form: NoteForm,
) -> Result<(), AllocError> {
    match form {
        NoteForm::Lines => tell_note(errors, &[], note),
        NoteForm::Sarif => {
            let log = sarif_log(alloc, VERSION, &[InFile { name, note }])?;
            let _written = write!(errors, "{log}\n");
        }
    }
    Ok(())
}
