//! What tests share to try values: an assertion in a function of its own is proved once, and
//! calls of it are proved quickly.

use notes::{InFile, Note};
use std::alloc::{AllocError, Global};
use std::fmt::Debug;
use std::process::Abort;

/// Tries that a value is the one that is wanted.
pub(super) fn same<T: Debug + Drop + PartialEq>(rt: &impl Abort, seen: T, want: T) {
    assert_eq!(rt; seen, want);
}

/// What could be made; the test ends where an error came.
pub(super) fn made<T: Drop, E: Debug + Drop>(rt: &impl Abort, tried: Result<T, E>) -> T {
    match tried {
        Ok(made) => made,
        Err(error) => panic!(rt; "{error:?}"),
    }
}

/// What is there; the test ends where nothing is.
pub(super) fn found<T: Drop>(rt: &impl Abort, sought: Option<T>) -> T {
    match sought {
        Some(found) => found,
        None => panic!(rt; "nothing is there"),
    }
}

/// Tries that a list could be made, and what it holds.
pub(super) fn holds<T: Debug + Drop + PartialEq>(
    rt: &impl Abort,
    seen: Result<Vec<T>, AllocError>,
    want: &[T],
) {
    same(rt, seen.as_deref().ok(), Some(want));
}

/// Tries that a text could be made, and what it says.
pub(super) fn says(rt: &impl Abort, seen: Result<String, AllocError>, want: &str) {
    same(rt, seen.as_deref().ok(), Some(want));
}

/// A note as it is printed on its section.
pub(super) fn text_of(rt: &impl Abort, alloc: Global, note: &Note) -> String {
    let name = &note.section;
    let note = InFile { name, note };
    made(rt, format!(in alloc; "{note}"))
}

/// The text of a note, if there is one.
fn noted(rt: &impl Abort, alloc: Global, note: Option<Note>) -> Option<String> {
    match note {
        Some(note) => {
            let text = text_of(rt, alloc, &note);
            drop(note);
            Some(text)
        }
        None => None,
    }
}

/// Tries what a note says, or that there is none.
pub(super) fn notes(rt: &impl Abort, alloc: Global, seen: Option<Note>, want: Option<&str>) {
    let text = noted(rt, alloc, seen);
    same(rt, text.as_deref(), want);
}

/// Tries that there is a note, and how it begins.
pub(super) fn begins(rt: &impl Abort, alloc: Global, seen: Option<Note>, want: &str) {
    match noted(rt, alloc, seen) {
        Some(text) => assert!(rt; text.starts_with(want), "{text}"),
        None => panic!(rt; "no note {want}"),
    }
}
