//! Notes by their calls. What they say is tried with the cases of `examples/cases`.

use super::expected::{found, made, notes, same};
use notes::{
    Level, LineFinder, Note, beginning_of, line_at, lowercase_suggestion, nearest, suggestion,
};
use std::alloc::Global;
use std::process::Abort;
use std::test::*;

/// A program whose second line has a word that is spelled wrong.
const PROGRAM: &str = "try:\n\twrite core OPERATOIN 0x80 else try\nend\n";

fn push(rt: &impl Abort, alloc: Global, list: &mut Vec<String>, text: &str) {
    made(rt, list.push(made(rt, String::from_str(alloc, text))));
}

/// A note on that word.
fn word_note(rt: &impl Abort, alloc: Global) -> Note {
    let note = made(rt, Note::on(alloc, Level::Error, "up.txt", PROGRAM, 2));
    let mut note = made(rt, note.marking(alloc, "\twrite core ", "OPERATOIN"));
    let message = "unknown command\nand a line more";
    made(rt, note.message.push_str(message));
    push(rt, alloc, &mut note.facts, "a fact");
    let help = suggestion(alloc, "OPERATOIN", &["PAGE", "OPERATION"]);
    made(rt, note.helps.push(found(rt, made(rt, help))));
    push(rt, alloc, &mut note.helps, "more help");
    note
}

#[test]
fn notes_have_one_form(rt: HostRuntime) {
    let want = "up.txt:2:13: error: unknown command
    \twrite core OPERATOIN 0x80 else try
    \t           ^^^^^^^^^
note: a fact
help: did you mean \"OPERATION\"?
help: more help
";
    let note = Some(word_note(&rt, rt.alloc()));
    notes(&rt, rt.alloc(), note, Some(want));
    same(&rt, Level::Warning.word(), "warning");
}

#[test]
fn names_are_proposed(rt: HostRuntime) {
    let near = nearest(rt.alloc(), "abc", &["xyz", "acb", "abd"]);
    same(&rt, near, Ok(Some("acb")));
    let low = lowercase_suggestion(rt.alloc(), "WAIT", &["wait"]);
    same(&rt, made(&rt, low).is_some(), true);
    same(&rt, line_at(PROGRAM, 3), Some("end"));
    same(&rt, beginning_of("short"), None);
}

#[test]
fn lines_are_found_in_any_order(rt: HostRuntime) {
    let mut lines = LineFinder::of(PROGRAM);
    let found = (lines.line_at(1), lines.line_at(3), lines.line_at(4));
    same(&rt, found, (Some("try:"), Some("end"), None));
    let again = (lines.line_at(1), lines.line_at(0));
    same(&rt, again, (Some("try:"), None));
}

#[test]
fn known_lines_are_quoted(rt: HostRuntime) {
    let note = Note::quoting(rt.alloc(), Level::Warning, "up.txt", 3, Some("end"));
    let mut note = made(&rt, note);
    made(&rt, note.message.push_str("no rail is on"));
    let want = "up.txt:3: warning: no rail is on\n    end\n";
    notes(&rt, rt.alloc(), Some(note), Some(want));
}
