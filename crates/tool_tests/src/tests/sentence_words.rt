//! Sentences by their calls. What notes say is tried with the cases of `examples/cases`.

use super::boards::two_board;
use super::expected::{found, made, notes, same, says};
use board::Board;
use facts::{GoodSet, PageSet, ProtectSet};
use notes::{Level, Note};
use pmbus_table::code::OPERATION;
use sentences::{
    Advice, Figure, Kept, Remark, Sentence, Word, listed_bytes, marked, note_in, note_on,
    quoted_names, rail_names, say, told,
};
use std::alloc::{AllocError, Global};
use std::process::Abort;
use std::test::*;

/// What a word says, between others.
fn said(alloc: Global, word: Word) -> Result<String, AllocError> {
    say![{Word::Text("<")} "" {word} ">"].told(alloc)
}

#[test]
fn words(rt: HostRuntime) {
    let rows = [
        (Word::Nothing, "<>"),
        (Word::Text("a\tb"), "<a\tb>"),
        (Word::Name("a\tb"), "<\"a\\tb\">"),
        (Word::Figure(Figure::Count(7)), "<7>"),
    ];
    for (word, want) in &rows {
        says(&rt, said(rt.alloc(), *word), want);
    }
}

/// 1.1 V is under 4506 times two to -12 (4505.6).
static FIGURES: [(Figure, &str); 15] = [
    (Figure::Number(8), "<8>"),
    (Figure::Span(1, 1), "<1>"),
    (Figure::Span(1, 2), "<1 to 2>"),
    (Figure::Hex(10, 1), "<A>"),
    (Figure::Hex(10, 2), "<0A>"),
    (Figure::Hex(266, 2), "<10A>"),
    (Figure::Hex(10, 4), "<000A>"),
    (Figure::Command(OPERATION), "<OPERATION>"),
    (Figure::Command(0xD0), "<D0>"),
    (
        Figure::Entry("send", Some(3)),
        "<{form = \"send\", command = \"CLEAR_FAULTS\"}>",
    ),
    (Figure::Entry("receive", None), "<{form = \"receive\"}>"),
    (Figure::Permitting(OPERATION), "<0x00 or 0x20 or 0x40>"),
    (Figure::Voltage(4096, 1_000_000), "<4096, 1000000 uV>"),
    (Figure::Limit(1_100_000, -12), "<4505, 1100000 uV>"),
    (Figure::Limit(1_100_000, 1), "<1100000 uV>"),
];

#[test]
fn figures(rt: HostRuntime) {
    for (figure, want) in &FIGURES {
        says(&rt, said(rt.alloc(), Word::Figure(*figure)), want);
    }
}

#[test]
fn lists(rt: HostRuntime) {
    let alloc = rt.alloc();
    says(&rt, quoted_names(alloc, &["va", "vb"]), "\"va\", \"vb\"");
    says(&rt, quoted_names(alloc, &[]), "");
    says(&rt, listed_bytes(alloc, &[0, 255]), "00, FF");
}

/// Tries the words that stand for parts of a board, and of what is known on it.
fn names_parts(rt: &impl Abort, alloc: Global, board: &Board) {
    let pages = found(rt, made(rt, PageSet::of(alloc, &[0, 255])));
    let words = say![
        {Word::target(board, 1)} {Word::rail(board, 0)} {Word::target(board, 2)}
        {Word::Pages(&pages)}
    ];
    says(rt, words.told(alloc), "\"b\"\"va\"\"\"00, FF");
}

/// The word that stands for protections.
fn names_protects(rt: &impl Abort, alloc: Global) {
    let protects = found(rt, made(rt, ProtectSet::of(alloc, &[0x80, 0x20])));
    let words = say![" "{Word::Protects(&protects)}];
    says(rt, words.told(alloc), " 20, 80");
}

/// Tries the names of the second rail, and with which pages the first target may start.
fn has_second_rail(rt: &impl Abort, alloc: Global, board: &Board) {
    let names = made(rt, rail_names(alloc, board, GoodSet::empty().with(1)));
    same(rt, names.as_slice(), ["vb"].as_slice());
    let target = found(rt, board.target(0));
    same(rt, Kept::Page.starts(target), [0].as_slice());
}

#[test]
fn words_of_a_board(rt: HostRuntime) {
    let board = two_board(&rt, rt.alloc());
    names_parts(&rt, rt.alloc(), &board);
    names_protects(&rt, rt.alloc());
    has_second_rail(&rt, rt.alloc(), &board);
    drop(board);
    same(&rt, Kept::Protect.command(), "WRITE_PROTECT");
    same(&rt, Kept::Protect.key(), "start_protects");
}

/// Tries the texts of a remark.
fn remarks(rt: &impl Abort, remark: Result<Remark, AllocError>, message: &str, help: Option<&str>) {
    let remark = made(rt, remark);
    let seen = (remark.message.as_str(), remark.help.as_deref());
    same(rt, seen, (message, help));
}

fn one() -> Sentence<'static> {
    Sentence::plain("a\0").led_by(Word::Figure(Figure::Count(1)))
}

/// What may help is a text already.
fn is_helped(rt: &impl Abort, alloc: Global) {
    let help = made(rt, told(alloc, Some(say!["d"])));
    remarks(rt, one().helped_by(alloc, help), "a1", Some("d"));
}

#[test]
fn advice(rt: HostRuntime) {
    let alloc = rt.alloc();
    remarks(&rt, one().alone().told(alloc), "a1", None);
    let remark = one().with_help(say!["b"]).told(alloc);
    remarks(&rt, remark, "a1", Some("b"));
    remarks(&rt, one().with_text("c").told(alloc), "a1", Some("c"));
    is_helped(&rt, alloc);
    let bare = String::from_str(alloc, "e").map(|text| Remark::bare(text));
    remarks(&rt, bare, "e", None);
}

/// A note on the second line of a text, with a mark below a word.
fn marked_note(rt: &impl Abort, alloc: Global) -> Note {
    let remark = made(rt, say!["wrong"].with_text("mend it").told(alloc));
    let note = note_in(alloc, Level::Error, "%program", "end\ngoto x\n", 2, remark);
    made(rt, marked(alloc, made(rt, note), Some(("goto ", "x"))))
}

/// A note on a line that isn't there.
fn note_without_line(rt: &impl Abort, alloc: Global) -> Note {
    let remark = made(rt, say!["wrong"].alone().told(alloc));
    made(
        rt,
        note_on(alloc, Level::Warning, "%board", 7, None, remark),
    )
}

#[test]
fn notes_on_lines(rt: HostRuntime) {
    let alloc = rt.alloc();
    let want = "%program:2:6: error: wrong\n    goto x\n         ^\nhelp: mend it\n";
    notes(&rt, alloc, Some(marked_note(&rt, alloc)), Some(want));
    let want = "%board:7: warning: wrong\n";
    notes(&rt, alloc, Some(note_without_line(&rt, alloc)), Some(want));
}
