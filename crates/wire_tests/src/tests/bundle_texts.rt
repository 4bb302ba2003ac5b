//! Texts that bundles are made of. Lines and sections are tested in `examples/rows/bundles.rows`.

use super::expected::{found, holds, made, same, says};
use bundles::{AnswersText, Command, Key, answer_line_of, can_be_said, compose, form_word};
use smbus::{Answer, Contender, FORMS, Form, form_named};
use std::alloc::Global;
use std::process::Abort;
use std::test::*;

#[test]
fn the_last_slot(rt: HostRuntime) {
    let answer = made(&rt, answer_line_of(rt.alloc(), 7, "holds=4095:1"));
    let last = answer.holds.last().copied();
    same(&rt, (answer.holds.len(), last), (4096, Some(1)));
    drop(answer);
}

#[test]
fn files_make_a_bundle(rt: HostRuntime) {
    let board = made(&rt, b"[[target]]\n".to_vec(rt.alloc()));
    let program = made(&rt, b"end\n".to_vec(rt.alloc()));
    let files = made(&rt, vec![in rt.alloc(); board, program]);
    let want = b"%verify\n%board\n[[target]]\n%program\nend\n".as_slice();
    holds(&rt, compose(rt.alloc(), Command::Verify, &files), want);
    same(&rt, Command::Frame.text(), "%frame");
}

/// Tries the keys as the words begin, with a space after each.
fn spells(rt: &impl Abort, alloc: Global, keys: &[Key], want: &str) {
    let mut text = String::new(alloc);
    for key in keys {
        made(rt, text.push_str(key.text()));
        made(rt, text.push(' '));
    }
    same(rt, text.as_str(), want);
}

#[test]
fn keys_in_their_order(rt: HostRuntime) {
    let want = "form= address= code= out= holds= refuse= value= bytes= ";
    spells(&rt, rt.alloc(), Key::of_messages(), want);
    let want = "holds= refuse= value= bytes= took= alerts= contender= cholds= ";
    spells(&rt, rt.alloc(), Key::of_answers(), want);
}

#[test]
fn words_of_forms(rt: HostRuntime) {
    for form in FORMS {
        same(&rt, form_named(form_word(form)), Some(form));
    }
    same(&rt, form_word(Form::Alert), "alert");
}

/// The holds of a line are at most 6999 ticks, and the last one isn't 0.
static UNSAID: [&[u16]; 2] = [&[7000], &[1, 0]];

#[test]
fn holds_that_no_line_says(rt: HostRuntime) {
    let mut answer = Answer::silent(rt.alloc());
    for holds in &UNSAID {
        answer.holds = made(&rt, holds.to_vec(rt.alloc()));
        same(&rt, can_be_said(&answer), false);
    }
    answer.holds.clear();
    answer.contender = Some(Contender {
        address: 0x40,
        read: false,
        bytes: Vec::new(rt.alloc()),
        holds: made(&rt, vec![in rt.alloc(); 7000]),
    });
    same(&rt, can_be_said(&answer), false);
    drop(answer);
}

/// Adds the answer of a line.
fn push(rt: &impl Abort, alloc: Global, text: &mut AnswersText, line: &str) {
    let answer = made(rt, answer_line_of(alloc, 1, line));
    assert!(rt; can_be_said(&answer));
    made(rt, text.push(alloc, &answer));
    drop(answer);
}

/// Two targets: a rail that is turned on, a message that isn't taken, and a read.
#[test]
fn a_text_of_answers(rt: HostRuntime) {
    let alloc = rt.alloc();
    let (pages, protects) = ([0x00, 0xFF], [0x80, 0x00]);
    let text = AnswersText::new(alloc, Some("one rail"), &pages, &protects);
    let mut text = made(&rt, text);
    push(&rt, alloc, &mut text, "took=1 alerts=800C");
    push(&rt, alloc, &mut text, "refuse=2");
    made(&rt, text.remark(alloc, "the status word"));
    push(&rt, alloc, &mut text, "value=840");
    push(&rt, alloc, &mut text, "-");
    let want = "# one rail\nstart 00,FF 80,00\ntook=1 alerts=800C\nrefuse=2\n# the status word\n\
        value=840\n-\n";
    same(&rt, text.into_text().as_str(), want);
}

#[test]
fn a_text_without_answers(rt: HostRuntime) {
    let text = made(&rt, AnswersText::new(rt.alloc(), None, &[0x0A], &[0x40]));
    same(&rt, text.text(), "start 0A 40\n");
}
