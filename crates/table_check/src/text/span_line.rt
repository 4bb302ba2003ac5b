//! Lines of registers and counters.

ghost use Rattle.std.specs.Prelude.{◌≡◌, map, option_map, slice_get};
ghost use Rattle.table_check.specs.text.Lines.{register_names, counter_names};
ghost use Rattle.table_check.specs.text.Saying.{word_of, span_of, rail_named, target_named};
ghost use Rattle.table_check.specs.text.Saying.{named_source};
ghost use Rattle.table_check.specs.text.Saying.{source_of, sourced_span, only_span, register_said};
ghost use Rattle.table_check.specs.text.Saying.{counter_said, lost_said};

use crate::text::set_line::{after_key, after_name};
use board::Board;
use facts::{Source, Span};
use texts::decimal_within;

const REGISTERS: [&str; 8] = ["r0", "r1", "r2", "r3", "r4", "r5", "r6", "r7"];

const COUNTERS: [&str; 4] = ["c0", "c1", "c2", "c3"];

pub(crate) fn register_name(index: usize) -> Option<&'static str>
    ensures { option_map (λ n. n.now) result ≡ slice_get register_names index }
{
    REGISTERS.get(index).copied()
}

pub(crate) fn counter_name(index: usize) -> Option<&'static str>
    ensures { option_map (λ n. n.now) result ≡ slice_get counter_names index }
{
    COUNTERS.get(index).copied()
}

fn word_of(text: &str) -> Option<u16>
    ensures { result ≡ word_of text.now }
{
    let number = decimal_within(text, 65_535)?;
    Some(number as u16)
}

#[tactic(auto, unfolding(crate::specs::text::Saying::span_of))]
fn span_of(lo: &str, hi: &str) -> Option<Span>
    ensures { result ≡ span_of lo.now hi.now }
{
    let lo = word_of(lo)?;
    let hi = word_of(hi)?;
    Some(Span { lo, hi })
}

#[tactic(auto, unfolding(crate::specs::text::Saying::rail_named))]
fn rail_named(board: &Board, name: &str) -> Option<usize>
    ensures { result ≡ rail_named board.now name.now }
{
    board.rail_named(name)
}

#[tactic(auto, unfolding(crate::specs::text::Saying::target_named))]
fn target_named(board: &Board, name: &str) -> Option<usize>
    ensures { result ≡ target_named board.now name.now }
{
    board.target_named(name)
}

fn named_source(board: &Board, kind: &str, name: &str) -> Option<Source>
    ensures { result ≡ named_source board.now kind.now name.now }
{
    match kind {
        "status" => Some(Source::Status(rail_named(board, name)?)),
        "page" => Some(Source::Page(target_named(board, name)?)),
        "protect" => Some(Source::Protect(target_named(board, name)?)),
        _ => None,
    }
}

fn source_of(board: &Board, words: &[&str]) -> Option<Source>
    ensures { result ≡ source_of board.now (map (λ w. w.now) words.now) }
{
    match words {
        [kind] if *kind == "none" => Some(Source::None),
        [kind, name] => named_source(board, kind, name),
        _ => None,
    }
}

fn sourced_span(board: &Board, words: &[&str]) -> Option<(Span, Source)>
    ensures { result ≡ sourced_span board.now (map (λ w. w.now) words.now) }
{
    match words {
        [lo, hi, from @ ..] => {
            let span = span_of(lo, hi)?;
            Some((span, source_of(board, from)?))
        }
        _ => None,
    }
}

fn only_span(words: &[&str]) -> Option<Span>
    ensures { result ≡ only_span (map (λ w. w.now) words.now) }
{
    match words {
        [lo, hi] => span_of(lo, hi),
        _ => None,
    }
}

/// The values of the register of an index, and what they equal.
#[tactic(auto, unfolding(crate::specs::text::Saying::register_said))]
pub(crate) fn register_said(board: &Board, index: usize, words: &[&str]) -> Option<(Span, Source)>
    ensures { result ≡ register_said board.now index (map (λ w. w.now) words.now) }
{
    sourced_span(board, after_name("reg", register_name(index)?, words)?)
}

/// The values of the counter of an index.
#[tactic(auto, unfolding(crate::specs::text::Saying::counter_said))]
pub(crate) fn counter_said(index: usize, words: &[&str]) -> Option<Span>
    ensures { result ≡ counter_said index (map (λ w. w.now) words.now) }
{
    only_span(after_name("counter", counter_name(index)?, words)?)
}

/// How many arbitrations may be lost.
pub(crate) fn lost_said(words: &[&str]) -> Option<Span>
    ensures { result ≡ lost_said (map (λ w. w.now) words.now) }
{
    only_span(after_key("lost", words)?)
}
