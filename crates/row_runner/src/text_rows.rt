//! Rows of texts: lines, words, numbers and names.

use crate::cells::{byte, or_dash, shown, word};
use crate::row::{Flaw, Outcome, Row};
use std::alloc::Global;
use texts::{
    comment_in, cut_at_space, decimal_within, first_by_feed, first_line, hex_number, is_name,
    line_count, pair_of, pairs_of, push_pair, push_word, without_comment, words_of,
};

/// The two parts of a text that is cut, each in brackets.
fn parts(alloc: Global, cut: Option<(&str, &str)>) -> Outcome {
    match cut {
        Some((first, rest)) => Ok(format!(in alloc; "[{first}][{rest}]")?),
        None => Ok("-".to_string(alloc)?),
    }
}

/// `TEXT | MOST | NUMBER`: the number, at most so great, that a text spells.
fn decimal_row(alloc: Global, (text, most): (&str, &str)) -> Outcome {
    match most.parse::<u64>() {
        Ok(most) => or_dash(alloc, decimal_within(text, most)),
        Err(_) => Err(Flaw::Cell("number").error()),
    }
}

/// `TEXT | BYTE | WORD | TEXT`: a text with two numbers printed after it.
fn printed_row(alloc: Global, (text, pair, number): (&str, &str, &str)) -> Outcome {
    let mut text = text.to_string(alloc)?;
    push_pair(&mut text, byte(pair)?)?;
    push_word(&mut text, word(number)?)?;
    Ok(text)
}

/// What a row of one cell comes out as.
fn of_one(alloc: Global, kind: &str, text: &str) -> Outcome {
    match kind {
        "first_line" => parts(alloc, first_line(text)),
        "first_by_feed" => parts(alloc, first_by_feed(text)),
        "at_space" => parts(alloc, cut_at_space(text)),
        "before_comment" => Ok(without_comment(text).to_string(alloc)?),
        "comment" => Ok(comment_in(text).to_string(alloc)?),
        "lines" => shown(alloc, line_count(text)),
        "words" => shown(alloc, words_of(alloc, text)?),
        "digits" => shown(alloc, (pair_of(text), hex_number(text))),
        "bytes" => or_dash(alloc, pairs_of(alloc, text)?),
        "name" => shown(alloc, is_name(text)),
        _ => Err(Flaw::Kind.error()),
    }
}

/// What a row of some kind comes out as.
pub(crate) fn outcome(alloc: Global, kind: &str, given: &Row) -> Outcome {
    match kind {
        "decimal" => decimal_row(alloc, given.two()?),
        "printed" => printed_row(alloc, given.three()?),
        _ => of_one(alloc, kind, given.one()?),
    }
}
