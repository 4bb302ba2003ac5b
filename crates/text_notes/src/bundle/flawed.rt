//! Lines of `%message`, of `%answers` and of `%seed` that can't be read.

use crate::Result;
use crate::bundle::field::{FieldLine, field_flaw, word_flaw};
use bundles::{Flaw, Header, Key};
use sentences::Word::{Name, Text};
use sentences::{Advice, Remark, Sentence, say};
use std::alloc::Global;
use texts::words_of;

/// What is said of a line, and the number of the word that is to blame.
#[derive(Drop)]
pub(crate) struct Flawed {
    pub remark: Remark,
    pub at: Option<usize>,
}

impl Flawed {
    /// A word is to blame.
    pub(crate) fn of_word(at: usize, remark: Remark) -> Flawed {
        Flawed {
            remark,
            at: Some(at),
        }
    }

    /// The whole line is.
    pub(crate) fn of_line(remark: Remark) -> Flawed {
        Flawed { remark, at: None }
    }
}

/// How the first line of answers looks.
const START: &str =
    "the first line says how the targets start, PAGE of each and then WRITE_PROTECT of each, as in \
     \"start 00,00 00,00\"";

/// How a seed looks.
const SEED: &str = "a seed is a decimal number up to 18446744073709551615, without leading zeros";

/// How the line of a section looks.
fn help_on(header: Header) -> Sentence<'static> {
    match header {
        Header::Message => say!["a message is a line of fields: form=F address=HH .."],
        Header::Seed => say![{ Text(SEED) }],
        _ => say![{ Text(START) }],
    }
}

/// What is said where no line of a section says anything.
fn no_line(header: Header) -> Sentence<'static> {
    match header {
        Header::Message => say!["there is no message"],
        Header::Seed => say!["there is no seed"],
        _ => say!["no line says how the targets start"],
    }
}

/// What is said of a second line.
fn second_line(header: Header) -> Advice<'static> {
    match header {
        Header::Seed => Advice {
            message: say!["a second seed, and a run has one"],
            help: Some(help_on(header)),
        },
        _ => say!["a second message, and a frame has one"].alone(),
    }
}

/// What is said of a line that is no seed.
fn bad_seed(alloc: Global, line: &str) -> Result<Flawed> {
    let message = say!["expected a seed, found " {Name(line)}];
    let remark = message.with_help(help_on(Header::Seed)).told(alloc)?;
    Ok(Flawed::of_line(remark))
}

/// What is wrong with a first line that doesn't say how the targets start, and with which word.
fn bad_start_line<'a>(words: &[&'a str]) -> (Sentence<'a>, Option<usize>) {
    let [word, ..] = words else {
        return (say!["expected \"start\""], None);
    };
    if *word != "start" {
        return (say!["expected \"start\", found " {Name(word)}], Some(0));
    }
    if words.len() != 3 {
        return (say!["\"start\" takes PAGES PROTECTS"], None);
    }
    (say!["expected two digits for each target"], None)
}

/// What is said of such a line.
fn bad_start(alloc: Global, words: &[&str]) -> Result<Flawed> {
    let (message, at) = bad_start_line(words);
    let remark = message.with_help(help_on(Header::Answers)).told(alloc)?;
    Ok(Flawed { remark, at })
}

/// What is said of a line that can't be read as a whole.
fn whole_line(alloc: Global, header: Header, line: &str, words: &[&str]) -> Result<Flawed> {
    match header {
        Header::Seed => bad_seed(alloc, line),
        _ => bad_start(alloc, words),
    }
}

/// The keys of a section's lines.
fn keys_of(header: Header) -> &'static [Key] {
    match header {
        Header::Message => Key::of_messages(),
        _ => Key::of_answers(),
    }
}

/// What is said of a line of a section for its flaw.
pub(crate) fn flawed_line(alloc: Global, header: Header, line: &str, flaw: Flaw) -> Result<Flawed> {
    let words = words_of(alloc, line)?;
    let fields = FieldLine {
        words: &words,
        keys: keys_of(header),
    };
    match flaw {
        Flaw::NoLine => {
            let help = Some(help_on(header));
            let remark = Advice {
                message: no_line(header),
                help,
            }
            .told(alloc)?;
            Ok(Flawed::of_line(remark))
        }
        Flaw::Second => Ok(Flawed::of_line(second_line(header).told(alloc)?)),
        Flaw::Whole => whole_line(alloc, header, line, &words),
        Flaw::Field(key, left) => field_flaw(alloc, fields, key, words.len().saturating_sub(left)),
        Flaw::Word(left) => word_flaw(alloc, fields, words.len().saturating_sub(left)),
    }
}
