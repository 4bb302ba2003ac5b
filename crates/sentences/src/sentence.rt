//! A sentence, before it is written.

ghost use Rattle.std.specs.Prelude.{◌≡◌, None, Some, IfOk, option_map, string_bytes};
ghost use Rattle.sentences.specs.Sentences.{IsHelpedBy, IsLedBy, IsPlain, IsWithText, Tells};
ghost use Rattle.sentences.specs.Sentences.{TellsIfSome};

use crate::Result;
use crate::advice::{Advice, Remark};
use crate::word::{Word, push_word};
use std::alloc::Global;

/// What stands in a template for a word.
const GAP: char = '\0';

/// A template, with a gap for each of at most four words.
#[derive(Clone, Copy)]
pub struct Sentence<'a> {
    template: &'static str,
    first: Word<'a>,
    second: Word<'a>,
    third: Word<'a>,
    fourth: Word<'a>,
}

/// A sentence: its texts as literals, and between them its words in braces and its figures in
/// parentheses, at most four. The gaps of its template are made from them, so none can lack its
/// word.
#[macro_export]
macro_rules! say {
    (@ [$($text:literal)*] [$($word:expr,)*] [_ $($left:tt)*] {$said:expr} $($rest:tt)*) => {
        $crate::say!(@ [$($text)* "\0"] [$said, $($word,)*] [$($left)*] $($rest)*)
    };
    (@ [$($text:literal)*] [$($word:expr,)*] [$($left:tt)*] ($figure:expr) $($rest:tt)*) => {
        $crate::say!(@ [$($text)*] [$($word,)*] [$($left)*]
            {$crate::Word::Figure($figure)} $($rest)*)
    };
    (@ [$($text:literal)*] [$($word:expr,)*] [$($left:tt)*] $next:literal $($rest:tt)*) => {
        $crate::say!(@ [$($text)* $next] [$($word,)*] [$($left)*] $($rest)*)
    };
    (@ [$($text:literal)*] [$($word:expr,)*] [$($left:tt)*]) => {
        $crate::Sentence::plain(concat!($($text),*))$(.led_by($word))*
    };
    ($($said:tt)+) => { $crate::say!(@ [] [] [_ _ _ _] $($said)+) };
}

impl<'a> Sentence<'a> {
    /// A template without words; `say!` makes sentences.
    pub fn plain(template: &'static str) -> Sentence<'a>
        ensures { IsPlain template.now result }
    {
        Sentence {
            template,
            first: Word::Nothing,
            second: Word::Nothing,
            third: Word::Nothing,
            fourth: Word::Nothing,
        }
    }

    /// The same with a word before its first three.
    pub fn led_by<'b>(self, word: Word<'b>) -> Sentence<'b>
    where
        'a: 'b,
        ensures { IsLedBy word.entry self.entry result }
    {
        Sentence {
            template: self.template,
            first: word,
            second: self.first,
            third: self.second,
            fourth: self.third,
        }
    }

    /// What is said, where no more may be said to mend it.
    pub fn alone(self) -> Advice<'a>
        ensures { result ≡ record { message = self.entry; help = None } }
    {
        Advice {
            message: self,
            help: None,
        }
    }

    /// What is said, with what may help.
    pub fn with_help<'b>(self, help: Sentence<'b>) -> Advice<'b>
    where
        'a: 'b,
        ensures { result ≡ record { message = self.entry; help = Some help.entry } }
    {
        Advice {
            message: self,
            help: Some(help),
        }
    }

    /// The same with a text.
    pub fn with_text(self, help: &'static str) -> Advice<'a>
        ensures { IsWithText help.now self.entry result }
    {
        self.with_help(say![{ Word::Text(help) }])
    }

    /// What is said, with what may help as a text. Fails only for want of memory.
    pub fn helped_by(&self, alloc: Global, help: Option<String>) -> Result<Remark>
        ensures { IfOk result (IsHelpedBy self.now (option_map string_bytes help)) }
    {
        let message = self.told(alloc)?;
        Ok(Remark { message, help })
    }

    /// The sentence as a text. Fails only for want of memory.
    pub fn told(&self, alloc: Global) -> Result<String>
        ensures { IfOk result (λ text. Tells self.now (string_bytes text)) }
    {
        let words = [
            self.first,
            self.second,
            self.third,
            self.fourth,
            Word::Nothing,
        ];
        let mut text = String::new(alloc);
        for (piece, word) in self.template.split(GAP).zip(&words) {
            text.push_str(piece)?;
            push_word(alloc, &mut text, *word)?;
        }
        Ok(text)
    }
}

/// The text of a sentence, if there is one. Fails only for want of memory.
pub fn told(alloc: Global, sentence: Option<Sentence>) -> Result<Option<String>>
    ensures { IfOk result (λ text. TellsIfSome sentence.entry (option_map string_bytes text)) }
{
    match sentence {
        Some(sentence) => Ok(Some(sentence.told(alloc)?)),
        None => Ok(None),
    }
}
