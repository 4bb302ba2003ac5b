//! How the targets of a run start, and what they answer.

ghost use Rattle.std.specs.Prelude.{◌≡◌, ◌≤◌, ◌<◌, ◌^◌, length, option_map, All, IfOk};
ghost use Rattle.texts.specs.Reading.{Gives};
ghost use Rattle.bundles.specs.Answers.{bytes_in, listed_bytes, start_of, answers_of, answers_in};
ghost use Rattle.bundles.specs.Texts.{texts_of};
ghost use Rattle.bundles.specs.Views.{section_view};
ghost use Rattle.bit_bus.specs.declared.plan.TheConstants.{LONGEST_HOLD};

use crate::answer_list::AnswerLines;
use crate::counted::first_counted;
use crate::fault::BundleFault;
use crate::field::parts_of;
use crate::flaw::Flaw;
use crate::section::Section;
use std::alloc::{AllocError, Global};
use std::marker::Model;
use texts::{ReadError, pair_of, words_of};

/// The page and the protection that each target starts with, and what all targets do step by step.
#[derive(Debug, Drop)]
pub struct Answers<'a> {
    pub pages: Vec<u8>,
    pub protects: Vec<u8>,
    pub(crate) answers: AnswerLines<'a>,
}

impl<'a> Model for Answers<'a> {
    ghost use Rattle.bundles.specs.Answers.{Answers};

    ghost Value = { Answers };

    ghost view = { λ a. record {
      pages = a.pages.items;
      protects = a.protects.items;
      answers = a.answers;
    } };
}

impl<'a> Answers<'a> {
    /// What all targets do, from the first step on.
    pub fn answers(&self) -> AnswerLines<'a>
        ensures all { result ≡ self.now.answers }
        ensures few { length result < 2 ^ 64 }
    {
        self.answers.copied()
    }
}

/// The bytes of some parts, if each of them is two digits.
#[tactic(auto, unfolding(crate::specs::Answers::bytes_in))]
fn bytes_in(alloc: Global, parts: &[&str]) -> Result<Option<Vec<u8>>, AllocError>
    ensures { IfOk result
        (λ bytes. option_map (λ b. b.items) bytes ≡ bytes_in (texts_of parts.now)) }
{
    let mut bytes = Vec::new(alloc);
    for part in parts {
        let Some(byte) = pair_of(part) else {
            return Ok(None);
        };
        bytes.push(byte)?;
    }
    Ok(Some(bytes))
}

/// The bytes between commas, one at least.
fn listed_bytes(alloc: Global, text: &str) -> Result<Option<Vec<u8>>, AllocError>
    ensures { IfOk result (λ bytes. option_map (λ b. b.items) bytes ≡ listed_bytes text.now) }
{
    let parts = parts_of(alloc, text)?;
    bytes_in(alloc, &parts)
}

/// The pages and the protections of the words `start PAGES PROTECTS`.
fn start_of(alloc: Global, words: &[&str]) -> Result<Option<(Vec<u8>, Vec<u8>)>, AllocError>
    ensures { IfOk result
        (λ start. option_map (λ s. (s.0.items, s.1.items)) start ≡ start_of (texts_of words.now)) }
{
    let [word, pages, protects] = words else {
        return Ok(None);
    };
    if *word != "start" {
        return Ok(None);
    }
    let Some(pages) = listed_bytes(alloc, pages)? else {
        return Ok(None);
    };
    let Some(protects) = listed_bytes(alloc, protects)? else {
        return Ok(None);
    };
    Ok(Some((pages, protects)))
}

/// How the targets of a section start, and what they answer, or BadAnswer with the first line that
/// says neither; where none counts, with the line below the section's last. Memory is answered
/// where a growth was refused.
#[tactic(auto, unfolding(crate::specs::Answers::answers_of))]
pub fn answers_in<'a>(
    alloc: Global,
    section: &Section<'a>,
) -> Result<Answers<'a>, ReadError<BundleFault>>
    ensures held { IfOk result
        (λ a. All (λ answer. All (λ hold. hold ≤ LONGEST_HOLD) answer.holds) a.answers) }
    ensures value { Gives (λ a. a) result (answers_in (section_view section.now)) }
{
    let Some(first) = first_counted(section) else {
        let below = section.first_line + section.count;
        return Err(BundleFault::BadAnswer(below, Flaw::NoLine).error());
    };
    let words = words_of(alloc, first.line)?;
    let Some((pages, protects)) = start_of(alloc, &words)? else {
        return Err(BundleFault::BadAnswer(first.number, Flaw::Whole).error());
    };
    let answers = AnswerLines::of_section(alloc, &first.below)?;
    Ok(Answers {
        pages,
        protects,
        answers,
    })
}
