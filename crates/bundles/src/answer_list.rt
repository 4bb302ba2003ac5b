//! The answers of a section, read one at a time.

ghost use Rattle.std.specs.Prelude.{◌≡◌, ◌≤◌, ◌<◌, ◌^◌, [], ◌∷◌, length, All, IfErr, IfOk};
ghost use Rattle.std.specs.Prelude.{IfSome, OnOk, MatchOption};
ghost use Rattle.texts.specs.Reading.{Fails, Gives};
ghost use Rattle.bundles.specs.AnswerLines.{answer_line_of};
ghost use Rattle.bundles.specs.Answers.{IsGoodAnswer, answer_said, answers_said, answer_lines_of};
ghost use Rattle.bundles.specs.CountedLines.{counted_lines};
ghost use Rattle.bundles.specs.Views.{section_view};
ghost use Rattle.bit_bus.specs.declared.plan.TheConstants.{LONGEST_HOLD};

use crate::answer_lines::answer_line_of;
use crate::counted::first_counted;
use crate::fault::BundleFault;
use crate::section::Section;
use smbus::Answer;
use std::alloc::{AllocError, Global};
use std::marker::Model;
use texts::ReadError;

/// The answers that lines say, each of which is read where it is asked for. Contracts see the list
/// of them.
#[derive(Debug, Drop)]
pub struct AnswerLines<'a> {
    section: Section<'a>,
}

impl<'a> Model for AnswerLines<'a> {
    ghost use Rattle.std.specs.Prelude.{List, All};
    ghost use Rattle.smbus.specs.Answered.{Answered};
    ghost use Rattle.bundles.specs.Answers.{IsGoodAnswer, answers_said};
    ghost use Rattle.bundles.specs.CountedLines.{counted_lines};
    ghost use Rattle.bundles.specs.Views.{section_view};

    ghost Value = { List Answered };

    ghost view = { λ a. answers_said (counted_lines (section_view a.section)) };

    ghost invariant = { λ a. All IsGoodAnswer (counted_lines (section_view a.section)) };
}

/// Looks at a line, which `-` alone needn't be read for.
fn check_line(alloc: Global, number: usize, line: &str) -> Result<(), ReadError<BundleFault>>
    ensures said { OnOk result (IsGoodAnswer (number, line.now)) }
    ensures held { OnOk result
        (All (λ hold. hold ≤ LONGEST_HOLD) (answer_said (number, line.now)).holds) }
    ensures fault { IfErr result (λ e. Fails e (answer_line_of number line.now)) }
{
    if line == "-" {
        return Ok(());
    }
    answer_line_of(alloc, number, line)?;
    Ok(())
}

/// Looks at each line that counts, up to the first that is no answer.
fn check_lines(alloc: Global, section: &Section<'_>) -> Result<(), ReadError<BundleFault>>
    ensures all { OnOk result (All IsGoodAnswer (counted_lines (section_view section.now))) }
    ensures held { OnOk result (All (λ answer. All (λ hold. hold ≤ LONGEST_HOLD) answer.holds)
        (answers_said (counted_lines (section_view section.now)))) }
    ensures value { Gives (λ _. answers_said (counted_lines (section_view section.now))) result
        (answer_lines_of (counted_lines (section_view section.now))) }
{
    let mut rest = *section;
    while let Some(first) = first_counted(&rest) {
        check_line(alloc, first.number, first.line)?;
        rest = first.below;
    }
    Ok(())
}

impl<'a> AnswerLines<'a> {
    /// The answers of a section, if each line that counts is one.
    pub(crate) fn of_section(
        alloc: Global,
        section: &Section<'a>,
    ) -> Result<AnswerLines<'a>, ReadError<BundleFault>>
        ensures held { IfOk result
            (λ answers. All (λ answer. All (λ hold. hold ≤ LONGEST_HOLD) answer.holds) answers) }
        ensures value { Gives (λ a. a) result
            (answer_lines_of (counted_lines (section_view section.now))) }
    {
        check_lines(alloc, section)?;
        Ok(AnswerLines { section: *section })
    }

    /// The same answers once more.
    pub(crate) fn copied(&self) -> AnswerLines<'a>
        ensures same { result ≡ self.now }
        ensures few { length result < 2 ^ 64 }
    {
        AnswerLines {
            section: self.section,
        }
    }

    /// Takes the first of the answers, if there is one. Where memory is refused, all are left.
    pub fn next(&mut self, alloc: Global) -> Result<Option<Answer>, AllocError>
        ensures taken { IfOk result (λ next. MatchOption next ((self.old ≡ []) × (self.new ≡ []))
            (λ answer. self.old ≡ answer ∷ self.new)) }
        ensures held { IfOk result
            (λ next. IfSome next (λ answer. All (λ hold. hold ≤ LONGEST_HOLD) answer.holds)) }
        ensures left { IfErr result (λ _. self.new ≡ self.old) }
    {
        let Some(first) = first_counted(&self.section) else {
            return Ok(None);
        };
        let answer = match answer_line_of(alloc, first.number, first.line) {
            Ok(answer) => answer,
            Err(ReadError::Memory) => return Err(AllocError),
            Err(ReadError::Fault(_)) => unreachable!(),
        };
        self.section = first.below;
        Ok(Some(answer))
    }
}
