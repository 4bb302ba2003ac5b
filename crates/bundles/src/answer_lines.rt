ghost use Rattle.std.specs.Prelude.{◌≡◌, ◌≤◌, option_copied, All, IfOk};
ghost use Rattle.texts.specs.Reading.{Gives};
ghost use Rattle.bundles.specs.AnswerLines.{took_of, without_dash, answer_in};
ghost use Rattle.bundles.specs.AnswerLines.{answer_line_of};
ghost use Rattle.bundles.specs.AnswerWords.{answer_of};
ghost use Rattle.bundles.specs.Texts.{texts_of};
ghost use Rattle.bit_bus.specs.declared.plan.TheConstants.{LONGEST_HOLD};

use crate::answer_words::answer_of;
use crate::contender_words::contender_in;
use crate::fault::{BundleFault, bad_answer};
use crate::field::{Fields, number_of};
use crate::flaw::{Flaw, Key};
use smbus::Answer;
use std::alloc::Global;
use texts::{ReadError, words_of};

/// Whether a write takes effect, where the target may leave that out.
fn took_of(text: Option<&str>) -> Option<bool>
    ensures { result ≡ took_of (option_copied text.entry) }
{
    match text {
        None => Some(false),
        Some("1") => Some(true),
        Some(_) => None,
    }
}

/// The words that count: none where `-` stands alone.
fn without_dash<'a>(words: &'a [&'a str]) -> &'a [&'a str]
    ensures { texts_of result.now ≡ without_dash (texts_of words.now) }
{
    match words {
        [word] if *word == "-" => &[],
        _ => words,
    }
}

/// The answer of all words of a line.
#[tactic(auto, unfolding(crate::specs::AnswerLines::answer_in))]
fn answer_in(alloc: Global, words: &mut Fields<'_>) -> Result<Answer, ReadError<Flaw>>
    ensures held { IfOk result (λ answer. All (λ hold. hold ≤ LONGEST_HOLD) answer.holds) }
    ensures value { Gives (λ a. a) result (answer_in (texts_of words.old.words.now)) }
{
    let answer = answer_of(alloc, words)?;
    let bad = words.bad(Key::Took);
    let Some(took) = took_of(words.take(Key::Took)) else {
        return Err(bad.error());
    };
    let bad = words.bad(Key::Alerts);
    let Some(alerts) = number_of(words.take(Key::Alerts)) else {
        return Err(bad.error());
    };
    let contender = contender_in(alloc, words)?;
    if !words.words.is_empty() {
        return Err(words.unread().error());
    }
    Ok(Answer {
        took,
        alerts,
        contender,
        ..answer
    })
}

/// The answer that a line says: BadAnswer with this number and the line's flaw where it says none.
/// Memory is answered where a growth was refused.
pub fn answer_line_of(
    alloc: Global,
    number: usize,
    line: &str,
) -> Result<Answer, ReadError<BundleFault>>
    ensures held { IfOk result (λ answer. All (λ hold. hold ≤ LONGEST_HOLD) answer.holds) }
    ensures value { Gives (λ a. a) result (answer_line_of number line.now) }
{
    // Most steps are answered so; the words needn't be looked at.
    if line == "-" {
        return Ok(Answer::silent(alloc));
    }
    let list = words_of(alloc, line)?;
    let mut words = Fields {
        words: without_dash(&list),
    };
    match answer_in(alloc, &mut words) {
        Ok(answer) => Ok(answer),
        Err(error) => Err(bad_answer(number, error)),
    }
}
