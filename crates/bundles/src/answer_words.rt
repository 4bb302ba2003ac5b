ghost use Rattle.std.specs.Prelude.{◌≡◌, ◌≤◌, All, IfOk, OnOk};
ghost use Rattle.texts.specs.Reading.{Gives};
ghost use Rattle.bundles.specs.AnswerWords.{answer_of, past_bytes};
ghost use Rattle.bundles.specs.Texts.{texts_of};
ghost use Rattle.bit_bus.specs.declared.plan.TheConstants.{LONGEST_HOLD};

use crate::field::{Fields, bytes_of, holds_of, number_of, refuse_of};
use crate::flaw::{Flaw, Key};
use smbus::Answer;
use std::alloc::Global;
use texts::ReadError;

/// The answer of the words `holds= refuse= value= bytes=`, or the flaw of the first that says none.
#[tactic(auto, unfolding(crate::specs::AnswerWords::answer_of))]
pub fn answer_of(alloc: Global, words: &mut Fields<'_>) -> Result<Answer, ReadError<Flaw>>
    ensures held { IfOk result (λ answer. All (λ hold. hold ≤ LONGEST_HOLD) answer.holds) }
    ensures value { Gives (λ a. a) result
        (answer_of (texts_of words.old.words.now)) }
    ensures rest { OnOk result
        (texts_of words.new.words.now ≡ past_bytes (texts_of words.old.words.now)) }
{
    let bad = words.bad(Key::Holds);
    let Some(holds) = holds_of(alloc, words.take(Key::Holds))? else {
        return Err(bad.error());
    };
    let bad = words.bad(Key::Refuse);
    let Some(refuse) = refuse_of(words.take(Key::Refuse)) else {
        return Err(bad.error());
    };
    let bad = words.bad(Key::Value);
    let Some(value) = number_of(words.take(Key::Value)) else {
        return Err(bad.error());
    };
    let bad = words.bad(Key::Bytes);
    let Some(bytes) = bytes_of(alloc, words.take(Key::Bytes))? else {
        return Err(bad.error());
    };
    Ok(Answer {
        holds,
        refuse,
        value,
        bytes,
        took: false,
        alerts: 0,
        contender: None,
    })
}
