ghost use Rattle.std.specs.Prelude.{◌≡◌, option_copied, IfOk, OnOk};
ghost use Rattle.texts.specs.Reading.{Gives, some_or};
ghost use Rattle.bundles.specs.ContenderWords.{contender_said, contender_of, with_holds};
ghost use Rattle.bundles.specs.ContenderWords.{contender_in, past_cholds};
ghost use Rattle.bundles.specs.Texts.{texts_of};

use crate::field::{Fields, cut_at_colon, holds_of};
use crate::flaw::{Flaw, Key};
use smbus::Contender;
use std::alloc::{AllocError, Global};
use texts::{ReadError, pair_of, pairs_of};

/// Another controller, with no holds: its address byte, and its data bytes behind a colon.
#[tactic(auto, unfolding(crate::specs::ContenderWords::contender_said))]
fn contender_said(alloc: Global, text: &str) -> Result<Option<Contender>, AllocError>
    ensures { IfOk result (λ contender. contender ≡ contender_said text.now) }
{
    let Some((address, data)) = cut_at_colon(text) else {
        return Ok(None);
    };
    let Some(byte) = pair_of(address) else {
        return Ok(None);
    };
    let Some(bytes) = pairs_of(alloc, data)? else {
        return Ok(None);
    };
    Ok(Some(Contender {
        address: byte / 2,
        read: byte % 2 == 1,
        bytes,
        holds: Vec::new(alloc),
    }))
}

/// Another controller, if a word says one.
fn contender_of(
    alloc: Global,
    bad: Flaw,
    text: Option<&str>,
) -> Result<Option<Contender>, ReadError<Flaw>>
    ensures { Gives (λ c. c) result
        (some_or bad (contender_of (option_copied text.entry))) }
{
    let Some(text) = text else {
        return Ok(None);
    };
    match contender_said(alloc, text)? {
        Some(contender) => Ok(Some(contender)),
        None => Err(bad.error()),
    }
}

/// Another controller with its holds; no word of holds may stand where there is none.
fn with_holds(
    alloc: Global,
    bad: Flaw,
    contender: Option<Contender>,
    text: Option<&str>,
) -> Result<Option<Contender>, ReadError<Flaw>>
    ensures { Gives (λ c. c) result
        (some_or bad (with_holds contender (option_copied text.entry))) }
{
    let Some(contender) = contender else {
        return match text {
            None => Ok(None),
            Some(_) => Err(bad.error()),
        };
    };
    match holds_of(alloc, text)? {
        Some(holds) => Ok(Some(Contender { holds, ..contender })),
        None => Err(bad.error()),
    }
}

/// The other controller of the words `contender= cholds=`, if they say one, or the flaw of the
/// first that can't.
#[tactic(auto, unfolding(crate::specs::ContenderWords::contender_in))]
pub(crate) fn contender_in(
    alloc: Global,
    words: &mut Fields<'_>,
) -> Result<Option<Contender>, ReadError<Flaw>>
    ensures value { Gives (λ c. c) result (contender_in (texts_of words.old.words.now)) }
    ensures rest { OnOk result
        (texts_of words.new.words.now ≡ past_cholds (texts_of words.old.words.now)) }
{
    let bad = words.bad(Key::Contender);
    let said = contender_of(alloc, bad, words.take(Key::Contender))?;
    let bad = words.bad(Key::ContenderHolds);
    with_holds(alloc, bad, said, words.take(Key::ContenderHolds))
}
