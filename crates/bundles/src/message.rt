ghost use Rattle.std.specs.Prelude.{◌≡◌, option_copied, option_and_then, codes, IfOk};
ghost use Rattle.std.specs.Prelude.{IfSome, OnOk, ◌≤◌, All, Some, None, if◌then◌else◌};
ghost use Rattle.smbus.specs.Asked.{IsAddressed};
ghost use Rattle.texts.specs.Reading.{Gives};
ghost use Rattle.bundles.specs.Messages.{code_of, form_of, address_for, address_of, asked_of};
ghost use Rattle.bundles.specs.Messages.{exchange_of, exchange_said, past_asked, only_exchange};
ghost use Rattle.bundles.specs.Messages.{exchange_in};
ghost use Rattle.bundles.specs.AnswerWords.{answer_of};
ghost use Rattle.bundles.specs.Texts.{texts_of};
ghost use Rattle.bundles.specs.Views.{section_view};
ghost use Rattle.bundles.specs.Fields.{value_of, rest_of, bytes_of};
ghost use Rattle.bit_bus.specs.declared.plan.TheConstants.{LONGEST_HOLD};

use crate::answer_words::answer_of;
use crate::counted::first_counted;
use crate::fault::{BundleFault, bad_message};
use crate::field::{Fields, bytes_of};
use crate::flaw::{Flaw, Key};
use crate::section::Section;
use smbus::{Answer, Form, Message, carries_code, form_named};
use std::alloc::Global;
use texts::{ReadError, pair_of, words_of};

/// A message, and the answer that it gets.
#[derive(Debug, Drop)]
pub struct Exchange {
    pub message: Message,
    pub answer: Answer,
}

/// The code, which stands exactly where the form takes one.
fn code_of(form: Form, text: Option<&str>) -> Option<u8>
    ensures { result ≡ code_of form (option_copied text.entry) }
{
    match (carries_code(form), text) {
        (true, Some(text)) => pair_of(text),
        (false, None) => Some(0),
        _ => None,
    }
}

/// The form of a word.
fn form_of(text: &str) -> Option<Form>
    ensures { result ≡ form_of text.now }
{
    if text == "alert" {
        return Some(Form::Alert);
    }
    form_named(text)
}

/// Whether a message of a form may go to an address.
fn may_go_to(form: Form, address: u8) -> bool
    ensures { (if result then Some address else None) ≡ address_for form address }
{
    match form {
        Form::Alert => address == 0x0C,
        _ => address <= 127 && address != 0x0C,
    }
}

/// The address of a message.
fn address_of(form: Form, text: &str) -> Option<u8>
    ensures value { result ≡ address_of form text.now }
    ensures addressed { IfSome result (λ address. IsAddressed address form) }
{
    let address = pair_of(text)?;
    if may_go_to(form, address) {
        Some(address)
    } else {
        None
    }
}

/// Takes the form word.
fn take_form(words: &mut Fields<'_>) -> Option<Form>
    ensures value { result
        ≡ option_and_then form_of (value_of (codes "form=") (texts_of words.old.words.now)) }
    ensures rest { texts_of words.new.words.now
        ≡ rest_of (codes "form=") (texts_of words.old.words.now) }
{
    form_of(words.take(Key::Form)?)
}

/// Takes the address.
fn take_address(form: Form, words: &mut Fields<'_>) -> Option<u8>
    ensures addressed { IfSome result (λ address. IsAddressed address form) }
    ensures value { result ≡ option_and_then (address_of form)
        (value_of (codes "address=") (texts_of words.old.words.now)) }
    ensures rest { texts_of words.new.words.now
        ≡ rest_of (codes "address=") (texts_of words.old.words.now) }
{
    address_of(form, words.take(Key::Address)?)
}

/// What the controller asks, by the first words of a line.
#[tactic(auto, unfolding(crate::specs::Messages::asked_of))]
fn asked_of(alloc: Global, words: &mut Fields<'_>) -> Result<Message, ReadError<Flaw>>
    ensures value { Gives (λ m. m) result (asked_of (texts_of words.old.words.now)) }
    ensures rest { OnOk result
        (texts_of words.new.words.now ≡ past_asked (texts_of words.old.words.now)) }
{
    let bad = words.bad(Key::Form);
    let Some(form) = take_form(words) else {
        return Err(bad.error());
    };
    let bad = words.bad(Key::Address);
    let Some(address) = take_address(form, words) else {
        return Err(bad.error());
    };
    let bad = words.bad(Key::Code);
    let Some(code) = code_of(form, words.take(Key::Code)) else {
        return Err(bad.error());
    };
    let bad = words.bad(Key::Out);
    let Some(out) = bytes_of(alloc, words.take(Key::Out))? else {
        return Err(bad.error());
    };
    Ok(Message {
        address,
        form,
        code,
        out,
    })
}

/// The message and the answer of all words of a line.
#[tactic(auto, unfolding(crate::specs::Messages::exchange_said))]
fn exchange_said(alloc: Global, words: &mut Fields<'_>) -> Result<Exchange, ReadError<Flaw>>
    ensures held { IfOk result
        (λ exchange. All (λ hold. hold ≤ LONGEST_HOLD) exchange.answer.holds) }
    ensures value { Gives (λ e. e) result (exchange_said (texts_of words.old.words.now)) }
{
    let message = asked_of(alloc, words)?;
    let answer = answer_of(alloc, words)?;
    if !words.words.is_empty() {
        return Err(words.unread().error());
    }
    Ok(Exchange { message, answer })
}

/// The message and the answer of a line.
fn exchange_of(alloc: Global, number: usize, line: &str) -> Result<Exchange, ReadError<BundleFault>>
    ensures held { IfOk result
        (λ exchange. All (λ hold. hold ≤ LONGEST_HOLD) exchange.answer.holds) }
    ensures value { Gives (λ e. e) result (exchange_of number line.now) }
{
    let list = words_of(alloc, line)?;
    let mut words = Fields { words: &list };
    match exchange_said(alloc, &mut words) {
        Ok(exchange) => Ok(exchange),
        Err(error) => Err(bad_message(number, error)),
    }
}

/// The message of a section and the answer to it, which its one line that counts says. BadMessage
/// is answered with that line and its flaw where it says none, with the second where there are two,
/// and with the line below the section's last where there is none. Memory is answered where a
/// growth was refused.
#[tactic(auto, unfolding(crate::specs::Messages::only_exchange))]
pub fn exchange_in(alloc: Global, section: &Section<'_>) -> Result<Exchange, ReadError<BundleFault>>
    ensures held { IfOk result
        (λ exchange. All (λ hold. hold ≤ LONGEST_HOLD) exchange.answer.holds) }
    ensures value { Gives (λ e. e) result (exchange_in (section_view section.now)) }
{
    let Some(first) = first_counted(section) else {
        let below = section.first_line + section.count;
        return Err(BundleFault::BadMessage(below, Flaw::NoLine).error());
    };
    let exchange = exchange_of(alloc, first.number, first.line)?;
    match first_counted(&first.below) {
        Some(second) => Err(BundleFault::BadMessage(second.number, Flaw::Second).error()),
        None => Ok(exchange),
    }
}
