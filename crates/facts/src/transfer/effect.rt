//! What a message does to what is known.

ghost use Rattle.std.specs.Prelude.{◌≡◌};
ghost use Rattle.seq_program.specs.RequestViews.{transaction_view};
ghost use Rattle.facts.specs.transfer.Edges.{written_effect, byte_effect, word_effect, read_effect};
ghost use Rattle.facts.specs.transfer.Edges.{effect_of};
ghost use Rattle.facts.specs.transfer.Effects.{effect_view, IsKindOf, IsOfKind};
ghost use Rattle.facts.specs.transfer.Effects.{IsOfKinds};

use pmbus_table::code::{OPERATION, PAGE, STATUS_WORD, WRITE_PROTECT};
use pmbus_table::enables;
use seq_program::{Content, Register, Transaction, Written};
use smbus::Form;

/// What a message does to what is known.
#[derive(Clone, Copy)]
pub(crate) enum Effect {
    SetsPage(u8),
    SetsProtect(u8),
    TurnsOff,
    ReadsStatus(Register),
    ReadsPage(Register),
    ReadsProtect(Register),
    Loads(Register),
    Nothing,
}

/// Of a byte that is written.
fn written_effect(code: u8, value: u8) -> Effect
    ensures effect { effect_view result ≡ written_effect code value }
    ensures kind { IsKindOf code value → IsOfKind result }
{
    if code == PAGE {
        Effect::SetsPage(value)
    } else if code == WRITE_PROTECT {
        Effect::SetsProtect(value)
    } else if code == OPERATION && !enables(value) {
        Effect::TurnsOff
    } else {
        Effect::Nothing
    }
}

/// Of a byte that is read.
fn byte_effect(code: u8, register: Register) -> Effect
    ensures effect { effect_view result ≡ byte_effect code register }
    ensures kind { IsOfKind result }
{
    if code == PAGE {
        Effect::ReadsPage(register)
    } else if code == WRITE_PROTECT {
        Effect::ReadsProtect(register)
    } else {
        Effect::Loads(register)
    }
}

/// Of a word that is read.
fn word_effect(code: u8, register: Register) -> Effect
    ensures effect { effect_view result ≡ word_effect code register }
    ensures kind { IsOfKind result }
{
    if code == STATUS_WORD {
        Effect::ReadsStatus(register)
    } else {
        Effect::Loads(register)
    }
}

/// Of what is read in a form.
fn read_effect(form: Form, code: u8, register: Register) -> Effect
    ensures effect { effect_view result ≡ read_effect form code register }
    ensures kind { IsOfKind result }
{
    match form {
        Form::ReadByte => byte_effect(code, register),
        Form::ReadWord => word_effect(code, register),
        _ => Effect::Loads(register),
    }
}

/// Of a message.
pub(crate) fn effect_of(transaction: &Transaction<'_>) -> Effect
    ensures effect { effect_view result ≡ effect_of (transaction_view transaction.now) }
    ensures kind { IsOfKinds (transaction_view transaction.now) → IsOfKind result }
{
    let code = transaction.code();
    if let Some(register) = transaction.register {
        return read_effect(transaction.form, code, register);
    }
    match &transaction.content {
        Content::Value(Written::Byte(value)) => written_effect(code, *value),
        _ => Effect::Nothing,
    }
}
