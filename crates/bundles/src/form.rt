//! The words of forms.

ghost use Rattle.std.specs.Prelude.{◌≡◌};
ghost use Rattle.bundles.specs.FormTexts.{form_word};

use smbus::Form;

/// The word of a form in messages, boards and programs, `alert` for an alert response.
pub fn form_word(form: Form) -> &'static str
    ensures { result.now ≡ form_word form }
{
    match form {
        Form::Quick(false) => "quickwrite",
        Form::Quick(true) => "quickread",
        Form::SendByte => "send",
        Form::ReceiveByte => "receive",
        Form::WriteByte => "writebyte",
        Form::WriteWord => "writeword",
        Form::ReadByte => "readbyte",
        Form::ReadWord => "readword",
        Form::ProcessCall => "call",
        Form::BlockWrite => "blockwrite",
        Form::BlockRead => "blockread",
        Form::BlockProcessCall => "blockcall",
        Form::Alert => "alert",
    }
}
