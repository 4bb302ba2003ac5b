ghost use Rattle.std.specs.Prelude.{◌≡◌, ◌≢◌, IfSome};
ghost use Rattle.smbus.specs.FormWords.{form_named, carries_code};

use crate::message::Form;

/// The form of a word such as `writebyte`, as messages and board files have it: of each protocol to
/// a target, and so not of the alert response.
#[tactic(auto, unfolding(crate::specs::FormWords::form_named))]
pub fn form_named(word: &str) -> Option<Form>
    ensures value { result ≡ form_named word.now }
    ensures target { IfSome result (λ form. form ≢ Form.Alert) }
{
    match word {
        "quickwrite" => Some(Form::Quick(false)),
        "quickread" => Some(Form::Quick(true)),
        "send" => Some(Form::SendByte),
        "receive" => Some(Form::ReceiveByte),
        "writebyte" => Some(Form::WriteByte),
        "writeword" => Some(Form::WriteWord),
        "readbyte" => Some(Form::ReadByte),
        "readword" => Some(Form::ReadWord),
        "call" => Some(Form::ProcessCall),
        "blockwrite" => Some(Form::BlockWrite),
        "blockread" => Some(Form::BlockRead),
        "blockcall" => Some(Form::BlockProcessCall),
        _ => None,
    }
}

/// Whether messages of this form carry a command code; of a Send Byte it is the data byte.
pub fn carries_code(form: Form) -> bool
    ensures { result ≡ carries_code form }
{
    !matches!(form, Form::Quick(_) | Form::ReceiveByte | Form::Alert)
}
