//! What the frame of each form is made of (SMBus 3.2, 6.5.1 to 6.5.8 and appendix A).

ghost use Rattle.std.specs.Prelude.{◌≡◌};
ghost use Rattle.smbus.specs.Parts.{parts_of, has_repeat_of};

use crate::message::Form;

/// What the controller writes behind the first address.
#[derive(Clone, Copy)]
pub(crate) enum Written {
    /// Nothing: the direction bit of the address is this one, `true` to read.
    Nothing(bool),
    Code,
    /// The code and so many data bytes.
    Data(usize),
    /// The code, the count of a block and the block.
    Block,
}

/// What the target returns.
#[derive(Clone, Copy)]
pub(crate) enum Returned {
    Nothing,
    Byte,
    Word,
    /// The count of a block and the block.
    Block,
}

#[derive(Clone, Copy)]
pub(crate) struct Parts {
    pub(crate) written: Written,
    pub(crate) returned: Returned,
}

pub(crate) fn parts_of(form: Form) -> Parts
    ensures { result ≡ parts_of form }
{
    let (written, returned) = match form {
        Form::Quick(is_read) => (Written::Nothing(is_read), Returned::Nothing),
        Form::SendByte => (Written::Code, Returned::Nothing),
        Form::ReceiveByte => (Written::Nothing(true), Returned::Byte),
        Form::WriteByte => (Written::Data(1), Returned::Nothing),
        Form::WriteWord => (Written::Data(2), Returned::Nothing),
        Form::ReadByte => (Written::Code, Returned::Byte),
        Form::ReadWord => (Written::Code, Returned::Word),
        Form::ProcessCall => (Written::Data(2), Returned::Word),
        Form::BlockWrite => (Written::Block, Returned::Nothing),
        Form::BlockRead => (Written::Code, Returned::Block),
        Form::BlockProcessCall => (Written::Block, Returned::Block),
        Form::Alert => (Written::Nothing(true), Returned::Byte),
    };
    Parts { written, returned }
}

impl Parts {
    /// A repeated START stands between what is written and what is returned.
    pub(crate) fn has_repeat(self) -> bool
        ensures { result ≡ has_repeat_of self }
    {
        let is_written = !matches!(self.written, Written::Nothing(_));
        let is_returned = !matches!(self.returned, Returned::Nothing);
        is_written && is_returned
    }
}
