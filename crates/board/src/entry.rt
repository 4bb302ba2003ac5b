ghost use Rattle.std.specs.Prelude.{◌≡◌, unwrap_or};
ghost use Rattle.board.specs.Boards.{command_of, code_in, IsCommandFor};
ghost use Rattle.board.specs.Valid.{full_values, full_length};

use pmbus_table::Command;
use smbus::Form;
use std::marker::Model;

/// The numbers from `low` to `high`, both included.
#[derive(Clone, Copy, Debug, PartialEq, Eq)]
pub struct Range {
    pub low: u16,
    pub high: u16,
}

/// All values of a form: of bytes, or of words.
pub fn full_values(form: Form) -> Range
    ensures { result ≡ full_values form }
{
    let high = match form {
        Form::WriteWord | Form::ReadWord | Form::ProcessCall => 65535,
        _ => 255,
    };
    Range { low: 0, high }
}

/// All lengths of a block.
pub fn full_length() -> Range
    ensures { result ≡ full_length }
{
    Range { low: 1, high: 255 }
}

/// An entry of an allow list: a form, its command and the ranges of its data.
#[derive(Drop)]
pub struct Allow {
    form: Form,
    command: Option<Command>,
    values: Range,
    length: Range,
}

impl Model for Allow {
    ghost use Rattle.board.specs.Boards.{Allow};

    ghost Value = { Allow };

    ghost use Rattle.board.specs.Views.{allow_view, IsAllowView};

    ghost view = { allow_view };

    ghost invariant = { IsAllowView };
}

impl Allow {
    pub(crate) fn new(form: Form, command: Option<Command>, values: Range, length: Range) -> Allow
        requires { IsCommandFor form command }
        ensures { result ≡ record {
          form = form;
          code = unwrap_or command 0;
          values = values;
          length = length;
        } }
    {
        Allow {
            form,
            command,
            values,
            length,
        }
    }

    /// The form of the messages that the entry permits.
    pub fn form(&self) -> Form
        ensures { result ≡ self.now.form }
    {
        self.form
    }

    /// The command that they carry; `None` for the forms that carry none.
    pub fn command(&self) -> Option<Command>
        ensures { result ≡ command_of self.now }
    {
        self.command
    }

    /// The values that they write, or read where they don't write; of a block each byte.
    pub fn values(&self) -> Range
        ensures { result ≡ self.now.values }
    {
        self.values
    }

    /// How many bytes a block has.
    pub fn length(&self) -> Range
        ensures { result ≡ self.now.length }
    {
        self.length
    }

    /// The command's code, 0 where there is none.
    pub(crate) fn code(&self) -> u8
        ensures code { result ≡ self.now.code }
        ensures bare { self.now.code ≡ code_in self.now.form self.now.code }
    {
        match self.command {
            Some(command) => command.code(),
            None => 0,
        }
    }
}
