ghost use Rattle.std.specs.Prelude.{◌≡◌, ◌↔◌, IsTrue, IsSome, IfSome};
ghost use Rattle.pmbus_table.specs.Forms.{is_form};
ghost use Rattle.pmbus_table.specs.Commands.{is_manufacturer, is_manufacturer_form, is_plain_read};
ghost use Rattle.pmbus_table.specs.Commands.{is_command, command_at};

use crate::code::CLEAR_FAULTS;
use crate::table::row_of;
use smbus::Form;
use std::marker::Model;

/// A command of the table, or a manufacturer command (D0h to FDh). Contracts see its code.
#[derive(Clone, Copy, Debug, PartialEq, Eq)]
pub struct Command {
    code: u8,
}

impl Model for Command {
    ghost use Rattle.std.specs.Prelude.{ℕ, IsTrue};
    ghost use Rattle.pmbus_table.specs.Commands.{is_command};

    ghost Value = { ℕ };

    ghost view = { λ c. c.code };

    ghost invariant = { λ c. IsTrue (is_command c.code) };

    ghost inverse = { λ n. record { code = n } };
}

pub(crate) fn is_manufacturer(code: u8) -> bool
    ensures { result ≡ is_manufacturer code }
{
    (0xD0..=0xFD).contains(&code)
}

/// The command of a code, if it is one of the table's or a manufacturer's.
pub fn by_code(code: u8) -> Option<Command>
    ensures value { result ≡ command_at code }
    ensures known { IsSome result ↔ IsTrue (is_command code) }
    ensures same { IfSome result (λ c. c ≡ code) }
{
    if is_manufacturer(code) || row_of(code).is_some() {
        Some(Command { code })
    } else {
        None
    }
}

fn is_form(form: Form, known: Option<Form>) -> bool
    ensures { result ≡ is_form form known }
{
    known == Some(form)
}

fn is_manufacturer_form(form: Form) -> bool
    ensures { result ≡ is_manufacturer_form form }
{
    !matches!(form, Form::Quick(_) | Form::ReceiveByte | Form::Alert)
}

fn is_plain_read(form: Form) -> bool
    ensures { result ≡ is_plain_read form }
{
    matches!(form, Form::ReadByte | Form::ReadWord | Form::BlockRead)
}

impl Command {
    ghost use Rattle.std.specs.Prelude.{◌≡◌, ℕ, IsTrue, true};
    ghost use Rattle.pmbus_table.specs.Commands.{is_command, form_written, form_read, is_paged};
    ghost use Rattle.pmbus_table.specs.Commands.{is_manufacturer, takes_form, counts_as_write};

    /// The command's code.
    pub fn code(self) -> u8
        ensures code { result ≡ self }
        ensures known { IsTrue (is_command self) }
    {
        self.code
    }

    /// Whether it is a manufacturer command, D0h to FDh (PMBus 1.3 Part II, appendix I).
    pub fn is_manufacturer(self) -> bool
        ensures { result ≡ is_manufacturer self }
    {
        is_manufacturer(self.code)
    }

    /// The form that writes a named command, if this profile has one; `None` for a manufacturer's.
    pub fn form_written(self) -> Option<Form>
        ensures { result ≡ form_written self }
    {
        match row_of(self.code) {
            Some((_, row)) => row.written,
            None => None,
        }
    }

    /// The form that reads a named command, if it has one; `None` for a manufacturer's.
    pub fn form_read(self) -> Option<Form>
        ensures { result ≡ form_read self }
    {
        match row_of(self.code) {
            Some((_, row)) => row.read,
            None => None,
        }
    }

    /// Whether the command may be sent in a form.
    pub fn takes(self, form: Form) -> bool
        ensures { result ≡ takes_form self form }
    {
        if is_manufacturer(self.code) {
            return is_manufacturer_form(form);
        }
        is_form(form, self.form_written()) || is_form(form, self.form_read())
    }

    /// Whether PAGE selects the output that the command is about.
    pub fn paged(self) -> bool
        ensures { result ≡ is_paged self }
    {
        match row_of(self.code) {
            Some((_, row)) => row.is_paged,
            None => false,
        }
    }

    /// Whether the command in a form is a write that WRITE_PROTECT may forbid.
    pub fn counts_as_write(self, form: Form) -> bool
        ensures value { result ≡ counts_as_write self form }
        ensures taken { IsTrue result → IsTrue (takes_form self form) }
    {
        if is_manufacturer(self.code) {
            return is_manufacturer_form(form) && !is_plain_read(form);
        }
        is_form(form, self.form_written()) && self.code != CLEAR_FAULTS
    }
}
