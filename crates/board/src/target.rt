ghost use Rattle.std.specs.Prelude.{◌≡◌, option_map};
ghost use Rattle.board.specs.Boards.{entry_of};
ghost use Rattle.board.specs.Valid.{is_page_value};

use crate::allow_list::AllowList;
use crate::entry::Allow;
use smbus::Form;
use std::marker::Model;

/// A device of the bus: its address, its outputs, how it starts and what it may be sent.
#[derive(Drop)]
pub struct Target {
    pub(crate) address: u8,
    pub(crate) pages: u8,
    pub(crate) exponent: i8,
    pub(crate) stretch: u16,
    pub(crate) alerts: bool,
    pub(crate) start_pages: Vec<u8>,
    pub(crate) start_protects: Vec<u8>,
    pub(crate) allow: AllowList,
}

impl Model for Target {
    ghost use Rattle.board.specs.Boards.{Target};

    ghost Value = { Target };

    ghost use Rattle.board.specs.Views.{target_view};

    ghost view = { target_view };
}

impl Target {
    /// The seven bits of the address.
    pub fn address(&self) -> u8
        ensures { result ≡ self.now.address }
    {
        self.address
    }

    /// How many pages there are, 1 to 32; they are numbered from 0.
    pub fn pages(&self) -> u8
        ensures { result ≡ self.now.pages }
    {
        self.pages
    }

    /// The exponent of its voltages, -16 to 0.
    pub fn exponent(&self) -> i8
        ensures { result ≡ self.now.exponent }
    {
        self.exponent
    }

    /// For how many ticks of 5 µs it may stretch a clock, at most.
    pub fn stretch(&self) -> u16
        ensures { result ≡ self.now.stretch }
    {
        self.stretch
    }

    /// Whether it may pull SMBALERT# low.
    pub fn alerts(&self) -> bool
        ensures { result ≡ self.now.alerts }
    {
        self.alerts
    }

    /// The values that PAGE may have at the start.
    pub fn start_pages(&self) -> &[u8]
        ensures { result.now ≡ self.now.start_pages }
    {
        self.start_pages.as_slice()
    }

    /// The values that WRITE_PROTECT may have at the start.
    pub fn start_protects(&self) -> &[u8]
        ensures { result.now ≡ self.now.start_protects }
    {
        self.start_protects.as_slice()
    }

    /// What it may be sent, in the order of the file.
    pub fn allow(&self) -> &[Allow]
        ensures { result.now ≡ self.now.allow }
    {
        self.allow.entries()
    }

    /// The entry of a form and a command code. The code isn't looked at for a form that carries
    /// none.
    pub fn entry(&self, form: Form, code: u8) -> Option<&Allow>
        ensures { option_map (λ a. a.now) result ≡ entry_of form code self.now.allow }
    {
        self.allow.get(form, code)
    }
}

/// Whether PAGE of a target with so many pages takes a value: one of them, or FFh for all
/// (PMBus 1.3 Part II, 11.10).
pub fn is_page_value(pages: u8, value: u8) -> bool
    ensures { result ≡ is_page_value pages value }
{
    value < pages || value == 0xFF
}
