//! A plan: its wishes, in the order of its lines.

ghost use Rattle.std.specs.Prelude.{◌≡◌, option_copied};
ghost use Rattle.plans.specs.Wishes.{wish_about, voltage_of, general_retries, retries_of};
ghost use Rattle.plans.specs.Wishes.{general_polling, polling_of, protect_of, clears, puts_before};

use crate::subject::Subject;
use crate::wish::{Poll, Wish};

/// How many times a message is tried again where no plan says it.
const USUAL_RETRIES: u16 = 3;

/// How it is asked whether power is good where no plan says it: each millisecond, 50 times.
const USUAL_POLLING: Poll = Poll {
    ticks: 200,
    times: 50,
};

/// What is wished of a program that brings up a board, in the order of the plan's lines.
#[derive(Debug, Drop)]
pub struct Plan {
    pub wishes: Vec<Wish>,
}

impl Plan {
    /// The wish that is about a subject, if one is.
    pub(crate) fn wish_about(&self, subject: Subject) -> Option<&Wish>
        ensures { option_copied result ≡ wish_about self.now.wishes.items subject }
    {
        self.wishes.iter().find(|wish| subject.is_of(wish))
    }

    /// The mantissa that is wished for a rail, if one is.
    pub fn voltage_of(&self, rail: usize) -> Option<u16>
        ensures { result ≡ voltage_of self.now.wishes.items rail }
    {
        match self.wish_about(Subject::Voltage(rail)) {
            Some(Wish::Voltage { mantissa, .. }) => Some(*mantissa),
            _ => None,
        }
    }

    /// How many times a message is tried again that is of no rail with a wish of its own: as many
    /// as are wished for all, else 3.
    pub fn general_retries(&self) -> u16
        ensures { result ≡ general_retries self.now.wishes.items }
    {
        match self.wish_about(Subject::GeneralRetries) {
            Some(Wish::Retries { times, .. }) => *times,
            _ => USUAL_RETRIES,
        }
    }

    /// How many times a message of a rail is tried again: as many as are wished for it, else for
    /// all.
    pub fn retries_of(&self, rail: usize) -> u16
        ensures { result ≡ retries_of self.now.wishes.items rail }
    {
        match self.wish_about(Subject::Retries(rail)) {
            Some(Wish::Retries { times, .. }) => *times,
            _ => self.general_retries(),
        }
    }

    /// How it is asked whether the power of a rail without a wish of its own is good.
    fn general_polling(&self) -> Poll
        ensures { result ≡ general_polling self.now.wishes.items }
    {
        match self.wish_about(Subject::GeneralPolling) {
            Some(Wish::Polling { poll, .. }) => *poll,
            _ => USUAL_POLLING,
        }
    }

    /// How it is asked whether the power of a rail is good: as is wished for it, else for all, else
    /// each millisecond and 50 times.
    pub fn polling_of(&self, rail: usize) -> Poll
        ensures { result ≡ polling_of self.now.wishes.items rail }
    {
        match self.wish_about(Subject::Polling(rail)) {
            Some(Wish::Polling { poll, .. }) => *poll,
            _ => self.general_polling(),
        }
    }

    /// The value that WRITE_PROTECT of a target is to have at the end, if one is wished.
    pub fn protect_of(&self, target: usize) -> Option<u8>
        ensures { result ≡ protect_of self.now.wishes.items target }
    {
        match self.wish_about(Subject::Protect(target)) {
            Some(Wish::Protect { value, .. }) => Some(*value),
            _ => None,
        }
    }

    /// Whether CLEAR_FAULTS is to be sent before a rail of the target is turned on.
    pub fn clears(&self, target: usize) -> bool
        ensures { result ≡ clears self.now.wishes.items target }
    {
        self.wish_about(Subject::Clear(target)).is_some()
    }

    /// Whether the first rail is to be turned on before the second.
    pub fn puts_before(&self, first: usize, second: usize) -> bool
        ensures { result ≡ puts_before self.now.wishes.items first second }
    {
        self.wish_about(Subject::Order(first, second)).is_some()
    }
}
