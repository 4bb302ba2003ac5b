//! What a wish is about: no two wishes of a plan are about the same.

ghost use Rattle.std.specs.Prelude.{◌≡◌};
ghost use Rattle.plans.specs.Wishes.{is_about, subject_of};

use crate::wish::Wish;

/// What a wish gives a value to. Rails and targets are told by their indices on the board.
#[derive(Clone, Copy, PartialEq, Eq)]
pub(crate) enum Subject {
    Voltage(usize),
    GeneralRetries,
    Retries(usize),
    GeneralPolling,
    Polling(usize),
    Protect(usize),
    Clear(usize),
    Order(usize, usize),
}

impl Subject {
    /// What a wish is about.
    pub(crate) fn of(wish: &Wish) -> Subject
        ensures { result ≡ subject_of wish.now }
    {
        match wish {
            Wish::Voltage { rail, .. } => Subject::Voltage(*rail),
            Wish::Retries { rail: None, .. } => Subject::GeneralRetries,
            Wish::Retries {
                rail: Some(rail),
                ..
            } => Subject::Retries(*rail),
            Wish::Polling { rail: None, .. } => Subject::GeneralPolling,
            Wish::Polling {
                rail: Some(rail),
                ..
            } => Subject::Polling(*rail),
            Wish::Protect { target, .. } => Subject::Protect(*target),
            Wish::Clear { target } => Subject::Clear(*target),
            Wish::Order { first, second } => Subject::Order(*first, *second),
        }
    }

    /// Whether a wish is about it.
    pub(crate) fn is_of(self, wish: &Wish) -> bool
        ensures { result ≡ is_about self wish.now }
    {
        Subject::of(wish) == self
    }
}
