//! Where a run stops before its end.

ghost use Rattle.std.specs.Prelude.{◌≡◌, None, MatchOption, IsSomeAnd};
ghost use Rattle.simulator.specs.Faults.{index_of};
ghost use Rattle.simulator.specs.declared.fault.RunFault.TheVariants.{Memory};
ghost use Rattle.session.specs.Stops.{IsKept};

use simulator::{Machine, RunFault, Stage};
use smbus::Answer;
use std::alloc::AllocError;

/// An answer that gives no step, and the machine that the run comes to before it.
#[derive(Drop)]
pub struct Stop {
    pub machine: Machine,
    pub answer: Answer,
}

/// Why a run has no end, and where it stops, if an answer is to blame.
#[derive(Drop)]
pub(crate) struct Halt {
    pub fault: RunFault,
    pub stop: Option<Stop>,
}

impl Halt {
    /// What a step answers, with the stage that it left.
    pub(crate) fn at(fault: RunFault, stage: Stage, answer: Answer) -> Halt
        ensures fault { result.fault ≡ fault }
        ensures stop { MatchOption (index_of fault) (result.stop ≡ None)
            (λ _. IsSomeAnd result.stop (IsKept stage.machine answer)) }
    {
        let stop = match fault.index() {
            Some(_) => Some(Stop {
                machine: stage.machine,
                answer,
            }),
            None => None,
        };
        Halt { fault, stop }
    }
}

impl From<AllocError> for Halt {
    ghost from_gives = { λ _ h. h.fault ≡ Memory };

    fn from(_e: AllocError) -> Halt {
        Halt {
            fault: RunFault::Memory,
            stop: None,
        }
    }
}

/// What is at fault before the first answer.
impl From<RunFault> for Halt {
    ghost from_gives = { λ fault h. (h.fault ≡ fault) × (h.stop ≡ None) };

    fn from(fault: RunFault) -> Halt {
        Halt { fault, stop: None }
    }
}
