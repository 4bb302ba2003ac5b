//! What watches a run for the first rule that it breaks.

ghost use Rattle.std.specs.Prelude.{◌≡◌, [], None, OnOk, IsSomeAnd};
ghost use Rattle.board.specs.Boards.{Board as AnyBoard};
ghost use Rattle.targets.specs.States.{Belongs};
ghost use Rattle.simulator.specs.Machines.{IsMachine};
ghost use Rattle.facts.specs.domain.Rows.{row_view};
ghost use Rattle.run_monitor.specs.Known.{Knows, known_row};
ghost use Rattle.run_monitor.specs.Monitors.{good_of, HasSeen};

use crate::breach::{Breach, Reached};
use crate::judging::{good_behind, rule_broken};
use crate::known::known_row;
use board::Board;
use facts::GoodSet;
use seq_program::Program;
use simulator::Machine;
use smbus::Answer;
use std::alloc::{AllocError, Global};

/// What is known in a run as long as it breaks no rule, and where it does first.
#[derive(Drop)]
pub struct Monitor {
    /// The rails whose last report was good, and that weren't turned off since.
    pub good: GoodSet,
    pub found: Option<Reached>,
}

impl Monitor {
    /// Before the first step: nothing was reported.
    pub fn new() -> Monitor
        ensures none { result.found ≡ None }
        ensures knows { (b : AnyBoard) → Knows b [] (good_of result) }
    {
        Monitor {
            good: GoodSet::empty(),
            found: None,
        }
    }

    /// Keeps a breach, with what is known of the machine.
    fn keep(
        &mut self,
        alloc: Global,
        board: &Board,
        machine: &Machine,
        breach: Breach,
    ) -> Result<(), AllocError>
        requires { Belongs board.now machine.now.bus }
        ensures { OnOk result (IsSomeAnd self.new.found (λ x. (x.breach ≡ breach)
            × (row_view x.row ≡ known_row machine.now (good_of self.old)))) }
    {
        let row = known_row(alloc, board, machine, self.good)?;
        self.found = Some(Reached { breach, row });
        Ok(())
    }

    /// Looks at a machine before its step, and at the answer to that. The machine is one of the
    /// board and the program. After the first breach nothing is looked at. Memory is answered where
    /// a growth was refused, and then the monitor is of no more use.
    pub fn see(
        &mut self,
        alloc: Global,
        board: &Board,
        program: &Program,
        machine: &Machine,
        answer: &Answer,
        index: usize,
    ) -> Result<(), AllocError>
        requires { IsMachine board.now program.now machine.now }
        ensures { OnOk result
            (HasSeen board.now program.now machine.now answer.now index self.old self.new) }
    {
        if self.found.is_some() {
            return Ok(());
        }
        if let Some(rule) = rule_broken(alloc, board, program, machine, self.good)? {
            let place = machine.place;
            return self.keep(alloc, board, machine, Breach { index, place, rule });
        }
        self.good = good_behind(alloc, board, program, machine, answer, self.good)?;
        Ok(())
    }
}
