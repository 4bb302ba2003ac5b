//! The start of a scenario's run.

ghost use Rattle.std.specs.Prelude.{◌≢◌, IfOk, IfErr};
ghost use Rattle.simulator.specs.declared.fault.RunFault.TheVariants.{Memory};
ghost use Rattle.session.specs.Scenarios.{IsAtStart, CannotStart};

use crate::scenario::Scenario;
use seq_program::program_is_valid;
use simulator::{RunFault, Stage, start};
use std::alloc::Global;

/// The stage of a scenario's run before its first step.
pub(crate) fn first_stage(alloc: Global, scenario: &Scenario<'_>) -> Result<Stage, RunFault>
    ensures at_start { IfOk result (λ stage. IsAtStart scenario.now stage.machine) }
    ensures bad { IfErr result (λ e. e ≢ Memory → CannotStart scenario.now e) }
{
    program_is_valid(&scenario.program);
    let answered = &scenario.answers;
    let machine = start(alloc, &scenario.board, &answered.pages, &answered.protects)?;
    Ok(Stage::new(alloc, machine))
}
