ghost use Rattle.std.specs.Prelude.{◌≡◌, ◌≢◌, [], None, IfOk, IfErr, string_bytes};
ghost use Rattle.board.specs.Boards.{Board as AnyBoard};
ghost use Rattle.simulator.specs.declared.fault.RunFault.TheVariants.{Memory};
ghost use Rattle.session.specs.Stops.{IsHaltOf, IsStopped};
ghost use Rattle.run_monitor.specs.Known.{Knows};
ghost use Rattle.run_monitor.specs.Monitors.{good_of};
ghost use Rattle.session.specs.Reports.{telling_of, IsReport};
ghost use Rattle.session.specs.Outcomes.{IsTold};
ghost use Rattle.session.specs.RunReplies.{IsToldRun, IsRunText};
ghost use Rattle.session.specs.Scenarios.{IsAtStart, IsOnItsBoard};
ghost use Rattle.session.specs.Breaches.{IsFoundIn};

use crate::report::{Report, Telling};
use crate::scenario::Scenario;
use crate::stage::first_stage;
use crate::stop::{Halt, Stop};
use board::board_is_valid;
use run_monitor::{Monitor, Reached, accepted_runs_keep_rules};
use seq_program::program_is_valid;
use simulator::{Ending, RunFault, Stage, runs_are_one, runs_go_on, steps_are_seen};
use std::alloc::{AllocError, Global};
use table_check::accepted_runs_are_admitted;

/// Tells each step of the run of a scenario from its start, watches for the first rule that is
/// broken, and gives how the run ended and its ticks. An answer is read, done and told before the
/// next is read, and of what it did only that is kept.
fn tell_steps(
    alloc: Global,
    scenario: &Scenario<'_>,
    mut stage: Stage,
    report: &mut Report,
    watch: &mut Monitor,
) -> Result<(Ending, u64), Halt>
    requires on_board { IsOnItsBoard scenario.now }
    requires at_start { IsAtStart scenario.now stage.machine }
    requires empty { IsReport (telling_of report.old) [] report.old }
    requires none { watch.old.found ≡ None }
    requires knows { (b : AnyBoard) → Knows b [] (good_of watch.old) }
    ensures told { IfOk result
        (λ r. IsToldRun (telling_of report.old) scenario.now report.new r.0 r.1) }
    ensures halt { IfErr result (λ h. h.fault ≢ Memory → IsHaltOf scenario.now h) }
    ensures found { IfOk result (λ r. IsFoundIn scenario.now watch.new.found) }
    ensures found_before { IfErr result
        (λ h. h.fault ≢ Memory → IsFoundIn scenario.now watch.new.found) }
{
    let (board, program) = (&scenario.board, &scenario.program);
    board_is_valid(board);
    program_is_valid(program);
    steps_are_seen();
    accepted_runs_are_admitted();
    accepted_runs_keep_rules();
    runs_are_one();
    runs_go_on();
    let mut answers = scenario.answers.answers();
    let mut index = 0;
    let mut ticks = 0;
    while let Some(answer) = answers.next(alloc)? {
        watch.see(alloc, board, program, &stage.machine, &answer, index)?;
        if let Err(fault) = stage.step(alloc, board, program, &answer, index, ticks) {
            return Err(Halt::at(fault, stage, answer));
        }
        report.add(alloc, &stage.entry)?;
        index += 1;
        ticks += stage.entry.ticks;
        // by a call, since the proof has a path for each part that may be there to drop
        drop(answer);
    }
    Ok((stage.machine.ended, ticks))
}

/// Starts the run of a scenario, tells its steps and watches them, and gives how it ended and its
/// ticks.
fn tell_run(
    alloc: Global,
    scenario: &Scenario<'_>,
    report: &mut Report,
    watch: &mut Monitor,
) -> Result<(Ending, u64), Halt>
    requires on_board { IsOnItsBoard scenario.now }
    requires empty { IsReport (telling_of report.old) [] report.old }
    requires none { watch.old.found ≡ None }
    requires knows { (b : AnyBoard) → Knows b [] (good_of watch.old) }
    ensures told { IfOk result
        (λ r. IsToldRun (telling_of report.old) scenario.now report.new r.0 r.1) }
    ensures halt { IfErr result (λ h. h.fault ≢ Memory → IsHaltOf scenario.now h) }
    ensures found { IfOk result (λ r. IsFoundIn scenario.now watch.new.found) }
    ensures found_before { IfErr result
        (λ h. h.fault ≢ Memory → IsFoundIn scenario.now watch.new.found) }
{
    let stage = first_stage(alloc, scenario)?;
    tell_steps(alloc, scenario, stage, report, watch)
}

/// What is told of the run of a scenario, which is watched.
fn run_text(
    alloc: Global,
    scenario: &Scenario<'_>,
    telling: Telling,
    watch: &mut Monitor,
) -> Result<String, Halt>
    requires on_board { IsOnItsBoard scenario.now }
    requires none { watch.old.found ≡ None }
    requires knows { (b : AnyBoard) → Knows b [] (good_of watch.old) }
    ensures text { IfOk result (λ text. IsRunText telling scenario.now (string_bytes text)) }
    ensures halt { IfErr result (λ h. h.fault ≢ Memory → IsHaltOf scenario.now h) }
    ensures found { IfOk result (λ text. IsFoundIn scenario.now watch.new.found) }
    ensures found_before { IfErr result
        (λ h. h.fault ≢ Memory → IsFoundIn scenario.now watch.new.found) }
{
    let mut report = Report::new(alloc, telling)?;
    let (ended, ticks) = tell_run(alloc, scenario, &mut report, watch)?;
    Ok(report.whole(alloc, ended, ticks)?)
}

/// What is told of a run, which is whole before anything is sent, or why there is none.
pub(crate) struct Run {
    pub told: Result<String, RunFault>,
    /// Where an answer gives no step.
    pub stop: Option<Stop>,
    /// Where the run breaks a rule first.
    pub found: Option<Reached>,
}

/// What is told of the run of a scenario, where it stops, and where it breaks a rule first.
pub(crate) fn run_of(
    alloc: Global,
    scenario: &Scenario<'_>,
    telling: Telling,
) -> Result<Run, AllocError>
    requires { IsOnItsBoard scenario.now }
    ensures told { IfOk result (λ run. IsTold telling scenario.now run.told) }
    ensures stop { IfOk result (λ run. IsStopped scenario.now run.told run.stop) }
    ensures found { IfOk result (λ run. IsFoundIn scenario.now run.found) }
{
    let mut watch = Monitor::new();
    let (told, stop) = match run_text(alloc, scenario, telling, &mut watch) {
        Ok(text) => (Ok(text), None),
        Err(
            Halt {
                fault: RunFault::Memory,
                ..
            },
        ) => return Err(AllocError),
        Err(Halt { fault, stop }) => (Err(fault), stop),
    };
    let found = watch.found;
    Ok(Run { told, stop, found })
}
