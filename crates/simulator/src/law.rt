ghost use Rattle.std.specs.List.{AllByRecursion};
ghost use Rattle.simulator.specs.ContendedSteps.{StepsStandAloneOrAreLost};
ghost use Rattle.simulator.specs.ContendedSteps.{StepsWithoutContendersStandAlone};
ghost use Rattle.simulator.specs.ContendedSteps.{SomeStepIsLost};
ghost use Rattle.simulator.specs.Does.{EntriesDoAsAsked};
ghost use Rattle.simulator.specs.EntryLaws.{EntriesReadBack, ForeignReadsBack, IdleReadsBack};
ghost use Rattle.simulator.specs.EntryLaws.{JoinedReadBack};
ghost use Rattle.simulator.specs.GoingOn.{FittingAnswersHaveSteps, GoingOnHasSteps};
ghost use Rattle.simulator.specs.RunLaws.{RunsAreOne, RunsAreSeen, RunsGoOn};
ghost use Rattle.simulator.specs.RunLaws.{StepsAreOne, TicksAddUp};
ghost use Rattle.simulator.specs.SafeLaws.{AllowedFramesAreSeen, SafeStepsAreSafeRuns};
ghost use Rattle.simulator.specs.SmallPrograms.{EndingIsSafe, ListedSendIsSafe, ClearingIsSafe};
ghost use Rattle.simulator.specs.SmallPrograms.{VoltageWithinLimitIsSafe};
ghost use Rattle.simulator.specs.SmallPrograms.{EnablingWithoutNeedsIsSafe};
ghost use Rattle.simulator.specs.SmallPrograms.{EnablingAtOnceIsUnsafe, WithdrawnNeedIsUnsafe};
ghost use Rattle.simulator.specs.SmallPrograms.{ProtectedWriteIsUnsafe, UnlistedFormIsUnsafe};
ghost use Rattle.simulator.specs.SmallPrograms.{VoltageOverLimitIsUnsafe, SomeSendIsListed};
ghost use Rattle.simulator.specs.SmallPrograms.{SomeVoltageIsWithin, SomeRailHasNoNeeds};
ghost use Rattle.simulator.specs.SmallPrograms.{SomeFormIsUnlisted, SomeWriteIsProtected};
ghost use Rattle.simulator.specs.SmallPrograms.{SomeVoltageIsOver, SomeRailHasNeeds};
ghost use Rattle.simulator.specs.SmallPrograms.{SomeNeedIsWithdrawn, SomeClearingIsListed};
ghost use Rattle.simulator.specs.SmallPrograms.{AtEachVoltage, AtEachEnabling};
ghost use Rattle.simulator.specs.SmallPrograms.{margin_codes, margin_values};
ghost use Rattle.simulator.specs.StepLaws.{StepsAreSeen, StartsAreReady, SomeStepIsTaken};

use bit_bus::{plans_keep_slots, reads_back};
use smbus::{contenders_have_one_frame, messages_have_one_frame, slots_are_one_frame};
use targets::{
    answers_have_states, contenders_may_win, fitting_bytes_are_on_wire, ranges_are_of_forms,
    some_answer_fits, states_belong, targets_are_found,
};

/// The samples of an entry that sends a message have one frame, the one that shows the message, and
/// what they are seen to do is what was asked and answered. Those of another controller have its
/// one frame, and idle samples none. The joined samples of entries have the frames of the entries
/// in order, and no others.
pub fn entries_read_back()
    ensures one { EntriesReadBack }
    ensures does { EntriesDoAsAsked }
    ensures none { IdleReadsBack }
    ensures foreign { ForeignReadsBack }
    ensures joined { JoinedReadBack }
{
    reads_back();
    plans_keep_slots();
    slots_are_one_frame();
    messages_have_one_frame();
    contenders_have_one_frame();
}

/// Every step of a program on its board meets what the laws on entries ask: its message and answer
/// are bytes on the wire that can be sent. So its samples are read as its message's one frame, or
/// as none, they begin idle and end with both lines high, and the machine after it is ready for the
/// next step, as it is at the start. What a step is seen to write, report and withdraw is told from
/// its message, its answer and the state before it. A message over which another controller wins is
/// seen to do nothing, and in its place stands that controller's one frame.
pub fn steps_are_seen()
    ensures steps { StepsAreSeen }
    ensures starts { StartsAreReady }
    // There are such steps.
    ensures some { SomeStepIsTaken }
{
    entries_read_back();
    states_belong();
    some_answer_fits();
    ranges_are_of_forms();
    fitting_bytes_are_on_wire();
    contenders_may_win();
}

/// The joined samples of a run are read as the frames of the messages that it sent, in order, and
/// as no others: whole where the message was done, broken off otherwise.
pub fn runs_are_seen()
    ensures { RunsAreSeen }
{
    entries_read_back();
    steps_are_seen();
}

/// Each step is one that it would be without other controllers, or is lost to one of them; and
/// where none starts, the steps are those that they would be without any.
pub fn steps_stand_alone_or_are_lost()
    ensures either { StepsStandAloneOrAreLost }
    ensures alone { StepsWithoutContendersStandAlone }
    // There are lost steps.
    ensures some { SomeStepIsLost }
{
    contenders_may_win();
    states_belong();
    answers_have_states();
}

/// The targets' answers settle a run: from a machine there is no other step under an answer, and
/// no other run under answers.
pub fn runs_are_one()
    ensures steps { StepsAreOne }
    ensures runs { RunsAreOne }
{}

/// A run goes on step by step: that of the answers before an index, and the step of the answer
/// there, are the run up to it, and its ticks are those of both.
pub fn runs_go_on()
    ensures run { RunsGoOn }
    ensures ticks { TicksAddUp }
{}

/// No run is stuck: each answer that fits what the instruction at a machine's place sends has a
/// step, and where the targets can answer, there is an answer with one.
pub fn fitting_answers_have_steps()
    ensures steps { FittingAnswersHaveSteps }
    ensures going_on { GoingOnHasSteps }
{
    answers_have_states();
}

/// What makes steps and runs safe, without a look at the samples: the frame of a step is allowed
/// where its message is, and a run of safe steps is safe as a whole, where the targets can answer
/// to what it asks next.
pub fn safe_steps_are_safe_runs()
    ensures frames { AllowedFramesAreSeen }
    ensures runs { SafeStepsAreSafeRuns }
{
    slots_are_one_frame();
    entries_read_back();
    steps_are_seen();
    some_answer_fits();
}

/// What the checker is to promise of every run is told from small programs. It holds of one that
/// only ends, and of one that sends a byte, commands a voltage or turns on rails, where the target
/// has an entry for it, the stored protection permits it, and the limits and needs of the rails
/// allow it. It doesn't hold, whatever else the board says, of programs that send a form for which
/// the target has no entry, write what is protected, exceed a voltage's limit, or turn on a rail
/// before its needs reported good or after such a report was withdrawn. A voltage is any of the
/// three, also one at a margin, and a rail is turned on by any value that enables.
pub fn small_programs_are_judged()
    ensures ends { EndingIsSafe }
    ensures sends { ListedSendIsSafe }
    ensures clears { ClearingIsSafe }
    ensures commands { VoltageWithinLimitIsSafe }
    ensures turns_on { EnablingWithoutNeedsIsSafe }
    ensures enables { AtEachEnabling EnablingAtOnceIsUnsafe }
    ensures withdraws { WithdrawnNeedIsUnsafe }
    ensures lists { UnlistedFormIsUnsafe }
    ensures protects { ProtectedWriteIsUnsafe }
    ensures limits { AtEachVoltage VoltageOverLimitIsUnsafe }
    // So it is at margins.
    ensures margins { AllByRecursion EnablingAtOnceIsUnsafe margin_values }
    ensures margin_limits { AllByRecursion VoltageOverLimitIsUnsafe margin_codes }
    // Each of them speaks of some program, for which all else that the others ask for holds.
    ensures some_send { SomeSendIsListed }
    ensures some_clearing { SomeClearingIsListed }
    ensures some_voltage { AtEachVoltage SomeVoltageIsWithin }
    ensures some_rail { AtEachEnabling SomeRailHasNoNeeds }
    ensures unlisted { SomeFormIsUnlisted }
    ensures protected { SomeWriteIsProtected }
    ensures over { AtEachVoltage SomeVoltageIsOver }
    ensures needed { AtEachEnabling SomeRailHasNeeds }
    ensures withdrawn { AtEachEnabling SomeNeedIsWithdrawn }
{
    messages_have_one_frame();
    entries_read_back();
    steps_are_seen();
    safe_steps_are_safe_runs();
    some_answer_fits();
    targets_are_found();
    ranges_are_of_forms();
    contenders_may_win();
}
