ghost use Rattle.facts.specs.FactLaws.{CoveringRowsAdmit, DutiesAreKept, EdgesFollow};
ghost use Rattle.facts.specs.FactLaws.{EdgesStayShaped, ElseEdgesCover, CoveringGoesOn};
ghost use Rattle.facts.specs.BlameLaws.{BlameBreaks, OneIsToBlame};
ghost use Rattle.facts.specs.Steps.{MetDutiesSend, StepsAreSound};
ghost use Rattle.facts.specs.Witnesses.{SomeMachineStands, SomeRowIsWider};

use simulator::{
    entries_read_back, safe_steps_are_safe_runs, small_programs_are_judged, steps_are_seen,
    steps_stand_alone_or_are_lost,
};

/// A step from a row whose duties are met is safe and takes no more ticks than its instruction's
/// worst. After it the program has ended, or an edge leads to the next place, with a row that
/// admits the machine and the longer history there, and no more ticks left than before.
pub fn steps_are_sound()
    ensures steps { StepsAreSound }
    ensures sends { MetDutiesSend }
    // A machine stands at a message, after a step.
    ensures some { SomeMachineStands }
{
    entries_read_back();
    steps_are_seen();
    steps_stand_alone_or_are_lost();
    safe_steps_are_safe_runs();
    small_programs_are_judged();
}

/// The law of facts. Where one row covers another, it admits all that the other admits, the other
/// meets every duty that the first meets, and each of its edges is covered by an edge of the first
/// to the same place.
pub fn covered_rows_follow()
    ensures admits { CoveringRowsAdmit }
    ensures goes_on { CoveringGoesOn }
    ensures duties { DutiesAreKept }
    ensures edges { EdgesFollow }
    // The edges of a row of the board have such rows.
    ensures shapes { EdgesStayShaped }
    // The edge to an `else` label covers the row before it.
    ensures otherwise { ElseEdgesCover }
    // A row covers another, and meets the duties of a message.
    ensures some { SomeRowIsWider }
{
    small_programs_are_judged();
}

/// The law of violations. What is to blame for a refusal breaks its rule, and nothing else is to
/// blame for that rule: with the first rule that isn't met, the answer is one.
pub fn one_is_to_blame()
    ensures breaks { BlameBreaks }
    ensures one { OneIsToBlame }
{}
