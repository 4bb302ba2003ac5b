//! What holds of sets of rails that are closed under the edges of a program, and of needs.

ghost use Rattle.program_lints.specs.Law.{ClosedSetsAreOff, ClosedSetsHaveVoltages};
ghost use Rattle.program_lints.specs.Needing.{LeaningIsNeeding};

use facts::steps_are_sound;
use simulator::steps_are_seen;
use table_check::{accepted_runs_are_admitted, tables_are_judged_by_place};

/// Rails that stay off along the edges of a program whose table keeps the rule book are off in
/// every run, and rails that stay with a voltage had one written to them.
pub fn closed_sets_are_sure()
    ensures off { ClosedSetsAreOff }
    ensures voltages { ClosedSetsHaveVoltages }
{
    accepted_runs_are_admitted();
    tables_are_judged_by_place();
    steps_are_sound();
    steps_are_seen();
}

/// The rails that lints take to need another, through as many needs as there may be rails, are all
/// that need it, themselves or through needs of needs.
pub fn leaning_is_needing()
    ensures { LeaningIsNeeding }
{}
