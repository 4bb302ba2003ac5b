//! What holds of all tables: of their texts, and of the runs of a program with one.

ghost use Rattle.facts.specs.declared.duties.rule.Rule.TheVariants.{K5};
ghost use Rattle.table_check.specs.checker.Admitted.{StartsAreAdmitted, StepsStayAdmitted};
ghost use Rattle.table_check.specs.checker.ByPlace.{FollowingTablesTellDuties, InductiveByPlace};
ghost use Rattle.table_check.specs.checker.ByPlace.{ClosedTablesTellDutiesOrTicks};
ghost use Rattle.table_check.specs.checker.FirstVersion.{FlatTablesStayAccepted};
ghost use Rattle.table_check.specs.checker.FirstVersion.{SomeFlatCase, TablesAreJudgedAlike};
ghost use Rattle.table_check.specs.checker.Obligations.{IsInductive, IsVerdict};
ghost use Rattle.table_check.specs.checker.SafeTables.{InductiveRunsAreSafe, VerdictsAreSafe};
ghost use Rattle.table_check.specs.checker.SmallTables.{two_rails, voltage_program, voltage_table};
ghost use Rattle.table_check.specs.checker.SmallTables.{ordered_program, ordered_table};
ghost use Rattle.table_check.specs.checker.SmallTables.{withdrawn_program, withdrawn_table};
ghost use Rattle.table_check.specs.Tables.{Table};
ghost use Rattle.table_check.specs.text.TextLaws.{TextsHaveOneTable, TablesHaveTexts};
ghost use Rattle.table_check.specs.text.TextLaws.{BoardsHaveTables};
ghost use Rattle.table_check.specs.declared.checker.verdict.Verdict.TheVariants.{Refused};

use facts::{covered_rows_follow, steps_are_sound};
use seq_program::lines_read_back;
use simulator::{safe_steps_are_safe_runs, steps_are_seen};
use texts::{numbers_are_spelled, numbers_read_back};

/// Every run of a program with a table that keeps the rule book is safe and ends within the ticks
/// that are left at the start, whatever the targets answer.
pub fn inductive_runs_are_safe()
    ensures runs { InductiveRunsAreSafe }
    ensures verdicts { VerdictsAreSafe }
{
    steps_are_sound();
    covered_rows_follow();
    steps_are_seen();
    safe_steps_are_safe_runs();
}

/// In every run of a program with a table that keeps the rule book, the row of each place that is
/// reached admits the machine, with the steps before it.
pub fn accepted_runs_are_admitted()
    ensures starts { StartsAreAdmitted }
    ensures steps { StepsStayAdmitted }
{
    steps_are_sound();
    covered_rows_follow();
    steps_are_seen();
    safe_steps_are_safe_runs();
}

/// A table keeps the rule book where it does so place by place. One that keeps it but for duties is
/// accepted, or its verdict tells the first duty that an instruction doesn't meet.
pub fn tables_are_judged_by_place()
    ensures whole { InductiveByPlace }
    ensures duties { FollowingTablesTellDuties }
    ensures ticks { ClosedTablesTellDutiesOrTicks }
{}

/// The rule book before contentions were counted, in which another controller's frame may stand in
/// the place of each message: a table that was accepted and counts none stays so, with its bound.
/// Where no arbitration may be lost, each table's verdict is what it was.
pub fn uncounted_tables_are_judged()
    ensures stay { FlatTablesStayAccepted }
    ensures alike { TablesAreJudgedAlike }
    // There are such tables, where another controller may win.
    ensures case { SomeFlatCase }
{
    covered_rows_follow();
}

/// A text is the text of at most one table, and each table that can be written has one.
pub fn tables_have_texts()
    ensures one { TextsHaveOneTable }
    ensures text { TablesHaveTexts }
    // There are such tables, with a row.
    ensures case { BoardsHaveTables }
{
    numbers_read_back();
    numbers_are_spelled();
    lines_read_back();
}

/// Worked tables of facts. A voltage within a rail's limit has a table that keeps the rule book,
/// with no tick to spare; the voltage one bit over the limit has none. Two rails that are turned on
/// in order, the second once the first reports good, have one too. Where the first is turned off in
/// between, the verdict tells that a need of the second isn't good at the place that turns it on.
pub fn small_tables_are_judged()
    ensures within { IsInductive two_rails (voltage_program 4505) (voltage_table 114) }
    ensures tight { IsInductive two_rails (voltage_program 4505) (voltage_table 113) → ⊥ }
    ensures over { (t : Table) → IsInductive two_rails (voltage_program 4506) t → ⊥ }
    ensures ordered { IsInductive two_rails ordered_program ordered_table }
    ensures judged { IsVerdict two_rails withdrawn_program withdrawn_table (Refused 5 K5) }
{}
