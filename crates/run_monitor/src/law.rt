//! What holds of the runs of programs that are accepted.

ghost use Rattle.run_monitor.specs.Accepted.{AdmittedKeepRules};

use facts::covered_rows_follow;
use table_check::tables_are_judged_by_place;

/// In every run of a program with a table that keeps the rule book, each instruction keeps the
/// rules K1 to K5, with all that is known there: the machine, and what the rails reported.
pub fn accepted_runs_keep_rules()
    ensures { AdmittedKeepRules }
{
    covered_rows_follow();
    tables_are_judged_by_place();
}
