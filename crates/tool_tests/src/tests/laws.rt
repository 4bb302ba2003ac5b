//! Laws: contracts of functions that do nothing, which hold of any program and any run.

use program_lints::{closed_sets_are_sure, leaning_is_needing};
use run_notes::answers_are_found;

#[test]
fn laws_are_called() {
    closed_sets_are_sure();
    leaning_is_needing();
    answers_are_found();
}
