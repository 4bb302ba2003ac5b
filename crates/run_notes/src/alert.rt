//! Answers to alert responses.

use crate::step::Step;
use sentences::Figure::Hex;
use sentences::{Sentence, say};
use smbus::Answer;
use std::alloc::Global;

/// The byte that an alert response returns, if a target alerts: of those that alert the one that
/// fits.
fn alert_byte(alloc: Global, step: &Step) -> Option<u16> {
    let mut answer = Answer::silent(alloc);
    for target in step.board.targets() {
        answer.value = 2 * u16::from(target.address());
        if step.takes(&answer) {
            return Some(answer.value);
        }
    }
    None
}

/// What is wrong with the answer to an alert response.
pub(crate) fn alert_misfit(alloc: Global, step: &Step) -> Sentence<'static> {
    match alert_byte(alloc, step) {
        Some(byte) => say![
            "the target that wins the alert response is told by \"value=" (Hex(byte, 1)) "\" alone"
        ],
        None => say!["nobody alerts here, and that is told by \"refuse=0\" alone"],
    }
}
