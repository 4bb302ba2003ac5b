//! How targets are opened at the start, and protected at the end.

use crate::writing::scene::{Scene, Sections};
use crate::writing::steps::Step;
use std::alloc::{AllocError, Global};

/// A write of WRITE_PROTECT.
#[derive(Drop)]
struct Protection {
    value: u8,
    /// What it does, and the words of its labels.
    word: &'static str,
    again: &'static str,
    /// Why it stands there; the target's name comes before.
    reason: &'static str,
    /// What is so where it isn't done after all tries, and how the program ends then.
    outcome: &'static str,
    failure: &'static str,
}

/// Writes a write of WRITE_PROTECT, and its tries.
fn write_protection(
    alloc: Global,
    sections: &mut Sections,
    scene: &Scene<'_>,
    target: usize,
    protection: &Protection,
) -> Result<(), AllocError> {
    let name = scene.target_name(target);
    let label = scene.labels.target(alloc, scene.board, target)?;
    let (value, word) = (protection.value, protection.word);
    let (reason, outcome) = (protection.reason, protection.outcome);
    let step = Step {
        label: &label,
        word,
        again: protection.again,
        tries: scene.plan.general_retries(),
    };
    let message = format!(in alloc; "write {name} WRITE_PROTECT 0x{value:02X}")?;
    write!(sections.up, "# {name} {reason}\n")?;
    step.write_message(&mut sections.up, &message, "")?;
    write!(
        sections.tries,
        "# tries again to {word} {name}; when they are used up, {outcome}\n"
    )?;
    step.write_again(&mut sections.tries, protection.failure)
}

/// Writes how a target is opened; where it can't be, the program fails before a rail is turned on.
pub(crate) fn write_open(
    alloc: Global,
    sections: &mut Sections,
    scene: &Scene<'_>,
    target: usize,
) -> Result<(), AllocError> {
    let opening = Protection {
        value: 0x00,
        word: "open",
        again: "reopen",
        reason: "may be protected at the start",
        outcome: "nothing has been turned on",
        failure: "fail   # allow protect-left\n",
    };
    write_protection(alloc, sections, scene, target, &opening)
}

/// Writes how a target is protected; where it can't be, the program fails with the rails on.
pub(crate) fn write_protect(
    alloc: Global,
    sections: &mut Sections,
    scene: &Scene<'_>,
    target: usize,
) -> Result<(), AllocError> {
    let closing = Protection {
        value: scene.plan.protect_of(target).unwrap_or(0),
        word: "protect",
        again: "reprotect",
        reason: "is protected from here on",
        outcome: "the program fails with the rails on",
        failure: "fail   # allow on-at-fail protect-left\n",
    };
    write_protection(alloc, sections, scene, target, &closing)
}
