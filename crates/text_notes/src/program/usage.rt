//! The instructions of a program, and what each takes, as `docs/PROGRAM.md` has it.

use crate::Result;
use std::alloc::Global;

/// An instruction's first word, and what stands behind it.
type Usage = (&'static str, &'static str);

const USAGES: [Usage; 21] = [
    ("quick", "TARGET DIRECTION else LABEL"),
    ("send", "TARGET COMMAND else LABEL"),
    ("receive", "TARGET REGISTER else LABEL"),
    ("write", "TARGET COMMAND VALUE else LABEL"),
    ("read", "TARGET COMMAND REGISTER else LABEL"),
    ("call", "TARGET COMMAND VALUE REGISTER else LABEL"),
    ("blockwrite", "TARGET COMMAND BYTES else LABEL"),
    ("blockread", "TARGET COMMAND REGISTER else LABEL"),
    ("blockcall", "TARGET COMMAND BYTES REGISTER else LABEL"),
    ("alert", "REGISTER else LABEL"),
    ("ifalert", "LABEL"),
    ("set", "REGISTER VALUE"),
    ("add", "REGISTER VALUE"),
    ("if", "REGISTER MASK VALUE LABEL"),
    ("above", "REGISTER VALUE LABEL"),
    ("count", "COUNTER VALUE"),
    ("again", "COUNTER LABEL"),
    ("wait", "VALUE"),
    ("goto", "LABEL"),
    ("end", ""),
    ("fail", ""),
];

/// What stands behind the first word of an instruction.
pub(crate) fn usage_of(word: &str) -> Option<&'static str> {
    let (_, usage) = USAGES.iter().find(|(name, _)| *name == word)?;
    Some(usage)
}

/// The first words of all instructions.
pub(crate) fn instruction_words(alloc: Global) -> Result<Vec<&'static str>> {
    USAGES.iter().map(|(word, _)| *word).collect(alloc)
}
