//! What a note says, as one text.

ghost use Rattle.std.specs.Prelude.{◌≡◌, ◌++◌, IfOk, OnOk, map, string_bytes};
ghost use Rattle.sarif.specs.Messages.{facts_text, helps_text, message_text};

use notes::Note;
use std::alloc::{AllocError, Global};

/// Adds what is known beside, a line each.
fn push_facts(text: &mut String, facts: &[String]) -> Result<(), AllocError>
    ensures { OnOk result (string_bytes text.new
        ≡ string_bytes text.old ++ facts_text (map string_bytes facts.now)) }
{
    for fact in facts {
        text.push_str("\nnote: ")?;
        text.push_str(fact)?;
    }
    Ok(())
}

/// Adds what may help, a line each.
fn push_helps(text: &mut String, helps: &[String]) -> Result<(), AllocError>
    ensures { OnOk result (string_bytes text.new
        ≡ string_bytes text.old ++ helps_text (map string_bytes helps.now)) }
{
    for help in helps {
        text.push_str("\nhelp: ")?;
        text.push_str(help)?;
    }
    Ok(())
}

/// What is said, what is known beside, and what may help, a line each.
pub(crate) fn message_text(alloc: Global, note: &Note) -> Result<String, AllocError>
    ensures { IfOk result (λ text. string_bytes text ≡ message_text note.now) }
{
    let mut text = String::from_str(alloc, &note.message)?;
    push_facts(&mut text, &note.facts)?;
    push_helps(&mut text, &note.helps)?;
    Ok(text)
}
