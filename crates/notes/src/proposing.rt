//! What is proposed for a word that is no name.

ghost use Rattle.std.specs.Prelude.{◌≡◌, map, option_map, string_bytes, IfOk};
ghost use Rattle.std.specs.Str.{str_to_ascii_lowercase};
ghost use Rattle.notes.specs.Nearest.{proposal, IsSuggestion};

use crate::spelling::nearest;
use std::alloc::{AllocError, Global};

/// How many bytes a word has at most for which a name is looked for.
const MOST_COMPARED: usize = 40;

fn proposal(alloc: Global, name: &str) -> Result<String, AllocError>
    ensures { IfOk result (λ text. string_bytes text ≡ proposal name.now) }
{
    format!(in alloc; "did you mean \"{name}\"?")
}

/// Proposes the nearest of some names, for a word of at most 40 bytes. Fails only for want of
/// memory.
pub fn suggestion(alloc: Global, word: &str, names: &[&str]) -> Result<Option<String>, AllocError>
    ensures { IfOk result (λ help.
        IsSuggestion word.now (map (λ n. n.now) names.now) (option_map string_bytes help)) }
{
    if word.len() > MOST_COMPARED {
        return Ok(None);
    }
    match nearest(alloc, word, names)? {
        Some(name) => Ok(Some(proposal(alloc, name)?)),
        None => Ok(None),
    }
}

/// The same for names that have no upper case letters: those of the word count as lower case ones.
pub fn lowercase_suggestion(
    alloc: Global,
    word: &str,
    names: &[&str],
) -> Result<Option<String>, AllocError>
    ensures { IfOk result (λ help. IsSuggestion (str_to_ascii_lowercase word.now)
        (map (λ n. n.now) names.now) (option_map string_bytes help)) }
{
    let word = word.to_ascii_lowercase(alloc)?;
    suggestion(alloc, &word, names)
}
