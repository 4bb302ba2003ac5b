//! Comments that allow what would be warned of.

ghost use Rattle.std.specs.Prelude.{◌≡◌, map, IfOk};
ghost use Rattle.std.specs.List.{list_any};
ghost use Rattle.std.specs.Str.{bytes_eq};
ghost use Rattle.diagnostics.specs.ProgramWarnings.{allows, is_allowed};

use crate::Result;
use sentences::Word::Text;
use sentences::{Sentence, say};
use std::alloc::Global;
use texts::{comment_in, words_of};

/// Whether a name is among words.
fn is_among(words: &[&str], name: &str) -> bool
    ensures { result ≡ list_any (λ w. bytes_eq name.now w.now) words.now }
{
    words.iter().any(|word| name == *word)
}

/// Whether a comment of these words allows what has the name.
#[tactic(auto, using(crate::proofs::Allowing::named_among))]
fn allows(words: &[&str], name: &str) -> bool
    ensures { result ≡ allows (map (λ w. w.now) words.now) name.now }
{
    match words.split_first() {
        Some((first, names)) => *first == "allow" && is_among(names, name),
        None => false,
    }
}

/// What may help: to mend what has a name, or to allow it.
pub(crate) fn allowing<'a>(mending: &'a str, name: &'a str, meaning: &'a str) -> Sentence<'a> {
    say![
        {Text(mending)} ", or say with a comment `# allow " {Text(name)} "` on this line that "
        {Text(meaning)}
    ]
}

/// Whether the comment of a line allows what has the name: `# allow NAME ..`.
pub(crate) fn is_allowed(alloc: Global, line: &str, name: &str) -> Result<bool>
    ensures { IfOk result (λ allowed. allowed ≡ is_allowed line.now name.now) }
{
    let words = words_of(alloc, comment_in(line))?;
    Ok(allows(&words, name))
}
