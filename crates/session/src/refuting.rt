//! A run in which a program breaks a rule, as a text.

ghost use Rattle.std.specs.Prelude.{◌≡◌, ◌<◌, ◌^◌, length, All, IfOk, IsTrue, string_bytes};
ghost use Rattle.bundles.specs.AnswerTexts.{is_one_line};
ghost use Rattle.breach_search.specs.Harms.{IsHarm};
ghost use Rattle.seq_program.specs.Valid.{IsOnBoard};
ghost use Rattle.session.specs.Outcomes.{IsRefuted};
ghost use Rattle.session.specs.PlayReplies.{SaysBreach, breach_text};

use crate::outcome::Refutation;
use crate::searching::verify;
use crate::sequence::Sequence;
use board::board_is_valid;
use breach_search::{Harm, MOST_STATES, find_breach};
use bundles::AnswersText;
use run_monitor::Breach;
use std::alloc::{AllocError, Global};
use table_check::Verdict;

/// A place is within its type.
fn is_within(place: usize)
    ensures { place < 2 ^ 64 }
{}

/// The comment that names the place and the rule.
fn breach_text(alloc: Global, breach: Breach) -> Result<String, AllocError>
    ensures text { IfOk result (λ text. string_bytes text ≡ breach_text breach) }
    ensures one_line { IfOk result (λ text. IsTrue (is_one_line (string_bytes text))) }
{
    let place = breach.place;
    is_within(place);
    let rule = breach.rule.name();
    format!(in alloc; "place {place} rule {rule}")
}

/// The text of a run in which a program breaks a rule.
fn harm_text(alloc: Global, sequence: &Sequence, harm: &Harm) -> Result<String, AllocError>
    requires { IsHarm sequence.now.board sequence.now.program harm.now }
    ensures { IfOk result (λ text. SaysBreach sequence.now harm.now.breach (string_bytes text)) }
{
    board_is_valid(&sequence.board);
    let comment = breach_text(alloc, harm.breach)?;
    let (pages, protects) = (&harm.pages, &harm.protects);
    let text = AnswersText::of_run(alloc, Some(&comment), pages, protects, &harm.answers)?;
    Ok(text.into_text())
}

/// The place at which a program is refused, if it is.
fn refused_at(alloc: Global, sequence: &Sequence) -> Result<Option<usize>, AllocError> {
    match verify(alloc, sequence)? {
        Ok(judged) => match judged.judgement.verdict() {
            Verdict::Accepted { .. } => Ok(None),
            Verdict::Refused { place, .. } => Ok(Some(place)),
        },
        Err(place) => Ok(Some(place)),
    }
}

/// A run in which a program breaks a rule, if one is found. It is searched where the program isn't
/// accepted.
pub(crate) fn refute(alloc: Global, sequence: &Sequence) -> Result<Option<Refutation>, AllocError>
    requires { All (λ i. IsOnBoard (length sequence.now.board.targets) i) sequence.now.program }
    ensures { IfOk result (IsRefuted sequence.now) }
{
    let Some(toward) = refused_at(alloc, sequence)? else {
        return Ok(None);
    };
    let (board, program) = (&sequence.board, &sequence.program);
    match find_breach(alloc, board, program, toward, MOST_STATES)? {
        Some(harm) => {
            let text = harm_text(alloc, sequence, &harm)?;
            let breach = harm.breach;
            Ok(Some(Refutation { breach, text }))
        }
        None => Ok(None),
    }
}
