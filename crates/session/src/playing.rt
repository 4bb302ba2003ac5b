//! A run that is played, as a text.

ghost use Rattle.std.specs.Prelude.{◌≡◌, length, All, IfOk, IsTrue, string_bytes};
ghost use Rattle.bundles.specs.Answers.{Answers};
ghost use Rattle.bundles.specs.AnswerTexts.{SaysAnswers, is_one_line};
ghost use Rattle.bundles.specs.Seeds.{seed_in};
ghost use Rattle.bundles.specs.Views.{section_view};
ghost use Rattle.seq_program.specs.Valid.{IsOnBoard};
ghost use Rattle.session.specs.Faults.{faulted};
ghost use Rattle.session.specs.PlayReplies.{SaysRun, still_running, with_ending};
ghost use Rattle.session.specs.Unreads.{Reads};
ghost use Rattle.session.specs.declared.fault.InputFault.TheVariants.{Bundle};

use crate::sequence::Sequence;
use crate::unread::Unread;
use board::board_is_valid;
use bundles::{AnswersText, Section, seed_in};
use run_player::play;
use simulator::Ending;
use std::alloc::{AllocError, Global};
use texts::ReadError;

/// The seed of a section.
pub(crate) fn seed_of(section: &Section<'_>) -> Result<u64, ReadError<Unread>>
    ensures { Reads (λ seed. seed) result (faulted Bundle (seed_in (section_view section.now))) }
{
    match seed_in(section) {
        Ok(seed) => Ok(seed),
        Err(fault) => Err(ReadError::Fault(Unread::Bundle(fault))),
    }
}

/// The comment below a run behind whose last step, one of so many, the program still runs.
fn still_running(alloc: Global, count: usize) -> Result<String, AllocError>
    ensures text { IfOk result (λ text. string_bytes text ≡ still_running count) }
    ensures one_line { IfOk result (λ text. IsTrue (is_one_line (string_bytes text))) }
{
    format!(in alloc; "still running after {count} steps")
}

/// The text of a run that ended so after so many steps, from that of its answers.
fn whole_text(
    alloc: Global,
    mut text: AnswersText,
    ended: Ending,
    count: usize,
) -> Result<String, AllocError>
    ensures text { IfOk result
        (λ whole. string_bytes whole ≡ with_ending text ended count) }
    ensures said { IfOk result (λ whole. (said : Answers) → SaysAnswers text said
        → SaysAnswers (string_bytes whole) said) }
{
    match ended {
        Ending::Running => {
            let remark = still_running(alloc, count)?;
            text.remark(alloc, &remark)?;
            Ok(text.into_text())
        }
        Ending::Finished | Ending::Failed => Ok(text.into_text()),
    }
}

/// The text of the run that a seed plays.
pub(crate) fn play_text(alloc: Global, sequence: &Sequence, seed: u64) -> Result<String, AllocError>
    requires { All (λ i. IsOnBoard (length sequence.now.board.targets) i) sequence.now.program }
    ensures { IfOk result (λ text. SaysRun sequence.now (string_bytes text)) }
{
    let run = play(alloc, &sequence.board, &sequence.program, seed)?;
    board_is_valid(&sequence.board);
    let text = AnswersText::of_run(alloc, None, &run.pages, &run.protects, &run.answers)?;
    whole_text(alloc, text, run.ended, run.answers.len())
}
