//! The lines of a section that say something.

ghost use Rattle.std.specs.Prelude.{◌≡◌, ◌+◌};
ghost use Rattle.texts.specs.Words.{lines_by_feed};
ghost use Rattle.run_notes.specs.AnswerPlaces.{counted_line, run_line};

use bundles::is_counted;
use simulator::RunFault;
use texts::first_by_feed;

/// The number of the line that stands at a place among those that count, counted from 1.
pub(crate) fn counted_line(text: &str, place: usize) -> Option<usize>
    ensures { result ≡ counted_line place (lines_by_feed text.now) }
{
    let mut left = place;
    let mut number = 1;
    let mut rest = text;
    while let Some((line, below)) = first_by_feed(rest) {
        if is_counted(line) {
            if left == 0 {
                return Some(number);
            }
            left -= 1;
        }
        number += 1;
        rest = below;
    }
    None
}

/// The number of the line with the answer of an index: how the targets start stands above.
#[tactic(auto, using(crate::proofs::CountedLines::none_past))]
fn answer_line(text: &str, index: usize) -> Option<usize>
    ensures { result ≡ counted_line (index + 1) (lines_by_feed text.now) }
{
    counted_line(text, index.checked_add(1)?)
}

/// The number of the line of the answers that has a fault, counted from 1.
pub(crate) fn run_line(text: &str, fault: RunFault) -> Option<usize>
    ensures { result ≡ run_line fault (lines_by_feed text.now) }
{
    match fault {
        RunFault::BadStart => counted_line(text, 0),
        _ => answer_line(text, fault.index()?),
    }
}
