//! Notes on plans.

ghost use Rattle.std.specs.Prelude.{IfOk, codes};
ghost use Rattle.notes.specs.Notes.{IsOn};
ghost use Rattle.texts.specs.Words.{lines_by_feed};

use crate::Result;
use crate::column::word_at;
use crate::program::habit::habit_in;
use crate::program::unknown_target::{target_remark, unnamed};
use board::Board;
use notes::{Level, Note, line_at, lowercase_suggestion};
use plans::{LineFault, MOST_TICKS, MOST_TIMES, PlanFault};
use sentences::Figure::Number;
use sentences::Word::{Name, Text};
use sentences::{Advice, Remark, Sentence, marked, note_in, say};
use std::alloc::Global;
use texts::{without_comment, words_of};

/// The words that wishes begin with, and how each goes on.
const WISHES: [(&str, &str); 6] = [
    (
        "voltage",
        "write `voltage RAIL 1.05V`, with a point and a V, or `voltage RAIL 4301`, the mantissa, \
         which has 16 bits at most",
    ),
    (
        "retries",
        "write `retries N`, or `retries RAIL N` for one rail",
    ),
    (
        "poll",
        "write `poll 1ms 50`, or `poll RAIL 1ms 50` for one rail: how long is waited, in ticks, ms \
         or us, and how many times is asked",
    ),
    (
        "protect",
        "write `protect TARGET 80`: one of 00, 20, 40 and 80",
    ),
    ("clear", "write `clear TARGET`"),
    (
        "order",
        "write `order RAIL RAIL`: the first is turned on before the second",
    ),
];

/// How a wish goes on that begins with a word, if one does.
fn shape_of(word: &str) -> Option<Sentence<'static>> {
    let (_, shape) = WISHES.iter().find(|(name, _)| *name == word)?;
    Some(say![{ Text(shape) }])
}

/// What is said of a word with which no wish begins.
fn wish_remark(alloc: Global, word: &str) -> Result<Remark> {
    let names: Vec<&str> = WISHES.iter().map(|(name, _)| *name).collect(alloc)?;
    let help = match lowercase_suggestion(alloc, word, &names)? {
        Some(help) => help,
        None => String::from_str(alloc, "docs/DRAFT.md has all wishes")?,
    };
    say!["unknown wish " {Name(word)}].helped_by(alloc, Some(help))
}

/// What is said of a word that is no rail's name.
fn rail_remark(alloc: Global, board: &Board, word: &str) -> Result<Remark> {
    let rails = 0..board.rails().len();
    let names: Vec<&str> = rails
        .map(|rail| board.rail_name(rail).unwrap_or(""))
        .collect(alloc)?;
    let help = lowercase_suggestion(alloc, word, &names)?;
    unnamed(alloc, "rail", word, &names, help)
}

/// The index of the word that is to blame: of one that isn't what it has to be, else of the first.
fn blamed_at(why: LineFault) -> usize {
    match why {
        LineFault::NoRail(at)
        | LineFault::NoTarget(at)
        | LineFault::NoVoltage(at)
        | LineFault::NoRetries(at)
        | LineFault::NoTicks(at)
        | LineFault::NoCount(at)
        | LineFault::NoProtection(at) => at,
        LineFault::SameRail => 2,
        LineFault::NoWish | LineFault::WordCount | LineFault::Twice => 0,
    }
}

/// What is said of a line with this first word, and of the word that is to blame.
fn word_remark(
    alloc: Global,
    board: &Board,
    first: &str,
    word: &str,
    why: LineFault,
) -> Result<Remark> {
    let found = Name(word);
    let message = match why {
        LineFault::NoWish => return wish_remark(alloc, word),
        LineFault::NoRail(_) => return rail_remark(alloc, board, word),
        LineFault::NoTarget(_) => return target_remark(alloc, board, word),
        LineFault::WordCount => say!["too few or too many words behind " {found}],
        LineFault::NoVoltage(_) => say![{found} " is no voltage that can be commanded"],
        LineFault::NoRetries(_) => say!["expected 0 to " (Number(MOST_TIMES)) ", found " {found}],
        LineFault::NoTicks(_) =>
            say!["expected 1 to " (Number(MOST_TICKS)) " ticks, found " {found}],
        LineFault::NoCount(_) => say!["expected 1 to " (Number(MOST_TIMES)) ", found " {found}],
        LineFault::NoProtection(_) => say![{found} " is no value of WRITE_PROTECT"],
        LineFault::SameRail => say![{found} " can't be turned on before itself"],
        LineFault::Twice => return say!["a line above wishes this already"].alone().told(alloc),
    };
    let help = shape_of(first);
    Advice { message, help }.told(alloc)
}

/// What is said of a plan's bad line.
fn line_remark(alloc: Global, board: &Board, line: &str, why: LineFault) -> Result<Remark> {
    let words = words_of(alloc, without_comment(line))?;
    let first = words.first().copied().unwrap_or("");
    let word = words.get(blamed_at(why)).copied().unwrap_or("");
    let remark = word_remark(alloc, board, first, word, why)?;
    match habit_in(&words) {
        Some(habit) => {
            let help = Some(String::from_str(alloc, habit)?);
            Ok(Remark { help, ..remark })
        }
        None => Ok(remark),
    }
}

/// What a person needs to mend a plan's bad line: the line, with a mark below the word that is to
/// blame, what is wrong with it, and what may help. Fails only for want of memory.
pub fn plan_note(alloc: Global, board: &Board, plan: &str, fault: PlanFault) -> Result<Note>
    ensures { IfOk result
        (IsOn Level.Error (codes "%plan") fault.line (lines_by_feed plan.now)) }
{
    let line = line_at(plan, fault.line).unwrap_or("");
    let remark = line_remark(alloc, board, line, fault.why)?;
    let note = note_in(alloc, Level::Error, "%plan", plan, fault.line, remark)?;
    let at = word_at(without_comment(line), blamed_at(fault.why));
    marked(alloc, note, at)
}
