//! The plan of a text.

ghost use Rattle.std.specs.Prelude.{◌≡◌, All, IfErr, IfOk, IfSome, OnOk, length, map};
ghost use Rattle.texts.specs.Reading.{Gives};
ghost use Rattle.texts.specs.Words.{lines_by_feed};
ghost use Rattle.plans.specs.WishLines.{IsWishOn};
ghost use Rattle.plans.specs.Plans.{said_by, said_on, with_said, at_line};
ghost use Rattle.plans.specs.Plans.{IsPlanOf, IsFirstBad, OnFault, plan_of};

use crate::fault::{LineFault, PlanFault};
use crate::plan::Plan;
use crate::subject::Subject;
use crate::wish::Wish;
use crate::wish_line::wish_of;
use board::Board;
use std::alloc::Global;
use texts::{ReadError, first_by_feed, without_comment, words_of};

/// The wish that the words of a line are, if there are any.
fn said_by(board: &Board, words: &[&str]) -> Result<Option<Wish>, LineFault>
    ensures value { result ≡ said_by board.now (map (λ w. w.now) words.now) }
    ensures fits { IfOk result (λ said. IfSome said
        (λ wish. IsWishOn (length board.now.rails) (length board.now.targets) wish)) }
{
    if words.is_empty() {
        return Ok(None);
    }
    Ok(Some(wish_of(board, words)?))
}

/// The wish of a line, if the line isn't blank.
#[tactic(auto, unfolding(crate::specs::Plans::said_on))]
fn said_on(
    alloc: Global,
    board: &Board,
    number: usize,
    line: &str,
) -> Result<Option<Wish>, ReadError<PlanFault>>
    ensures value { Gives (λ said. said) result (at_line number (said_on board.now line.now)) }
    ensures fits { IfOk result (λ said. IfSome said
        (λ wish. IsWishOn (length board.now.rails) (length board.now.targets) wish)) }
{
    let words = words_of(alloc, without_comment(line))?;
    match said_by(board, &words) {
        Ok(said) => Ok(said),
        Err(why) => Err(ReadError::Fault(PlanFault { line: number, why })),
    }
}

/// Adds what a line says.
fn add_line(
    alloc: Global,
    board: &Board,
    plan: &mut Plan,
    number: usize,
    line: &str,
) -> Result<(), ReadError<PlanFault>>
    requires fits { All (λ wish. IsWishOn (length board.now.rails)
        (length board.now.targets) wish) plan.old.wishes.items }
    ensures value { Gives (λ _. plan.new.wishes.items) result
        (at_line number (with_said plan.old.wishes.items (said_on board.now line.now))) }
    ensures fits { OnOk result (All (λ wish. IsWishOn (length board.now.rails)
        (length board.now.targets) wish) plan.new.wishes.items) }
{
    if let Some(wish) = said_on(alloc, board, number, line)? {
        if plan.wish_about(Subject::of(&wish)).is_some() {
            let why = LineFault::Twice;
            return Err(ReadError::Fault(PlanFault { line: number, why }));
        }
        plan.wishes.push(wish)?;
    }
    Ok(())
}

/// The plan of a text for a board. The fault of a text is its first bad line, counted from 1 over
/// all lines: one that is neither blank nor a wish, or that wishes a second time what a line above
/// it wishes. Why it is bad is the first of these: its first word, how many words stand behind it,
/// each of these words from left to right, and the lines above. Lines end with LF alone, and `#`
/// begins a comment.
///
/// Memory is answered where a growth was refused.
pub fn read_plan(alloc: Global, board: &Board, text: &str) -> Result<Plan, ReadError<PlanFault>>
    ensures value { Gives (λ plan. plan.wishes.items) result
        (plan_of board.now (lines_by_feed text.now)) }
    ensures plan { IfOk result
        (λ plan. IsPlanOf board.now (lines_by_feed text.now) plan.wishes.items) }
    ensures fault { IfErr result
        (λ e. OnFault e (λ fault. IsFirstBad board.now (lines_by_feed text.now) fault)) }
    // Its rails and targets are on the board, and its numbers in their ranges.
    ensures fits { IfOk result (λ plan. All (λ wish. IsWishOn (length board.now.rails)
        (length board.now.targets) wish) plan.wishes.items) }
{
    let mut plan = Plan {
        wishes: Vec::new(alloc),
    };
    let mut number = 1;
    let mut rest = text;
    while let Some((line, below)) = first_by_feed(rest) {
        add_line(alloc, board, &mut plan, number, line)?;
        number += 1;
        rest = below;
    }
    Ok(plan)
}
