//! The values of what a message reads.

ghost use Rattle.std.specs.Prelude.{◌≡◌};
ghost use Rattle.seq_program.specs.RequestViews.{transaction_view};
ghost use Rattle.facts.specs.duties.Allowing.{values_at};
ghost use Rattle.facts.specs.transfer.Edges.{loaded};

use crate::domain::span::Span;
use board::{Board, Range, full_values};
use seq_program::Transaction;

/// The values of the entry that allows a message, or all that its form has.
fn values_at(board: &Board, target: usize, transaction: &Transaction<'_>) -> Range
    ensures { result ≡ values_at board.now target (transaction_view transaction.now) }
{
    match board.entry_at(target, transaction.form, transaction.code()) {
        Some(entry) => entry.values(),
        None => full_values(transaction.form),
    }
}

/// The span of these values.
#[tactic(auto, unfolding(crate::specs::transfer::Edges::loaded))]
pub(crate) fn loaded(board: &Board, target: usize, transaction: &Transaction<'_>) -> Span
    ensures { result ≡ loaded board.now target (transaction_view transaction.now) }
{
    let values = values_at(board, target, transaction);
    Span {
        lo: values.low,
        hi: values.high,
    }
}
