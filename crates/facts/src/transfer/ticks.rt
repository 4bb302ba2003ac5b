//! How long an instruction takes at most.

ghost use Rattle.std.specs.Prelude.{◌≡◌, ◌+◌, ◌*◌, ℕ};
ghost use Rattle.board.specs.Boards.{largest_stretch};
ghost use Rattle.board.specs.declared.entry.Range.{Range};
ghost use Rattle.seq_program.specs.Requests.{block_count};
ghost use Rattle.seq_program.specs.RequestViews.{content_view, transaction_view, request_view};
ghost use Rattle.facts.specs.duties.Allowing.{lengths_at};
ghost use Rattle.facts.specs.transfer.Ticks.{frame_ticks, longest_slots, other_ticks, own_ticks};
ghost use Rattle.simulator.specs.ForeignTicks.{foreign_ticks};

use board::{Board, full_length};
use seq_program::{Content, Instr, Request, Transaction};
use smbus::{Form, most_slots};

/// The ticks of a message of so many slots.
#[tactic(auto, unfolding(crate::specs::transfer::Ticks::frame_ticks))]
fn frame_ticks(board: &Board, slots: u32) -> u64
    ensures { result ≡ frame_ticks board.now slots }
{
    2 + u64::from(slots) * (3 + u64::from(board.largest_stretch()))
}

/// How many bytes of a block are written.
fn block_count(content: &Content<'_>) -> u16
    ensures { result ≡ block_count (content_view content.now) }
{
    match content {
        Content::Block(bytes) => bytes.bytes().len() as u16,
        _ => 0,
    }
}

/// How many bytes of a block may be read.
fn longest_block(board: &Board, target: usize, transaction: &Transaction<'_>) -> u16
    ensures { result
        ≡ Range.high (lengths_at board.now target (transaction_view transaction.now)) }
{
    match board.entry_at(target, transaction.form, transaction.code()) {
        Some(entry) => entry.length().high,
        None => full_length().high,
    }
}

/// Of an instruction that sends nothing to a target.
fn other_ticks(board: &Board, instr: &Instr) -> u64
    ensures { result ≡ other_ticks board.now instr.now }
{
    match instr {
        Instr::Alert { .. } => frame_ticks(board, most_slots(Form::Alert, 0, 0)),
        Instr::Wait { ticks } => u64::from(*ticks) + 1,
        _ => 1,
    }
}

/// The ticks of a request.
fn sent_ticks(board: &Board, request: &Request<'_>) -> u64
    ensures { result ≡ frame_ticks board.now (longest_slots board.now (request_view request.now)) }
{
    let transaction = &request.transaction;
    let sent = block_count(&transaction.content);
    let read = longest_block(board, request.target, transaction);
    frame_ticks(board, most_slots(transaction.form, sent, read))
}

/// The most ticks of an instruction over whose message no other controller wins.
pub fn own_ticks(board: &Board, instr: &Instr) -> u64
    ensures { result ≡ own_ticks board.now instr.now }
{
    match instr.request() {
        Some(request) => sent_ticks(board, &request),
        None => other_ticks(board, instr),
    }
}

/// The ticks of the longest frame of another controller.
pub fn foreign_ticks(board: &Board) -> u64
    ensures { result ≡ foreign_ticks board.now }
{
    let slots = 9 * (1 + u64::from(board.foreign_bytes())) + 1;
    2 + slots * (3 + u64::from(board.foreign_stretch()))
}
