//! The reply that tells an outcome.

ghost use Rattle.std.specs.Prelude.{◌≡◌, ◌≢◌, ℕ, List, IfOk, Result, string_bytes};
ghost use Rattle.session.specs.CheckReplies.{verdict_text, verdict_reply};
ghost use Rattle.session.specs.DraftReplies.{drafted_reply};
ghost use Rattle.session.specs.Commands.{Task};
ghost use Rattle.session.specs.Outcomes.{IsOutcomeOf, IsTrue, told_reply, checked_reply};
ghost use Rattle.session.specs.Outcomes.{verified_reply, text_reply, IsSearched};
ghost use Rattle.session.specs.Outcomes.{refuted_reply, searched_status, status_of};
ghost use Rattle.session.specs.Unreads.{fault_of};
ghost use Rattle.session.specs.Replies.{reply_view, refusal};
ghost use Rattle.session.specs.SearchReplies.{gave_up_reply, IsFindReply, MayBeFound, Prints};
ghost use Rattle.table_check.specs.Tables.{table_view};
ghost use Rattle.session.specs.Cases.{IsCaseIn};
ghost use Rattle.session.specs.Sessions.{IsReplyAfter, IsReplyTo};
ghost use Rattle.session.specs.declared.fault.InputFault.{InputFault as AnyFault};
ghost use Rattle.session.specs.declared.fault.InputFault.TheVariants as faults;

use crate::draft_fault::draft_fault_line;
use crate::fault::InputFault;
use crate::outcome::{
    Case, Checked, Drafted, Framed, Outcome, Played, Ran, Refuted, Searched, Verified,
};
use crate::reply::{Reply, Status, refused};
use crate::sequence::Sequence;
use crate::unread::Unread;
use std::alloc::{AllocError, Global};
use table_check::{Table, TableFault, Verdict, write_table};

/// The reply with a text that was asked for.
fn text_reply(text: String) -> Reply
    ensures whole { result.status ≢ Status.DeviceFault }
    ensures replies { reply_view result ≡ text_reply (string_bytes text) }
{
    Reply {
        status: Status::Accepted,
        text: text.into_bytes(),
    }
}

/// The reply where a search gave up at a place.
fn gave_up_reply(alloc: Global, place: usize) -> Result<Reply, AllocError>
    ensures whole { IfOk result (λ reply. reply.status ≢ Status.DeviceFault) }
    ensures replies { IfOk result (λ reply. reply_view reply ≡ gave_up_reply place) }
{
    let text = format!(in alloc; "gave up place {place}\n")?;
    Ok(Reply {
        status: Status::Refused,
        text: text.into_bytes(),
    })
}

/// The reply with a found table.
fn table_reply(alloc: Global, sequence: &Sequence, table: &Table) -> Result<Reply, AllocError>
    requires { MayBeFound sequence.now (table_view table.now) }
    ensures whole { IfOk result (λ reply. reply.status ≢ Status.DeviceFault) }
    ensures status { IfOk result (λ reply. reply.status ≡ Status.Accepted) }
    ensures replies { IfOk result (λ reply. Prints sequence.now (reply_view reply)) }
{
    let text = write_table(alloc, &sequence.board, table)?;
    Ok(text_reply(text))
}

/// The line of a verdict.
fn verdict_text(alloc: Global, verdict: Verdict) -> Result<String, AllocError>
    ensures { IfOk result (λ text. string_bytes text ≡ verdict_text verdict) }
{
    match verdict {
        Verdict::Accepted { bound } => { format!(in alloc; "accepted bound {bound}\n") }
        Verdict::Refused { place, rule } => {
            let rule = rule.name();
            format!(in alloc; "refused place {place} rule {rule}\n")
        }
    }
}

/// The reply with a verdict.
fn verdict_reply(alloc: Global, verdict: Verdict) -> Result<Reply, AllocError>
    ensures whole { IfOk result (λ reply. reply.status ≢ Status.DeviceFault) }
    ensures replies { IfOk result (λ reply. reply_view reply ≡ verdict_reply verdict) }
{
    let text = verdict_text(alloc, verdict)?;
    Ok(Reply {
        status: match verdict {
            Verdict::Accepted { .. } => Status::Accepted,
            Verdict::Refused { .. } => Status::Refused,
        },
        text: text.into_bytes(),
    })
}

// An outcome is given up variant by variant, and what isn't told of it by a call of `drop`: where a
// struct goes out of scope by itself, the proof goes through all of its parts.

fn unread_reply(alloc: Global, unread: Unread) -> Result<Reply, AllocError>
    ensures whole { IfOk result (λ reply. reply.status ≢ Status.DeviceFault) }
    ensures replies { IfOk result (λ reply. reply_view reply ≡ refusal (fault_of unread)) }
{
    refused(alloc, unread.fault())
}

fn framed_reply(alloc: Global, framed: Framed) -> Result<Reply, AllocError>
    ensures whole { IfOk result (λ reply. reply.status ≢ Status.DeviceFault) }
    ensures replies { IfOk result
        (λ reply. reply_view reply ≡ told_reply faults.Frame framed.told) }
{
    let Framed { exchange, told } = framed;
    drop(exchange);
    match told {
        Ok(text) => Ok(text_reply(text)),
        Err(fault) => refused(alloc, InputFault::Frame(fault)),
    }
}

fn ran_reply(alloc: Global, ran: Ran<'_>) -> Result<Reply, AllocError>
    ensures whole { IfOk result (λ reply. reply.status ≢ Status.DeviceFault) }
    ensures replies { IfOk result
        (λ reply. reply_view reply ≡ told_reply faults.Run ran.entry.told) }
{
    let Ran { scenario, told, .. } = ran;
    drop(scenario);
    match told {
        Ok(text) => Ok(text_reply(text)),
        Err(fault) => refused(alloc, InputFault::Run(fault)),
    }
}

fn checked_reply(alloc: Global, checked: Checked) -> Result<Reply, AllocError>
    ensures whole { IfOk result (λ reply. reply.status ≢ Status.DeviceFault) }
    ensures replies { IfOk result
        (λ reply. reply_view reply ≡ checked_reply checked.judged) }
{
    let reply = match &checked.judged {
        Ok(judged) => verdict_reply(alloc, judged.judgement.verdict()),
        Err(line) => refused(alloc, InputFault::Table(TableFault::BadLine(*line))),
    };
    drop(checked);
    reply
}

/// The reply to a search.
fn found_reply(alloc: Global, searched: &Searched) -> Result<Reply, AllocError>
    requires { IsSearched searched.now.sequence searched.now.found }
    ensures whole { IfOk result (λ reply. reply.status ≢ Status.DeviceFault) }
    ensures status { IfOk result (λ reply. reply.status ≡ searched_status searched.now.found) }
    ensures replies { IfOk result
        (λ reply. IsFindReply searched.now.sequence (reply_view reply)) }
{
    match &searched.found {
        Ok(table) => table_reply(alloc, &searched.sequence, table),
        Err(place) => gave_up_reply(alloc, *place),
    }
}

fn searched_reply(alloc: Global, searched: Searched) -> Result<Reply, AllocError>
    requires { IsSearched searched.sequence searched.found }
    ensures whole { IfOk result (λ reply. reply.status ≢ Status.DeviceFault) }
    ensures status { IfOk result (λ reply. reply.status ≡ searched_status searched.found) }
    ensures replies { IfOk result (λ reply. IsFindReply searched.sequence (reply_view reply)) }
{
    let reply = found_reply(alloc, &searched);
    drop(searched);
    reply
}

fn verified_reply(alloc: Global, verified: Verified) -> Result<Reply, AllocError>
    ensures whole { IfOk result (λ reply. reply.status ≢ Status.DeviceFault) }
    ensures replies { IfOk result
        (λ reply. reply_view reply ≡ verified_reply verified.judged) }
{
    let reply = match &verified.judged {
        Ok(judged) => verdict_reply(alloc, judged.judgement.verdict()),
        Err(place) => gave_up_reply(alloc, *place),
    };
    drop(verified);
    reply
}

fn played_reply(played: Played) -> Reply
    ensures whole { result.status ≢ Status.DeviceFault }
    ensures replies { reply_view result ≡ text_reply (string_bytes played.text) }
{
    let Played { sequence, text, .. } = played;
    drop(sequence);
    text_reply(text)
}

fn refuted_reply(alloc: Global, refuted: Refuted) -> Result<Reply, AllocError>
    ensures whole { IfOk result (λ reply. reply.status ≢ Status.DeviceFault) }
    ensures replies { IfOk result (λ reply. reply_view reply ≡ refuted_reply refuted.found) }
{
    let Refuted { sequence, found } = refuted;
    drop(sequence);
    match found {
        Some(refutation) => Ok(text_reply(refutation.text)),
        None => Ok(Reply {
            status: Status::Refused,
            text: b"no run found\n".to_vec(alloc)?,
        }),
    }
}

fn drafted_reply(alloc: Global, drafted: Drafted) -> Result<Reply, AllocError>
    ensures whole { IfOk result (λ reply. reply.status ≢ Status.DeviceFault) }
    ensures replies { IfOk result
        (λ reply. reply_view reply ≡ drafted_reply drafted.planned.board drafted.told) }
{
    let Drafted { planned, told } = drafted;
    match told {
        Ok(text) => {
            drop(planned);
            Ok(text_reply(text))
        }
        Err(fault) => {
            let line = draft_fault_line(alloc, &planned.board, fault);
            drop(planned);
            Ok(Reply {
                status: Status::InputFault,
                text: line?.into_bytes(),
            })
        }
    }
}

/// The reply to what was read of an outcome that is true of it.
fn outcome_reply(alloc: Global, outcome: Outcome<'_>) -> Result<Reply, AllocError>
    requires { IsTrue outcome }
    ensures whole { IfOk result (λ reply. reply.status ≢ Status.DeviceFault) }
    ensures status { IfOk result (λ reply. reply.status ≡ status_of outcome.entry) }
    ensures replies { IfOk result (λ reply. (read : Result Task AnyFault)
        → IsOutcomeOf read outcome.entry → IsReplyAfter read (reply_view reply)) }
{
    match outcome {
        Outcome::Unread(unread) => unread_reply(alloc, unread),
        Outcome::Framed(framed) => framed_reply(alloc, framed),
        Outcome::Ran(ran) => ran_reply(alloc, ran),
        Outcome::Checked(checked) => checked_reply(alloc, checked),
        Outcome::Searched(searched) => searched_reply(alloc, searched),
        Outcome::Verified(verified) => verified_reply(alloc, verified),
        Outcome::Played(played) => Ok(played_reply(played)),
        Outcome::Refuted(refuted) => refuted_reply(alloc, refuted),
        Outcome::Drafted(drafted) => drafted_reply(alloc, drafted),
    }
}

/// The reply to an input that was judged, for standard output: what was asked for, or a fault. The
/// outcome is true, as `judge` leaves it. AllocError is answered where a growth was refused.
pub fn reply_of(alloc: Global, case: Case<'_>) -> Result<Reply, AllocError>
    requires { IsTrue case.outcome }
    ensures whole { IfOk result (λ reply. reply.status ≢ Status.DeviceFault) }
    ensures status { IfOk result (λ reply. reply.status ≡ status_of case.entry.outcome) }
    ensures replies { IfOk result (λ reply. (input : List ℕ) → IsCaseIn input case.entry
        → IsReplyTo input (reply_view reply)) }
{
    let Case { outcome, .. } = case;
    outcome_reply(alloc, outcome)
}
