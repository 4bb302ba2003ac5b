//! What became of an input: what was read of it, and what was found.

use crate::draft_fault::DraftFault;
use crate::planned::Planned;
use crate::report::Telling;
use crate::scenario::Scenario;
use crate::sequence::Sequence;
use crate::stop::Stop;
use crate::trial::Trial;
use crate::unread::Unread;
use breach_search::Shown;
use bundles::{Exchange, Section};
use run_monitor::{Breach, Reached};
use simulator::RunFault;
use smbus::SmbusFault;
use table_check::{Judgement, Table};

/// A message with its answer, and the lines that tell its frame, or why it has none.
#[derive(Drop)]
pub struct Framed {
    pub exchange: Exchange,
    pub told: Result<String, SmbusFault>,
}

/// A run: what is told of it, or why there is none; where an answer gives no step; and where it
/// breaks a rule first.
#[derive(Drop)]
pub struct Ran<'a> {
    pub scenario: Scenario<'a>,
    pub telling: Telling,
    pub told: Result<String, RunFault>,
    pub stop: Option<Stop>,
    pub found: Option<Reached>,
}

/// A table of facts, and the judgement on it: with a refusal, what is to blame.
#[derive(Drop)]
pub struct Judged {
    pub table: Table,
    pub judgement: Judgement,
}

/// A program with the text of a table: the verdict on that, or its first line that is none of a
/// table.
#[derive(Drop)]
pub struct Checked {
    pub trial: Trial,
    pub judged: Result<Judged, usize>,
}

/// A program whose facts were asked for: the table that was found, or the place at which the search
/// gave up.
#[derive(Drop)]
pub struct Searched {
    pub sequence: Sequence,
    pub found: Result<Table, usize>,
}

/// A program that was to be verified: the verdict on the table that was found, or the place at
/// which the search gave up; and where one of K1 to K5 refuses it a run that breaks a rule, if a
/// short search finds one.
#[derive(Drop)]
pub struct Verified {
    pub sequence: Sequence,
    pub judged: Result<Judged, usize>,
    pub shown: Option<Shown>,
}

/// A run of a program that was played by a seed, as the text of how its targets start and of what
/// they answer.
#[derive(Drop)]
pub struct Played {
    pub sequence: Sequence,
    pub seed: u64,
    pub text: String,
}

/// A run in which a program breaks a rule with its last instruction: which rule and where, and the
/// text of how its targets start and of what they answer.
#[derive(Drop)]
pub struct Refutation {
    pub breach: Breach,
    pub text: String,
}

/// A program for which a run that breaks a rule was searched, and the run, if one was found.
#[derive(Drop)]
pub struct Refuted {
    pub sequence: Sequence,
    pub found: Option<Refutation>,
}

/// A program that was drafted for a plan and is accepted, as its text, or why there is none.
#[derive(Drop)]
pub struct Drafted {
    pub planned: Planned,
    pub told: Result<String, DraftFault>,
}

/// What became of an input. The reply to it and the notes on it are made from this.
#[derive(Drop)]
pub enum Outcome<'a> {
    Unread(Unread),
    Framed(Framed),
    Ran(Ran<'a>),
    Checked(Checked),
    Searched(Searched),
    Verified(Verified),
    Played(Played),
    Refuted(Refuted),
    Drafted(Drafted),
}

/// An input that was judged: as far as it is text, the sections of its bundle, none where it is no
/// bundle, and what became of it.
#[derive(Drop)]
pub struct Case<'a> {
    pub text: &'a str,
    pub sections: Vec<Section<'a>>,
    pub outcome: Outcome<'a>,
}
