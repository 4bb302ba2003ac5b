ghost use Rattle.std.specs.Prelude.{◌≡◌};
ghost use Rattle.table_check.specs.checker.Breaches.{rule_of, verdict_of};

use crate::checker::verdict::Verdict;
use facts::{Misfit, RowPart, Rule, Unheld, Violation};

/// Where ticks are counted.
#[derive(Clone, Copy, Debug, PartialEq, Eq)]
pub struct Spot {
    /// The values of c0 to c3.
    pub counters: [u16; 4],
    /// How many arbitrations were lost so far.
    pub lost: u16,
}

/// What breaks a rule, and what is to blame. `edge` is the index of an edge among those of the
/// place, as `facts::edges` gives them, the first that breaks a rule; `to` is where it leads.
#[derive(Clone, Copy, Debug, PartialEq, Eq)]
pub enum Breach {
    /// K9: the table has more rows, or fewer, than the program has places.
    Length,
    /// K9: the first part of the place's row that isn't the board's.
    Shape(Misfit),
    /// K8: place 0 has no row.
    NoStart,
    /// K8: the first part of its row that doesn't hold every start.
    Start(Unheld),
    /// K1 to K5: what the instruction does at its row.
    Duty(Violation),
    /// K6: there is no row where an edge leads.
    NoRow {
        edge: usize,
        to: usize,
    },
    /// K6: the row there doesn't cover the edge's, and this is its first part that doesn't.
    Uncovered {
        edge: usize,
        to: usize,
        part: RowPart,
    },
    /// K7: most ticks are lacking here, where `needed` are needed for the edge and the row there,
    /// and `left` are left. Of equals it is the least counter, and the most lost arbitrations.
    Unpaid {
        edge: usize,
        to: usize,
        at: Spot,
        needed: u128,
        left: u128,
    },
    /// K7: the program ends at the place, and here no tick is left for it.
    UnpaidEnd {
        at: Spot,
    },
}

impl Breach {
    /// The rule that is broken.
    pub fn rule(self) -> Rule
        ensures { result ≡ rule_of self }
    {
        match self {
            Breach::Length => Rule::K9,
            Breach::Shape(_) => Rule::K9,
            Breach::NoStart => Rule::K8,
            Breach::Start(_) => Rule::K8,
            Breach::Duty(violation) => violation.rule(),
            Breach::NoRow { .. } => Rule::K6,
            Breach::Uncovered { .. } => Rule::K6,
            Breach::Unpaid { .. } => Rule::K7,
            Breach::UnpaidEnd { .. } => Rule::K7,
        }
    }
}

/// The first place that breaks a rule, and what is to blame there.
#[derive(Clone, Copy, Debug, PartialEq, Eq)]
pub struct Refusal {
    pub place: usize,
    pub breach: Breach,
}

/// The answer of the checker with its evidence.
#[derive(Clone, Copy, Debug, PartialEq, Eq)]
pub enum Judgement {
    /// Every run is safe and ends within so many ticks.
    Accepted { bound: u64 },
    /// Why the table isn't accepted.
    Refused(Refusal),
}

impl Judgement {
    /// The same without what is to blame: a place that breaks a rule, and the rule.
    pub fn verdict(self) -> Verdict
        ensures { result ≡ verdict_of self }
    {
        match self {
            Judgement::Accepted { bound } => Verdict::Accepted { bound },
            Judgement::Refused(refusal) => Verdict::Refused {
                place: refusal.place,
                rule: refusal.breach.rule(),
            },
        }
    }
}
