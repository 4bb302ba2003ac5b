use facts::Rule;

/// The answer of the checker.
#[derive(Clone, Copy, Debug, PartialEq, Eq)]
pub enum Verdict {
    /// Every run is safe and ends within so many ticks.
    Accepted { bound: u64 },
    /// The first place that breaks a rule, and the rule.
    Refused { place: usize, rule: Rule },
}
