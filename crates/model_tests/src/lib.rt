//! Tests of commands, boards, targets, programs and runs, of what no row can say.
#![tactic(auto)]

#[cfg(test)]
mod tests;
