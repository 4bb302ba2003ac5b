//! Tests of what stands above the checker: searches, played runs, notes, and sessions whose devices
//! fail, of what no row and no case can say.
#![tactic(auto)]

#[cfg(test)]
mod tests;
