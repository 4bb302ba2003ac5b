//! Tests of texts, lines, slots and frames, and of bundles and notes, which stand on these: of what
//! no row can say.
#![tactic(auto)]

#[cfg(test)]
mod tests;
