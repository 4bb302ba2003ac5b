//! Tests of facts, tables and the search for them, of what no row can say.
#![tactic(auto)]

#[cfg(test)]
mod tests;
