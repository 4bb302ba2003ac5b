//! A step of a way.

use facts::Row;

/// A place that a way comes to, and what is known there along that way alone.
#[derive(Debug, Drop)]
pub struct Step {
    pub place: usize,
    pub row: Row,
    /// Which edge of the step before leads here, and how many that has.
    pub edge: usize,
    pub edges: usize,
}
