ghost use Rattle.std.specs.Prelude.{ℕ};

use crate::domain::part::Part;
use std::alloc::{AllocError, Global};

/// The numbers from `lo` to `hi`, both included.
#[derive(Clone, Copy, Debug, PartialEq, Eq)]
pub struct Span {
    pub lo: u16,
    pub hi: u16,
}

impl Part for Span {
    ghost use Rattle.facts.specs.domain.Rows.{InSpan, SpanCovers};

    ghost Point = { ℕ };

    ghost Admits = { InSpan };

    ghost Covers = { SpanCovers };

    ghost Alike = { λ s u. Unit {0} };

    fn covers(&self, other: &Self) -> bool {
        self.lo <= other.lo && other.hi <= self.hi
    }

    fn join(&self, _alloc: Global, other: &Self) -> Result<Self, AllocError> {
        Ok(Span {
            lo: self.lo.min(other.lo),
            hi: self.hi.max(other.hi),
        })
    }
}
