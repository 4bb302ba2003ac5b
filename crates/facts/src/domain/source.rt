use crate::domain::part::Part;
use std::alloc::{AllocError, Global};

/// What a register's value is known to equal. Rails and targets are numbered as on the board.
#[derive(Clone, Copy, Debug, PartialEq, Eq)]
pub enum Source {
    None,
    /// The last report of a rail.
    Status(usize),
    /// What a target stores in PAGE.
    Page(usize),
    /// What a target stores in WRITE_PROTECT.
    Protect(usize),
}

impl Part for Source {
    ghost use Rattle.std.specs.Prelude.{Bool};
    ghost use Rattle.facts.specs.declared.domain.source.Source.{Source};
    ghost use Rattle.facts.specs.domain.Rows.{SourceCovers};
    ghost use Rattle.facts.specs.domain.Known.{IsKnownFrom};

    // which sources name the value
    ghost Point = { Source → Bool };

    ghost Admits = { IsKnownFrom };

    ghost Covers = { SourceCovers };

    ghost Alike = { λ s u. Unit {0} };

    fn covers(&self, other: &Self) -> bool {
        *self == Source::None || *self == *other
    }

    fn join(&self, _alloc: Global, other: &Self) -> Result<Self, AllocError> {
        Ok(if *self == *other { *self } else { Source::None })
    }
}
