ghost use Rattle.std.specs.Prelude.{◌≡◌, ◌↔◌, IsTrue, length};
ghost use Rattle.board.specs.Boards.{Board};
ghost use Rattle.facts.specs.domain.Covering.{CoversByPart, IsSized, IsAlike, AdmitsAt, Situation};
ghost use Rattle.facts.specs.domain.Rows.{row_view, RowCovers};

use crate::domain::part::{Part, join_all, join_into};
use crate::domain::row::Row;
use std::alloc::{AllocError, Global};

/// Whether two rows have as many sets, of targets.
fn are_alike(row: &Row, other: &Row) -> bool
    ensures { IsTrue result ↔ ((length row.now.pages.items ≡ length other.now.pages.items)
        × (length row.now.protects.items ≡ length other.now.protects.items)) }
{
    row.pages.len() == other.pages.len() && row.protects.len() == other.protects.len()
}

impl Row {
    fn parts_cover(&self, other: &Row) -> bool
        ensures { IsTrue result ↔ CoversByPart self.now other.now }
    {
        self.is_sized();
        other.is_sized();
        are_alike(self, other) && self.uncovered(other).is_none()
    }
}

/// A row covers another of the same board part by part. Base and coefficients aren't compared, and
/// those of a join are the first row's.
impl Part for Row {
    ghost use Rattle.facts.specs.domain.Covering.{CoversByPart, IsAlike, AdmitsAt, Situation};

    ghost Point = { Situation };

    ghost Admits = { AdmitsAt };

    ghost Covers = { CoversByPart };

    ghost Alike = { IsAlike };

    fn covers(&self, other: &Self) -> bool
        ensures exact { IsTrue result ↔ CoversByPart self.now other.now }
        ensures sound { IsTrue result → (at : Situation) → AdmitsAt other.now at
            → AdmitsAt self.now at }
        ensures rows { (b : Board) → IsSized b self.now → IsSized b other.now
            → IsTrue result ↔ RowCovers b (row_view self.now) (row_view other.now) }
    {
        self.parts_cover(other)
    }

    fn join(&self, alloc: Global, other: &Self) -> Result<Self, AllocError> {
        let pages = join_all(alloc, &self.pages, &other.pages)?;
        let protects = join_all(alloc, &self.protects, &other.protects)?;
        let mut regs = self.regs;
        join_into(alloc, &mut regs, &other.regs)?;
        let mut sources = self.sources;
        join_into(alloc, &mut sources, &other.sources)?;
        let mut counters = self.counters;
        join_into(alloc, &mut counters, &other.counters)?;
        Ok(Row {
            pages,
            protects,
            good: self.good.join(alloc, &other.good)?,
            regs,
            sources,
            counters,
            lost: self.lost.join(alloc, &other.lost)?,
            base: self.base,
            coeffs: self.coeffs,
            lost_coeff: self.lost_coeff,
        })
    }
}
