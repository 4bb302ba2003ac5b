//! What every part of a row can do.

ghost use Rattle.std.specs.Prelude.{◌↔◌, ℕ, length, IsTrue, IfOk, OnOk};
ghost use Rattle.facts.specs.domain.Rows.{AllCover};
ghost use Rattle.facts.specs.domain.Joining.{AreJoined};

use std::alloc::{AllocError, Global};

/// A part of what is known. It admits values.
pub trait Part {
    /// What the part speaks of.
    ghost Point: { Type 0 };

    /// The part admits the value.
    ghost Admits: { Self → Point → Type 0 };

    /// The first part covers the second.
    ghost Covers: { Self → Self → Type 0 };

    /// The parts can be joined.
    ghost Alike: { Self → Self → Type 0 };

    /// Whether it covers another part: then it admits all that the other admits.
    fn covers(&self, other: &Self) -> bool
        ensures exact { IsTrue result ↔ Covers self.now other.now }
        ensures sound { IsTrue result → (v : Point) → Admits other.now v → Admits self.now v };

    /// The least part that covers both.
    fn join(&self, alloc: Global, other: &Self) -> Result<Self, AllocError>
    where
        Self: Sized,
        requires { Alike self.now other.now }
        ensures first { IfOk result (λ r. Covers r self.now) }
        ensures second { IfOk result (λ r. Covers r other.now) }
        ensures least { IfOk result
            (λ r. (u : Self) → Covers u self.now → Covers u other.now → Covers u r) };
}

/// Each part becomes the join with the one at its place in another list.
pub(crate) fn join_into<P: Part + Copy>(
    alloc: Global,
    parts: &mut [P],
    others: &[P],
) -> Result<(), AllocError>
    requires alike { AllCover P.Alike parts.old others.now }
    ensures { OnOk result (AreJoined P.Covers parts.new parts.old others.now) }
{
    for i in 0..parts.len() {
        parts[i] = parts[i].join(alloc, &others[i])?;
    }
    Ok(())
}

/// The joins with the parts at their places in another list.
pub(crate) fn join_all<P: Part + Copy>(
    alloc: Global,
    parts: &[P],
    others: &[P],
) -> Result<Vec<P>, AllocError>
    requires alike { AllCover P.Alike parts.now others.now }
    ensures { IfOk result (λ joined. AreJoined P.Covers joined.items parts.now others.now) }
{
    let mut joined = Vec::new(alloc);
    for i in 0..parts.len() {
        joined.push(parts[i].join(alloc, &others[i])?)?;
    }
    Ok(joined)
}
