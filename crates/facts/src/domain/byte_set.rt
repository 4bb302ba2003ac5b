//! Sets of bytes of one kind.

ghost use Rattle.std.specs.Prelude.{◌≡◌, ◌<◌, ◌≤◌, ◌^◌, ◌==◌, ◌&&◌, ◌||◌, ◌↔◌, not, nat_lt, ℕ};
ghost use Rattle.std.specs.Prelude.{IsTrue, IfOk, option_map};
ghost use Rattle.facts.specs.domain.Sets.{empty, gains, keeps, set_of, values_in, HasValue};
ghost use Rattle.facts.specs.transfer.Edges.{first_in, last_in, bounds};
ghost use Rattle.facts.specs.domain.Rows.{SetCovers};
ghost use Rattle.facts.specs.transfer.Tests.{asked};

use crate::domain::kind::{Choice, Kind};
use crate::domain::mask::{has_all, has_place, lowest, with_place, without_place};
use crate::domain::part::Part;
use crate::domain::span::Span;
use crate::transfer::test::{Test, is_asked};
use std::alloc::{AllocError, Global};
use std::marker::{Model, PhantomData};

/// A set of bytes of one kind. Contracts see a number with a bit for each value, at its place.
#[derive(Clone, Copy, Debug, PartialEq, Eq)]
pub struct ByteSet<K: Kind> {
    bits: u64,
    kind: PhantomData<K>,
}

impl<K: Kind> Model for ByteSet<K> {
    ghost use Rattle.std.specs.Prelude.{ℕ, ◌<◌, ◌^◌};

    ghost Value = { ℕ };

    ghost view = { λ s. s.bits };

    ghost invariant = { λ s. s.bits < 2 ^ K.places };

    ghost inverse = { λ n. record { bits = n; kind = record {} } };
}

fn set<K: Kind>(bits: u64) -> ByteSet<K>
    requires { bits < 2 ^ K.places }
    ensures { result ≡ bits }
{
    ByteSet {
        bits,
        kind: PhantomData,
    }
}

impl<K: Kind> ByteSet<K> {
    /// The set of these values; `None` where one isn't of the kind.
    pub fn of(_alloc: Global, values: &[u8]) -> Result<Option<Self>, AllocError>
        ensures { IfOk result (λ s. option_map (values_in K.is_value K.place) s
            ≡ set_of K.is_value values.now) }
    {
        Ok(set_of(values))
    }

    pub fn empty() -> Self
        ensures { values_in K.is_value K.place result ≡ empty }
    {
        set(0)
    }

    /// The values at the first so many places.
    pub(crate) fn first(count: u8) -> Self
        requires few { count < 64 }
        requires here { count ≤ K.places }
        ensures { values_in K.is_value K.place result
            ≡ λ v. K.is_value v && nat_lt (K.place v) count }
    {
        set(lowest(count))
    }

    /// Whether some value is in the set.
    pub fn has_some(&self) -> bool
        ensures { IsTrue result ↔ HasValue (values_in K.is_value K.place self.now) }
    {
        self.bits != 0
    }

    /// Whether a value is in the set.
    pub fn contains(&self, value: u8) -> bool
        ensures { result ≡ values_in K.is_value K.place self.now value }
    {
        K::is_value(value) && has_place(self.bits, K::place(value))
    }

    pub fn with(self, value: u8) -> Self
        requires { IsTrue (K.is_value value) }
        ensures { values_in K.is_value K.place result
            ≡ gains (values_in K.is_value K.place self) value }
    {
        set(with_place(self.bits, K::place(value)))
    }

    pub(crate) fn without(self, value: u8) -> Self
        requires { IsTrue (K.is_value value) }
        ensures { values_in K.is_value K.place result
            ≡ keeps (values_in K.is_value K.place self) (λ x. not (x == value)) }
    {
        set(without_place(self.bits, K::place(value)))
    }

    /// Whether it has all values of another.
    pub(crate) fn has_all_of(self, other: Self) -> bool
        ensures { IsTrue result ↔ SetCovers (values_in K.is_value K.place self)
            (values_in K.is_value K.place other) }
    {
        has_all(self.bits, other.bits)
    }

    /// The values that are in one of both.
    pub(crate) fn union(self, other: Self) -> Self
        ensures { values_in K.is_value K.place result ≡ λ v.
            values_in K.is_value K.place self v || values_in K.is_value K.place other v }
    {
        set(self.bits | other.bits)
    }

    /// The values that are in both.
    pub(crate) fn common(self, other: Self) -> Self
        ensures { values_in K.is_value K.place result ≡ λ v.
            values_in K.is_value K.place self v && values_in K.is_value K.place other v }
    {
        set(self.bits & other.bits)
    }
}

impl<K: Choice> Part for ByteSet<K> {
    ghost use Rattle.std.specs.Prelude.{ℕ, IsTrue};
    ghost use Rattle.facts.specs.domain.Sets.{values_in};
    ghost use Rattle.facts.specs.domain.Rows.{SetCovers};

    ghost Point = { ℕ };

    ghost Admits = { λ s v. IsTrue (values_in K.is_value K.place s v) };

    ghost Covers = { λ s u. SetCovers (values_in K.is_value K.place s)
        (values_in K.is_value K.place u) };

    ghost Alike = { λ s u. Unit {0} };

    fn covers(&self, other: &Self) -> bool {
        self.has_all_of(*other)
    }

    fn join(&self, _alloc: Global, other: &Self) -> Result<Self, AllocError> {
        Ok(self.union(*other))
    }
}

/// The set of these values; `None` where one isn't of the kind.
fn set_of<K: Kind>(values: &[u8]) -> Option<ByteSet<K>>
    ensures { option_map (values_in K.is_value K.place) result ≡ set_of K.is_value values.now }
{
    let mut set = ByteSet::empty();
    for value in values {
        if !K::is_value(*value) {
            return None;
        }
        set = set.with(*value);
    }
    Some(set)
}

/// Its least value, or 255.
pub(crate) fn least<K: Kind>(set: ByteSet<K>) -> u8
    ensures { result ≡ first_in (values_in K.is_value K.place set) 0 255 }
{
    for value in 0..255 {
        if set.contains(value) {
            return value;
        }
    }
    255
}

/// Its greatest value, or 0.
fn greatest<K: Kind>(set: ByteSet<K>) -> u8
    ensures { result ≡ last_in (values_in K.is_value K.place set) 255 }
{
    for value in (1..=255).rev() {
        if set.contains(value) {
            return value;
        }
    }
    0
}

/// From its least to its greatest value.
#[tactic(auto, unfolding(crate::specs::transfer::Edges::bounds))]
pub(crate) fn bounds<K: Kind>(set: ByteSet<K>) -> Span
    ensures { result ≡ bounds (values_in K.is_value K.place set) }
{
    Span {
        lo: u16::from(least(set)),
        hi: u16::from(greatest(set)),
    }
}

/// The set, without a value that isn't as a test asks.
fn checked<K: Kind>(set: ByteSet<K>, test: Test, value: u8) -> ByteSet<K>
    ensures { (x : ℕ) → values_in K.is_value K.place result x
        ≡ (values_in K.is_value K.place set x && (asked test x || not (x == value))) }
{
    if set.contains(value) && !is_asked(test, u16::from(value)) {
        set.without(value)
    } else {
        set
    }
}

/// Those of its values that are as a test asks.
pub(crate) fn passing<K: Kind>(set: ByteSet<K>, test: Test) -> ByteSet<K>
    ensures { values_in K.is_value K.place result
        ≡ keeps (values_in K.is_value K.place set) (asked test) }
{
    let mut kept = set;
    for value in 0..=255 {
        kept = checked(kept, test, value);
    }
    kept
}
