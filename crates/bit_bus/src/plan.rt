ghost use Rattle.std.specs.Prelude.{◌≡◌, ◌<◌, ◌↔◌, IsTrue, IsSome, IfSome, Some, length, slice_get};
ghost use Rattle.std.specs.Prelude.{slice_index};
ghost use Rattle.bit_bus.specs.Planned.{planned, IsPlan, EndsOnce, ends_frame, are_inside};
ghost use Rattle.bit_bus.specs.Planned.{are_short};

use std::marker::Model;

/// One step of a frame, which the clock drives (UM10204, 3.1.3 and 3.1.4).
#[derive(Clone, Copy, Debug, PartialEq, Eq)]
pub enum Slot {
    /// A bit, with the level of SDA.
    Bit(bool),
    /// A repeated START.
    Again,
    /// The STOP.
    End,
}

/// The slots of a frame, each with its hold: the number of ticks for which the clock is held low
/// longer (UM10204, 3.1.9). There are 1 to 4096 slots, the last is the only `End`, and each hold is
/// at most 6999.
#[derive(Debug, Drop)]
pub struct Plan {
    slots: Vec<Slot>,
    holds: Vec<u16>,
}

impl Model for Plan {
    ghost use Rattle.std.specs.Prelude.{List, ℕ};
    ghost use Rattle.bit_bus.specs.declared.plan.Slot.{Slot};

    ghost Value = { List (Slot × ℕ) };

    ghost use Rattle.bit_bus.specs.Planned.{planned, IsPlan};

    ghost view = { λ p. planned p.slots.items p.holds.items };

    ghost invariant = { λ p. IsPlan (planned p.slots.items p.holds.items) };
}

/// The most slots of a plan.
pub const MOST_SLOTS: usize = 4096;

/// The longest hold of a slot, in ticks.
pub const LONGEST_HOLD: u16 = 6999;

fn is_end(slot: Slot) -> bool
    ensures { result ≡ ends_frame slot }
{
    match slot {
        Slot::End => true,
        _ => false,
    }
}

/// Whether none of the slots is the STOP. It looks at all of them, many at a time.
fn are_inside(slots: &[Slot]) -> bool
    ensures { result ≡ are_inside slots.now }
{
    let mut inside = true;
    for slot in slots {
        inside &= !is_end(*slot);
    }
    inside
}

fn are_short(holds: &[u16]) -> bool
    ensures { result ≡ are_short holds.now }
{
    holds.iter().all(|hold| *hold <= LONGEST_HOLD)
}

fn ends_once(slots: &[Slot]) -> bool
    ensures { IsTrue result ↔ EndsOnce slots.now }
{
    let Some((last, inside)) = slots.split_last() else {
        return false;
    };
    is_end(*last) && are_inside(inside)
}

fn is_plan(slots: &[Slot], holds: &[u16]) -> bool
    ensures { IsTrue result ↔ IsPlan (planned slots.now holds.now) }
{
    if slots.len() > MOST_SLOTS {
        return false;
    }
    let counted = &holds[..holds.len().min(slots.len())];
    ends_once(slots) && are_short(counted)
}

#[inline(always)]
pub(crate) fn hold_at(holds: &[u16], place: usize) -> u16
    ensures { result ≡ slice_index holds.now place }
{
    holds.get(place).copied().unwrap_or(0)
}

impl Plan {
    /// The plan of these slots, or None where they can't be driven so. A missing hold is 0, and
    /// holds past the last slot aren't looked at. Takes no memory.
    pub fn new(slots: Vec<Slot>, holds: Vec<u16>) -> Option<Plan>
        ensures valid { IsSome result ↔ IsPlan (planned slots.items holds.items) }
        ensures plan { IfSome result (λ plan. plan ≡ planned slots.items holds.items) }
    {
        if is_plan(&slots, &holds) {
            Some(Plan { slots, holds })
        } else {
            None
        }
    }

    /// The slots, and the holds of the first of them.
    pub(crate) fn parts(&self) -> (&[Slot], &[u16])
        ensures parts { planned result.0.now result.1.now ≡ self.now }
        ensures valid { IsPlan self.now }
    {
        (&self.slots, &self.holds)
    }
}
