ghost use Rattle.bit_bus.specs.PlannedSlots.{SlotsAreKept, HoldsAreKept};
ghost use Rattle.bit_bus.specs.SampleCounts.{LevelsAreFew};
ghost use Rattle.bit_bus.specs.Word.{ReadsBack, LeavesBusFree, CutIsSeen, JoinsSilently};

/// After an idle sample the levels of slots are read as their event word, whatever the slots; those
/// of a plan end with both lines high; the clock is seen low for too long exactly where a slot is
/// cut; and samples that end so and are followed by an idle one have no event in between. The START
/// takes one sample, and each slot at most three and its hold.
pub fn reads_back()
    ensures word { ReadsBack }
    ensures free { LeavesBusFree }
    ensures cut { CutIsSeen }
    ensures joined { JoinsSilently }
    ensures few { LevelsAreFew }
{}

/// A plan has the slots that it is made of, in order, and holds none of them longer.
pub fn plans_keep_slots()
    ensures slots { SlotsAreKept }
    ensures holds { HoldsAreKept }
{}
