//! What holds of all plans and all volts.

ghost use Rattle.plans.specs.OneReading.{BadIsNoPlan, FirstBadIsOne};
ghost use Rattle.plans.specs.Volts.{NearestIsFound, NearestIsOne};

/// Volts are read as the mantissa whose voltage is nearest, and of two as the higher one.
pub fn volts_are_nearest()
    ensures found { NearestIsFound }
    ensures one { NearestIsOne }
{}

/// Where a line of a text is the first bad one, the text is no plan, and no other line is that.
pub fn texts_have_one_reading()
    ensures none { BadIsNoPlan }
    ensures one { FirstBadIsOne }
{}
