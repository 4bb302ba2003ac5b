//! What happens at the places of a run or of a way, and how often.

use crate::Result;

/// What happened at a place, so many times.
#[derive(Clone, Copy)]
pub(crate) struct Happened<W> {
    pub place: usize,
    pub what: W,
    pub times: usize,
}

/// Counts once more what happened at a place, behind what happened first before it.
pub(crate) fn count<W: Copy + PartialEq>(
    all: &mut Vec<Happened<W>>,
    place: usize,
    what: W,
) -> Result<()> {
    for known in all.iter_mut() {
        if known.place == place && known.what == what {
            known.times = known.times.saturating_add(1);
            return Ok(());
        }
    }
    all.push(Happened {
        place,
        what,
        times: 1,
    })?;
    Ok(())
}

/// Adds how often something happened, where that is more than once.
pub(crate) fn push_times(text: &mut String, times: usize) -> Result<()> {
    if times > 1 {
        write!(text, " ({times} times)")
    } else {
        Ok(())
    }
}
