ghost use Rattle.std.specs.Prelude.{◌≡◌, IfOk, option_to_list};
ghost use Rattle.wires.specs.Events.{events_between, events_of};

use crate::lines::Sample;
use std::alloc::{AllocError, Global};

/// What happens on SCL and SDA between two neighbouring samples (UM10204, 3.1.3 and 3.1.4).
#[derive(Clone, Copy, Debug, PartialEq, Eq)]
pub enum Event {
    /// SDA falls while SCL is high.
    Start,
    /// SDA rises while SCL is high.
    Stop,
    /// SCL rises, with the level of SDA after it.
    Rise(bool),
}

/// What happens between a sample and the next, if anything.
pub fn event_between(before: Sample, after: Sample) -> Option<Event>
    ensures { option_to_list result ≡ events_between before after }
{
    match (before.scl, after.scl) {
        (true, true) => match (before.sda, after.sda) {
            (true, false) => Some(Event::Start),
            (false, true) => Some(Event::Stop),
            _ => None,
        },
        (false, true) => Some(Event::Rise(after.sda)),
        _ => None,
    }
}

/// The events of a list of samples, one sample a tick, in order. Fails only for want of memory.
pub fn events(alloc: Global, samples: &[Sample]) -> Result<Vec<Event>, AllocError>
    ensures { IfOk result (λ events. events.items ≡ events_of samples.now) }
{
    let mut events = Vec::new(alloc);
    let [first, rest @ ..] = samples else {
        return Ok(events);
    };
    let mut before = *first;
    for after in rest {
        if let Some(event) = event_between(before, *after) {
            events.push(event)?;
        }
        before = *after;
    }
    Ok(events)
}
