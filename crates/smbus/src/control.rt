ghost use Rattle.std.specs.Prelude.{◌≡◌, ◌≢◌, ◌<◌, ◌+◌, length, take, MatchResult};
ghost use Rattle.smbus.specs.Control.{control_after, control_step};

use wires::Event;

/// What decides whether an event goes on (UM10204, 3.1.4 to 3.1.6), without the bytes.
#[derive(Clone, Copy)]
pub(crate) enum Control {
    /// No frame is open.
    Free,
    /// A START stood last.
    Begun,
    /// So many bits since the last whole byte or START, 1 to 9, and the level of the last.
    Bits(u8, bool),
}

impl Control {
    fn after(self, event: Event) -> Option<Control>
        ensures { result ≡ control_step self event }
    {
        match (self, event) {
            (Control::Free, Event::Start) => Some(Control::Begun),
            (Control::Begun, Event::Rise(bit)) => Some(Control::Bits(1, bit)),
            (Control::Bits(count, last), Event::Start) => {
                if last && count == 1 {
                    Some(Control::Begun)
                } else {
                    None
                }
            }
            (Control::Bits(_, last), Event::Stop) => {
                if last { None } else { Some(Control::Free) }
            }
            (Control::Bits(count, _), Event::Rise(bit)) => {
                if count < 9 {
                    Some(Control::Bits(count + 1, bit))
                } else {
                    Some(Control::Bits(1, bit))
                }
            }
            _ => None,
        }
    }

    /// The control after events, or the place of the first that doesn't go on.
    pub(crate) fn over(self, events: &[Event]) -> Result<Control, usize>
        ensures after { MatchResult result (λ c. control_after events.now self ≡ Some c)
            (λ place. (place < length events.now)
            × (control_after (take place events.now) self ≢ None)
            × (control_after (take (place + 1) events.now) self ≡ None)) }
    {
        let mut control = self;
        for (place, event) in events.iter().enumerate() {
            let Some(next) = control.after(*event) else {
                return Err(place);
            };
            control = next;
        }
        Ok(control)
    }
}
