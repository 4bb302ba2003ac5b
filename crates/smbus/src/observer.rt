ghost use Rattle.std.specs.Prelude.{◌≡◌, ◌≢◌, ◌+◌, ◌≤◌, ◌++◌, Some, None, [], All, length};
ghost use Rattle.std.specs.Prelude.{IfOk, IfErr, MatchOption, drop, take};
ghost use Rattle.wires.specs.declared.event.Event.TheVariants.{Stop};
ghost use Rattle.smbus.specs.Control.{IsBehindStop, control_after};
ghost use Rattle.smbus.specs.Frames.{AreFrames};
ghost use Rattle.smbus.specs.Observers.{FeedFault, FinishFault, IsObserving, IsTaken, most_events};
ghost use Rattle.smbus.specs.declared.control.Control.TheVariants.{Free};

use crate::control::Control;
use crate::fault::ObserveFault;
use crate::frame::Frame;
use crate::observing::frames_of;
use std::alloc::{AllocError, Global};
use std::marker::Model;
use wires::Event;

/// Reads frames from a stream of events that comes in pieces (UM10204, 3.1.4 to 3.1.6). How the
/// stream is cut doesn't matter.
#[derive(Drop)]
pub struct Observer {
    alloc: Global,
    /// The number of events in pieces that were taken.
    fed: usize,
    /// The place of the first event that doesn't go on, where there was one.
    failed: Option<usize>,
    /// The events since the last STOP.
    rest: Vec<Event>,
    /// The control after the rest.
    control: Control,
}

impl Model for Observer {
    ghost use Rattle.smbus.specs.Observers.{Observing};
    ghost use Rattle.smbus.specs.Kept.{IsKept};

    ghost Value = { Observing };

    ghost view = { λ o. record { fed = o.fed; failed = o.failed; rest = o.rest.items } };

    ghost invariant = { λ o.
        IsKept (record { fed = o.fed; failed = o.failed; rest = o.rest.items }) o.control };
}

/// The place behind the last STOP of events, or None where none is a STOP.
fn behind_last_stop(events: &[Event]) -> Option<usize>
    ensures { MatchOption result (All (λ e. e ≢ Stop) events.now) (IsBehindStop events.now) }
{
    let mut behind = None;
    for (place, event) in events.iter().enumerate() {
        if matches!(event, Event::Stop) {
            behind = Some(place + 1);
        }
    }
    behind
}

/// The frames of the rest and of the piece up to a place, and a list of what is behind it.
fn frames_and_rest(
    alloc: Global,
    rest: &[Event],
    piece: &[Event],
    behind: usize,
) -> Result<(Vec<Frame>, Vec<Event>), AllocError>
    requires within { behind ≤ length piece.now }
    requires whole { control_after (rest.now ++ take behind piece.now) Free ≡ Some Free }
    ensures frames { IfOk result (λ r. AreFrames (rest.now ++ take behind piece.now) r.0.items) }
    ensures rest { IfOk result (λ r. r.1.items ≡ drop behind piece.now) }
{
    let frames = frames_of(alloc, rest, &piece[..behind])?;
    let mut later = Vec::new(alloc);
    later.extend_from_slice(&piece[behind..])?;
    Ok((frames, later))
}

impl Observer {
    /// An observer that was fed no event. Takes no memory.
    pub fn new(alloc: Global) -> Observer
        ensures { result ≡ record { fed = 0; failed = None; rest = [] } }
    {
        Observer {
            alloc,
            fed: 0,
            failed: None,
            rest: Vec::new(alloc),
            control: Control::Free,
        }
    }

    /// Takes the next events of the stream, at most 2^40 in all, and gives the frames that end in
    /// them. The time that it takes grows with these events, and with the frame that ends in them.
    ///
    /// NotFrames tells the first place, counted from the first event that was ever fed, from which
    /// on no frames can go on so; it is answered again from then on. Memory is answered where a
    /// growth was refused, and nothing changes.
    pub fn feed(&mut self, piece: &[Event]) -> Result<Vec<Frame>, ObserveFault>
        requires { self.old.fed + length piece.now ≤ most_events }
        ensures taken { IfOk result (λ frames. IsTaken self.old piece.now frames.items self.new) }
        ensures fault { IfErr result (FeedFault self.old piece.now self.new) }
    {
        if let Some(place) = self.failed {
            return Err(ObserveFault::NotFrames(place));
        }
        let control = match self.control.over(piece) {
            Ok(control) => control,
            Err(within) => {
                let place = self.fed + within;
                self.failed = Some(place);
                return Err(ObserveFault::NotFrames(place));
            }
        };
        let frames = match behind_last_stop(piece) {
            Some(behind) => {
                let (frames, rest) = frames_and_rest(self.alloc, &self.rest, piece, behind)?;
                self.rest = rest;
                frames
            }
            None => {
                self.rest.extend_from_slice(piece)?;
                Vec::new(self.alloc)
            }
        };
        self.fed += piece.len();
        self.control = control;
        Ok(frames)
    }

    /// The number of events in the pieces that `feed` took.
    pub fn fed(&self) -> u64
        ensures fed { result ≡ self.now.fed }
        ensures kept { IsObserving self.now }
    {
        self.fed as u64
    }

    /// Ok where the stream may end here: each frame has ended, and no NotFrames was answered.
    /// Otherwise NotFrames with the place that `feed` told or, where it told none, the number of
    /// events that were fed. Never Memory.
    pub fn finish(&self) -> Result<(), ObserveFault>
        ensures ok { IfOk result (λ _. (self.now.failed ≡ None) × (self.now.rest ≡ [])) }
        ensures fault { IfErr result (FinishFault self.now) }
    {
        match self.failed {
            Some(place) => Err(ObserveFault::NotFrames(place)),
            None if self.rest.is_empty() => Ok(()),
            None => Err(ObserveFault::NotFrames(self.fed)),
        }
    }
}
