ghost use Rattle.std.specs.Prelude.{◌≡◌, ◌≢◌, ◌≤◌, ◌++◌, ◌∷◌, [], Bool, List, length, IsTrue};
ghost use Rattle.std.specs.Prelude.{IfOk, IfErr, OnOk, IfSome, IfNone, MatchBool, MatchOption};
ghost use Rattle.wires.specs.declared.event.Event.TheVariants.{Rise};
ghost use Rattle.wires.specs.Events.{events_between};
ghost use Rattle.smbus.specs.Shown.{Shown};
ghost use Rattle.smbus.specs.Frames.{AreFrames, FaultIs, rises};
ghost use Rattle.smbus.specs.Machine.{byte_of, state_of, reading_of, opened, risen};
ghost use Rattle.smbus.specs.Machine.{run, start, step, Leads};
ghost use Rattle.smbus.specs.Clocks.{AreClocks, IsNextByte, events_in};
ghost use Rattle.smbus.specs.Control.{control_after};
ghost use Rattle.smbus.specs.declared.control.Control.TheVariants.{Free};
ghost use Rattle.smbus.specs.declared.fault.ObserveFault.TheVariants.{Memory};

use crate::fault::ObserveFault;
use crate::frame::{Frame, Segment};
use std::alloc::{AllocError, Global};
use std::mem;
use wires::{Event, Run, Sample, event_between};

/// The beginning of a frame: its segments before the last, and of the last one the bytes and the
/// bits after them.
#[derive(Drop)]
struct OpenFrame {
    segments: Vec<Segment>,
    bytes: Vec<(u8, bool)>,
    bits: Vec<bool>,
}

/// What was read so far.
#[derive(Drop)]
struct Reading {
    frames: Vec<Frame>,
    open_frame: Option<OpenFrame>,
}

/// Eight bits, and the ninth, which is low for an acknowledge.
fn byte_from(bits: &[bool]) -> (u8, bool)
    requires { length bits.now ≡ 9 }
    ensures { result ≡ byte_of bits.now }
{
    let mut byte = 0;
    for bit in &bits[..8] {
        byte = 2 * byte + u8::from(*bit);
    }
    (byte, !bits[8])
}

/// The byte of nine rises, and its acknowledge; None where one of these events is no rise.
#[inline(always)]
fn byte_of_rises(nine: &[Event]) -> Option<(u8, bool)>
    requires { length nine.now ≡ 9 }
    ensures { IfSome result
        (λ byte. (bits : List Bool) × (nine.now ≡ rises bits) × (byte ≡ byte_of bits)) }
{
    let mut number: u16 = 0;
    for event in nine {
        let Event::Rise(bit) = event else {
            return None;
        };
        number = 2 * number + u16::from(*bit);
    }
    Some(((number / 2) as u8, number % 2 == 0))
}

/// The number that the nine clocks behind the first of runs spell, where SCL falls and rises so.
#[inline(always)]
fn clocked_number(runs: &[Run]) -> Option<u16>
    requires { 19 ≤ length runs.now }
    ensures { IfSome result (AreClocks runs.now 9) }
{
    if !runs[0].sample.scl {
        return None;
    }
    let mut number: u16 = 0;
    for place in 0..9 {
        let low = runs[2 * place + 1].sample;
        let high = runs[2 * place + 2].sample;
        if low.scl || !high.scl {
            return None;
        }
        number = 2 * number + u16::from(high.sda);
    }
    Some(number)
}

/// The byte of nine clocks, and its acknowledge, where a clock follows them: the ninth may be the
/// STOP's.
#[inline(always)]
fn byte_of_clocks(runs: &[Run]) -> Option<(u8, bool)>
    ensures byte { IfSome result (IsNextByte runs.now) }
    ensures long { IfSome result (λ byte. 18 ≤ length runs.now) }
{
    if runs.len() < 21 {
        return None;
    }
    let Some(number) = clocked_number(runs) else {
        return None;
    };
    let low = runs[19].sample;
    let high = runs[20].sample;
    if low.scl || !high.scl {
        return None;
    }
    Some(((number / 2) as u8, number % 2 == 0))
}

fn is_rise(event: Event) -> bool
    ensures { IsTrue result → (bit : Bool) × (event ≡ Rise bit) }
{
    matches!(event, Event::Rise(_))
}

impl OpenFrame {
    fn new(alloc: Global) -> OpenFrame
        ensures { (frames : List Shown) → state_of frames (Some result) ≡ opened frames }
    {
        OpenFrame {
            segments: Vec::new(alloc),
            bytes: Vec::new(alloc),
            bits: Vec::new(alloc),
        }
    }

    fn rise(&mut self, bit: bool) -> Result<(), AllocError>
        ensures { OnOk result ((frames : List Shown) → state_of frames (Some self.new)
            ≡ risen bit (state_of frames (Some self.old))) }
    {
        if self.bits.len() == 9 {
            let byte = byte_from(&self.bits);
            self.bytes.push(byte)?;
            self.bits.clear();
        }
        self.bits.push(bit)?;
        Ok(())
    }

    /// Takes the whole bytes that the events begin with, behind no bits, and gives what is left. A
    /// rise has to follow each of them, since a ninth may be the STOP's.
    fn take_bytes<'a>(&mut self, events: &'a [Event]) -> Result<&'a [Event], AllocError>
        requires { self.old.bits.items ≡ [] }
        ensures leads { IfOk result (λ rest. (frames : List Shown)
            → Leads (state_of frames (Some self.old)) events.now
            (state_of frames (Some self.new)) rest.now) }
        ensures fewer { IfOk result (λ rest. length rest.now ≤ length events.now) }
    {
        self.bytes.reserve(events.len() / 9)?;
        let mut rest = events;
        while rest.len() > 9 {
            let (nine, later) = rest.split_at(9);
            if !is_rise(later[0]) {
                break;
            }
            let Some(byte) = byte_of_rises(nine) else {
                break;
            };
            self.bytes.push(byte)?;
            rest = later;
        }
        Ok(rest)
    }

    /// Takes the whole bytes that the clocks of runs begin with, behind no bits, and gives what is
    /// left.
    fn take_clocks<'a>(&mut self, runs: &'a [Run]) -> Result<&'a [Run], AllocError>
        requires { self.old.bits.items ≡ [] }
        ensures leads { IfOk result (λ rest. (frames : List Shown)
            → Leads (state_of frames (Some self.old)) (events_in runs.now)
            (state_of frames (Some self.new)) (events_in rest.now)) }
        ensures fewer { IfOk result (λ rest. length rest.now ≤ length runs.now) }
    {
        self.bytes.reserve(runs.len() / 18)?;
        let mut rest = runs;
        while let Some(byte) = byte_of_clocks(rest) {
            self.bytes.push(byte)?;
            rest = &rest[18..];
        }
        Ok(rest)
    }

    /// Takes a repeated START, and answers whether one may stand here.
    fn start_again(&mut self, alloc: Global) -> Result<bool, AllocError>
        ensures { IfOk result (λ taken. (frames : List Shown) → MatchBool taken
            (step (state_of frames (Some self.old)) Event.Start
            ≡ Some (state_of frames (Some self.new)))
            (step (state_of frames (Some self.old)) Event.Start ≡ None)) }
    {
        if self.bits.len() != 1 {
            return Ok(false);
        }
        if !self.bits[0] {
            return Ok(false);
        }
        let bytes = mem::replace(&mut self.bytes, Vec::new(alloc));
        self.segments.push(Segment { bytes })?;
        self.bits.clear();
        Ok(true)
    }

    /// The frame that a STOP ends, if one may stand here.
    fn ended(self) -> Result<Option<Frame>, AllocError>
        ensures { IfOk result (λ frame. (frames : List Shown) → MatchOption frame
            (step (state_of frames (Some self)) Event.Stop ≡ None)
            (λ frame. step (state_of frames (Some self)) Event.Stop
            ≡ Some (state_of (frames ++ frame ∷ []) None))) }
    {
        let OpenFrame {
            mut segments,
            bytes,
            bits: mut tail,
        } = self;
        let Some(last) = tail.pop() else {
            return Ok(None);
        };
        if last {
            return Ok(None);
        }
        segments.push(Segment { bytes })?;
        Ok(Some(Frame { segments, tail }))
    }
}

impl Reading {
    fn new(alloc: Global) -> Reading
        ensures { reading_of result ≡ start }
    {
        Reading {
            frames: Vec::new(alloc),
            open_frame: None,
        }
    }

    fn stop(&mut self) -> Result<bool, AllocError>
        ensures { IfOk result (λ taken. MatchBool taken (step (reading_of self.old) Event.Stop
            ≡ Some (reading_of self.new)) (step (reading_of self.old) Event.Stop ≡ None)) }
    {
        let Some(begun) = self.open_frame.take() else {
            return Ok(false);
        };
        let Some(frame) = begun.ended()? else {
            return Ok(false);
        };
        self.frames.push(frame)?;
        Ok(true)
    }

    fn accept(&mut self, alloc: Global, event: Event) -> Result<bool, AllocError>
        ensures { IfOk result (λ taken. MatchBool taken (step (reading_of self.old) event
            ≡ Some (reading_of self.new)) (step (reading_of self.old) event ≡ None)) }
    {
        match event {
            Event::Start => match &mut self.open_frame {
                Some(frame) => frame.start_again(alloc),
                None => {
                    self.open_frame = Some(OpenFrame::new(alloc));
                    Ok(true)
                }
            },
            Event::Rise(bit) => match &mut self.open_frame {
                Some(frame) => {
                    frame.rise(bit)?;
                    Ok(true)
                }
                None => Ok(false),
            },
            Event::Stop => self.stop(),
        }
    }

    /// Takes the whole bytes that the events begin with, where no bits stand before them, and
    /// gives what is left.
    #[inline(always)]
    fn take_bytes<'a>(&mut self, events: &'a [Event]) -> Result<&'a [Event], AllocError>
        ensures leads { IfOk result
            (λ rest. Leads (reading_of self.old) events.now (reading_of self.new) rest.now) }
        ensures fewer { IfOk result (λ rest. length rest.now ≤ length events.now) }
    {
        match &mut self.open_frame {
            Some(frame) if frame.bits.is_empty() => frame.take_bytes(events),
            _ => Ok(events),
        }
    }

    /// Takes the whole bytes that the clocks of runs begin with, where no bits stand before them,
    /// and gives what is left.
    #[inline(always)]
    fn take_clocks<'a>(&mut self, runs: &'a [Run]) -> Result<&'a [Run], AllocError>
        ensures leads { IfOk result (λ rest. Leads (reading_of self.old) (events_in runs.now)
            (reading_of self.new) (events_in rest.now)) }
        ensures fewer { IfOk result (λ rest. length rest.now ≤ length runs.now) }
    {
        match &mut self.open_frame {
            Some(frame) if frame.bits.is_empty() => frame.take_clocks(runs),
            _ => Ok(runs),
        }
    }

    /// Takes what happens between two samples, if anything, and answers whether that goes on.
    fn advance(&mut self, alloc: Global, before: Sample, after: Sample) -> Result<bool, AllocError>
        ensures { IfOk result (λ taken. MatchBool taken
            (run (events_between before after) (reading_of self.old) ≡ Some (reading_of self.new))
            (run (events_between before after) (reading_of self.old) ≡ None)) }
    {
        let Some(event) = event_between(before, after) else {
            return Ok(true);
        };
        let taken = self.accept(alloc, event)?;
        Ok(taken)
    }

    /// Takes events in order, and answers whether all of them go on.
    fn read(&mut self, alloc: Global, events: &[Event]) -> Result<bool, AllocError>
        ensures { IfOk result (λ all. MatchBool all (run events.now (reading_of self.old)
            ≡ Some (reading_of self.new)) (run events.now (reading_of self.old) ≡ None)) }
    {
        for event in events {
            if !self.accept(alloc, *event)? {
                return Ok(false);
            }
        }
        Ok(true)
    }
}

/// The frames of which two parts together are the events.
pub(crate) fn frames_of(
    alloc: Global,
    first: &[Event],
    later: &[Event],
) -> Result<Vec<Frame>, AllocError>
    requires whole { control_after (first.now ++ later.now) Free ≡ Some Free }
    ensures { IfOk result (λ frames. AreFrames (first.now ++ later.now) frames.items) }
{
    let mut reading = Reading::new(alloc);
    reading.read(alloc, first)?;
    reading.read(alloc, later)?;
    Ok(reading.frames)
}

/// The frames of which these are the events (UM10204, 3.1.4 to 3.1.6), if there are such.
///
/// NotFrames tells the first place from which on no frames can begin so, or the number of events
/// where a frame has only not ended. Memory is answered where a growth was refused.
pub fn observe(alloc: Global, events: &[Event]) -> Result<Vec<Frame>, ObserveFault>
    ensures frames { IfOk result (λ frames. AreFrames events.now frames.items) }
    // They are the events of no other frames.
    ensures only { IfOk result
        (λ frames. (others : List Shown) → AreFrames events.now others → others ≡ frames.items) }
    // There are none where it tells another fault than want of memory.
    ensures none { IfErr result
        (λ e. e ≢ Memory → (frames : List Shown) → AreFrames events.now frames → ⊥) }
    ensures fault { IfErr result (FaultIs events.now) }
{
    let mut reading = Reading::new(alloc);
    let mut rest = events;
    while let [event, later @ ..] = rest {
        if !reading.accept(alloc, *event)? {
            return Err(ObserveFault::NotFrames(events.len() - rest.len()));
        }
        rest = reading.take_bytes(later)?;
    }
    if reading.open_frame.is_some() {
        return Err(ObserveFault::NotFrames(events.len()));
    }
    Ok(reading.frames)
}

/// The frames whose events happen in runs, if there are such. Fails only for want of memory.
pub(crate) fn frames_in(alloc: Global, runs: &[Run]) -> Result<Option<Vec<Frame>>, AllocError>
    ensures frames { IfOk result (λ found. IfSome found
        (λ frames. AreFrames (events_in runs.now) frames.items)) }
    ensures only { IfOk result (λ found. IfSome found (λ frames. (others : List Shown)
        → AreFrames (events_in runs.now) others → others ≡ frames.items)) }
    ensures none { IfOk result (λ found. IfNone found
        ((frames : List Shown) → AreFrames (events_in runs.now) frames → ⊥)) }
{
    let mut reading = Reading::new(alloc);
    let mut rest = runs;
    while let [before, after, ..] = rest {
        if !reading.advance(alloc, before.sample, after.sample)? {
            return Ok(None);
        }
        rest = reading.take_clocks(&rest[1..])?;
    }
    if reading.open_frame.is_some() {
        return Ok(None);
    }
    Ok(Some(reading.frames))
}
