//! The dearest way through an accepted program, by the ticks that its table leaves.

use crate::Result;
use crate::roads::{Edge, Judged};
use facts::Row;
use seq_program::Instr;
use std::alloc::Global;

/// So many steps at most are followed: each loop is gone once, and then counted.
const MOST_STEPS: usize = 20_000;

/// Turns of a loop on the dearest way.
#[derive(Clone, Copy, PartialEq, Eq)]
pub(crate) struct Turns {
    /// The first place of the loop, and its last.
    pub first: usize,
    pub last: usize,
    pub times: u64,
    /// What all of them take.
    pub ticks: u64,
    /// How many loops are around it.
    pub depth: usize,
}

impl Turns {
    fn has(&self, place: usize) -> bool {
        self.first <= place && place <= self.last
    }
}

/// A step of the way, before which so many ticks were taken and so many loops were found.
#[derive(Clone, Copy)]
struct Step {
    place: usize,
    counters: [u64; 4],
    ticks: u64,
    loops: usize,
}

/// The dearest way so far.
#[derive(Drop)]
pub(crate) struct Dearest {
    /// Its loops, each before those inside.
    pub turns: Vec<Turns>,
    /// What the whole way takes.
    pub ticks: u64,
    /// The loop whose last turn is under way.
    open: Option<usize>,
    steps: Vec<Step>,
    /// Of each place, the number of the last step there.
    last: Vec<Option<usize>>,
}

/// Which of several edges is taken that cost the same by the table.
#[derive(Clone, Copy, PartialEq, Eq)]
enum Favored {
    First,
    Last,
}

impl Favored {
    /// Whether an edge is taken in the place of one before it.
    fn takes(self, sum: u64, most: u64) -> bool {
        match self {
            Favored::First => sum > most,
            Favored::Last => sum >= most,
        }
    }
}

/// Where a way is, and what may still come.
#[derive(Clone, Copy)]
struct Here {
    place: usize,
    counters: [u64; 4],
    /// How many arbitrations may still be lost.
    losable: u64,
}

/// What a row leaves.
fn left_at(row: &Row, here: Here) -> u64 {
    let lost = row.lost_coeff.saturating_mul(here.losable);
    let turns = row.coeffs.iter().zip(&here.counters);
    turns.fold(row.base.saturating_add(lost), |left, (coeff, counter)| {
        left.saturating_add(coeff.saturating_mul(*counter))
    })
}

/// The counters behind an instruction that leads to a place.
fn counters_behind(instr: &Instr, counters: [u64; 4]) -> [u64; 4] {
    let mut behind = counters;
    match instr {
        Instr::Count { counter, value } => behind[counter.index()] = u64::from(*value),
        Instr::Again { counter, .. } => {
            let index = counter.index();
            behind[index] = counters[index].saturating_sub(1);
        }
        _ => {}
    }
    behind
}

/// Whether an edge of an instruction may be taken, which has so many: `again` jumps as long as its
/// counter is over 0, and the third edge of a message is that of a lost arbitration.
fn may_take(instr: &Instr, here: Here, number: usize, edges: usize) -> bool {
    match instr {
        Instr::Again { counter, .. } => {
            let turns = here.counters[counter.index()] > 0;
            edges < 2 || turns == (number == 0)
        }
        _ => number < 2 || here.losable > 0,
    }
}

/// Where an edge leads.
fn behind(instr: &Instr, here: Here, number: usize, edge: &Edge) -> Here {
    let (place, _row, _ticks) = edge;
    let loses = instr.request().is_some() && number == 2;
    Here {
        place: *place,
        counters: counters_behind(instr, here.counters),
        losable: here.losable.saturating_sub(u64::from(loses)),
    }
}

/// The dearest step, with its ticks.
fn dearest_step(
    alloc: Global,
    judged: Judged<'_>,
    here: Here,
    favored: Favored,
) -> Result<Option<(Here, u64)>> {
    let Some(instr) = judged.program.at(here.place) else {
        return Ok(None);
    };
    let edges = judged.edges(alloc, here.place)?;
    let mut dearest = None;
    let mut most = 0;
    for (number, edge) in edges.iter().enumerate() {
        let there = behind(instr, here, number, edge);
        let left = judged.row(there.place).map_or(0, |row| left_at(row, there));
        let (_place, _row, ticks) = edge;
        let sum = ticks.saturating_add(left);
        if favored.takes(sum, most) && may_take(instr, here, number, edges.len()) {
            most = sum;
            dearest = Some((there, *ticks));
        }
    }
    Ok(dearest)
}

/// The counter by which a place is met again one lower, and no other changed.
fn counter_fallen(before: [u64; 4], after: [u64; 4]) -> Option<usize> {
    let mut fallen = None;
    for counter in 0..4 {
        if before[counter] != after[counter] {
            if fallen.is_some() || before[counter] != after[counter].saturating_add(1) {
                return None;
            }
            fallen = Some(counter);
        }
    }
    fallen
}

/// The same counters, one of them at 0.
fn without(counters: [u64; 4], counter: usize) -> [u64; 4] {
    let mut others = counters;
    if let Some(left) = others.get_mut(counter) {
        *left = 0;
    }
    others
}

impl Dearest {
    fn new(alloc: Global, places: usize) -> Result<Dearest> {
        Ok(Dearest {
            turns: Vec::new(alloc),
            ticks: 0,
            open: None,
            steps: Vec::new(alloc),
            last: vec![in alloc; None; places]?,
        })
    }

    /// The last step at a place.
    fn last_at(&self, place: usize) -> Option<Step> {
        let number = self.last.get(place).copied().flatten()?;
        self.steps.get(number).copied()
    }

    /// The first and the last place since a step.
    fn places_since(&self, first: usize) -> (usize, usize) {
        let (mut low, mut high) = (first, first);
        for step in self.steps.iter().rev() {
            low = low.min(step.place);
            high = high.max(step.place);
            if step.place == first {
                break;
            }
        }
        (low, high)
    }

    /// So many ticks are taken, in the last turn of a loop too, if one is under way.
    fn take(&mut self, ticks: u64) {
        self.ticks = self.ticks.saturating_add(ticks);
        if let Some(turns) = self.open.and_then(|open| self.turns.get_mut(open)) {
            turns.ticks = turns.ticks.saturating_add(ticks);
        }
    }

    /// The last turn of a loop ends where the way leaves the loop.
    fn leave(&mut self, place: usize) {
        if let Some(turns) = self.open.and_then(|open| self.turns.get_mut(open)) {
            if !turns.has(place) {
                turns.times = turns.times.saturating_add(1);
                self.open = None;
            }
        }
    }

    /// The turns of a loop join those that were found, before the ones inside it.
    fn add(&mut self, at: usize, turns: Turns) -> Result<()> {
        for inner in self.turns.iter_mut().skip(at) {
            inner.depth = inner.depth.saturating_add(1);
        }
        let at = at.min(self.turns.len());
        self.turns.insert(at, turns)?;
        self.open = Some(at);
        Ok(())
    }

    /// A turn was made since a step: those that its counter leaves are like it. In the last turn of
    /// a loop around it they are told with that.
    fn close(&mut self, step: Step, left: u64) -> Result<()> {
        let (first, last) = self.places_since(step.place);
        let turn = self.ticks.saturating_sub(step.ticks);
        self.take(turn.saturating_mul(left));
        if self.open.is_some() {
            return Ok(());
        }
        let times = left.saturating_add(1);
        let ticks = turn.saturating_mul(times);
        self.add(
            step.loops,
            Turns {
                first,
                last,
                times,
                ticks,
                depth: 0,
            },
        )
    }

    /// The way comes to a place: a loop of which a turn was made is counted, and left.
    fn come(&mut self, here: Here) -> Result<Here> {
        let mut here = here;
        self.leave(here.place);
        if let Some(step) = self.last_at(here.place) {
            if let Some(counter) = counter_fallen(step.counters, here.counters) {
                let left = here.counters.get(counter).copied().unwrap_or(0);
                self.close(step, left)?;
                here.counters = without(here.counters, counter);
            }
        }
        let number = self.steps.len();
        self.steps.push(Step {
            place: here.place,
            counters: here.counters,
            ticks: self.ticks,
            loops: self.turns.len(),
        })?;
        if let Some(last) = self.last.get_mut(here.place) {
            *last = Some(number);
        }
        Ok(here)
    }
}

/// A dear way, where it ends within 20,000 steps: at each place the edge with the most ticks, its
/// own and those that are left behind it.
fn dear_way(alloc: Global, judged: Judged<'_>, favored: Favored) -> Result<Option<Dearest>> {
    let mut dearest = Dearest::new(alloc, judged.program.places())?;
    let mut here = Here {
        place: 0,
        counters: [0; 4],
        losable: u64::from(judged.board.contentions()),
    };
    for _ in 0..MOST_STEPS {
        here = dearest.come(here)?;
        let Some((there, ticks)) = dearest_step(alloc, judged, here, favored)? else {
            dearest.take(1);
            return Ok(Some(dearest));
        };
        dearest.take(ticks);
        here = there;
    }
    Ok(None)
}

/// The dearer of two ways, of which both may be unknown.
fn dearer(one: Option<Dearest>, other: Option<Dearest>) -> Option<Dearest> {
    match (one, other) {
        (Some(one), Some(other)) => Some(if other.ticks > one.ticks { other } else { one }),
        (one, other) => one.or(other),
    }
}

/// The dearest way that is found. By the table a loop whose counter is used up costs no less than
/// the way out of it, so of edges that cost the same the first is tried, and then the last.
pub(crate) fn dearest_way(alloc: Global, judged: Judged<'_>) -> Result<Option<Dearest>> {
    let first = dear_way(alloc, judged, Favored::First)?;
    let last = dear_way(alloc, judged, Favored::Last)?;
    Ok(dearer(first, last))
}
