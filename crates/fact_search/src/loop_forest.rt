//! The loops of a program, and the counters that bound them: a loop nesting forest (after
//! Steensgaard, 1993). A component is a loop; where the ways are cut that its counter pays for, the
//! components of what is left are the loops inside.
//!
//!     0  count c0 9
//!     1  count c1 3
//!     2  again c1 2
//!     3  again c0 1
//!
//! Places 1 to 3 are a loop. c1 is set in it, so c0 pays for its turns. Without the way from 3 to 1
//! place 2 alone is a loop, for which c1 pays; without the way from 2 to 2 there is none.

use crate::components::{Components, components_of};
use crate::graph::{Cut, Graph, Way};
use std::alloc::{AllocError, Global};

/// The counters bound four loops around a place at most; then one without a counter is found, and
/// then none.
const MOST_DEPTHS: usize = 6;

/// A loop: places each of which leads to each other one.
#[derive(Clone, Copy)]
pub(crate) struct Loop {
    pub(crate) least_place: usize,
    /// The counters that are set inside.
    pub(crate) sets: [bool; 4],
    /// The counters from which ways inside take one off.
    pub(crate) takes: [bool; 4],
    /// The counter that pays for the turns.
    pub(crate) payer: Option<usize>,
    /// What the dearest turn costs.
    pub(crate) turn: u64,
}

impl Loop {
    /// A counter can pay for the turns: it falls inside, and never grows.
    fn can_pay(&self, counter: usize) -> bool {
        counter < 4 && self.takes[counter] && !self.sets[counter]
    }

    /// The counter that is to pay for the turns: the favored one if it can, else the least.
    fn payer_favoring(&self, favored: usize) -> Option<usize> {
        if self.can_pay(favored) {
            Some(favored)
        } else {
            (0..4).find(|c| self.can_pay(*c))
        }
    }
}

/// The loops of a program.
#[derive(Drop)]
pub(crate) struct LoopForest {
    pub(crate) loops: Vec<Loop>,
    /// At each depth the loop of each place.
    pub(crate) depths: Vec<Vec<Option<usize>>>,
    /// All places, each after those to which it leads without a turn.
    pub(crate) order: Vec<usize>,
    /// The counter that pays where several can.
    favored: usize,
}

/// The loop of a place.
pub(crate) fn loop_at(inside: &[Option<usize>], place: usize) -> Option<usize> {
    *inside.get(place)?
}

/// The loop in which a way stays.
pub(crate) fn loop_of(inside: &[Option<usize>], way: &Way) -> Option<usize> {
    let from = loop_at(inside, way.from)?;
    let to = loop_at(inside, way.to)?;
    if from == to { Some(from) } else { None }
}

/// A loop at each place, or none.
fn no_loops(alloc: Global, places: usize) -> Result<Vec<Option<usize>>, AllocError> {
    vec![in alloc; None; places]
}

/// The component in which an open way stays.
fn component_of(found: &Components, way: &Way) -> Option<usize> {
    let from = *found.of.get(way.from)?;
    let to = *found.of.get(way.to)?;
    if way.cut == Cut::Open && from == to {
        Some(from)
    } else {
        None
    }
}

/// A counter, if it is one, is marked.
fn mark(marks: &mut [bool; 4], counter: Option<usize>) {
    if let Some(counter) = counter {
        if counter < 4 {
            marks[counter] = true;
        }
    }
}

impl LoopForest {
    /// A loop joins the others, with one way inside.
    fn push_loop(&mut self, way: &Way) -> Result<usize, AllocError> {
        let number = self.loops.len();
        self.loops.push(Loop {
            least_place: way.from,
            sets: [false; 4],
            takes: [false; 4],
            payer: None,
            turn: 0,
        })?;
        Ok(number)
    }

    /// The loop of each component that has a way inside. The first of them begins at the loop's
    /// least place.
    fn loops_of_components(
        &mut self,
        alloc: Global,
        graph: &Graph,
        found: &Components,
    ) -> Result<Vec<Option<usize>>, AllocError> {
        let mut loops = no_loops(alloc, found.count)?;
        for way in &graph.ways {
            if let Some(component) = component_of(found, way) {
                let number = match loop_at(&loops, component) {
                    Some(number) => number,
                    None => self.push_loop(way)?,
                };
                if let Some(entry) = loops.get_mut(component) {
                    *entry = Some(number);
                }
                if let Some(found) = self.loops.get_mut(number) {
                    mark(&mut found.takes, way.takes);
                }
            }
        }
        Ok(loops)
    }

    /// The loop of each place, of the components' loops.
    fn loops_of_places(
        &mut self,
        alloc: Global,
        graph: &Graph,
        found: &Components,
        loops: &[Option<usize>],
    ) -> Result<Vec<Option<usize>>, AllocError> {
        let mut inside = Vec::new(alloc);
        for (place, component) in found.of.iter().enumerate() {
            let number = loop_at(loops, *component);
            if let Some(number) = number {
                if let Some(found) = self.loops.get_mut(number) {
                    mark(&mut found.sets, graph.sets(place));
                }
            }
            inside.push(number)?;
        }
        Ok(inside)
    }

    /// The counters that pay for the loops that were found last.
    fn choose_payers(&mut self, known: usize) {
        let favored = self.favored;
        for found in self.loops.iter_mut().skip(known) {
            found.payer = found.payer_favoring(favored);
        }
    }

    /// How a way inside a loop is cut: where the loop's counter pays for it, and where there is no
    /// such counter, if it leads back.
    fn cut(&self, way: &Way, number: usize) -> Cut {
        let Some(found) = self.loops.get(number) else {
            return way.cut;
        };
        match found.payer {
            Some(counter) => {
                if way.takes == Some(counter) {
                    Cut::Paid(self.depths.len())
                } else {
                    way.cut
                }
            }
            None => {
                if way.to <= way.from {
                    Cut::Unpaid
                } else {
                    way.cut
                }
            }
        }
    }

    /// The open ways inside loops are cut.
    fn cut_ways(&self, graph: &mut Graph, inside: &[Option<usize>]) {
        for way in graph.ways.iter_mut() {
            if way.cut == Cut::Open {
                if let Some(number) = loop_of(inside, way) {
                    way.cut = self.cut(way, number);
                }
            }
        }
    }

    /// The loops that are left at the next depth. False where none is.
    fn deepen(&mut self, alloc: Global, graph: &mut Graph) -> Result<bool, AllocError> {
        let known = self.loops.len();
        let found = components_of(alloc, graph)?;
        let loops = self.loops_of_components(alloc, graph, &found)?;
        let inside = self.loops_of_places(alloc, graph, &found, &loops)?;
        self.choose_payers(known);
        self.cut_ways(graph, &inside);
        self.order = found.order;
        self.depths.push(inside)?;
        Ok(known < self.loops.len())
    }

    /// The least place of a loop that no counter bounds.
    pub(crate) fn unbounded(&self) -> Option<usize> {
        self.loops
            .iter()
            .filter(|found| found.payer.is_none())
            .map(|found| found.least_place)
            .min()
    }

    /// Whether a counter could pay in place of another.
    pub(crate) fn has_choice(&self, counter: usize) -> bool {
        self.loops.iter().any(|found| found.can_pay(counter) && found.payer != Some(counter))
    }
}

/// All ways are open.
fn open_ways(graph: &mut Graph) {
    for way in graph.ways.iter_mut() {
        way.cut = Cut::Open;
    }
}

/// The loops of a graph, whose ways back are cut. Where several counters can pay for a loop's turns
/// it is the favored one, or the least.
pub(crate) fn forest_of(
    alloc: Global,
    graph: &mut Graph,
    favored: usize,
) -> Result<LoopForest, AllocError> {
    open_ways(graph);
    let mut forest = LoopForest {
        loops: Vec::new(alloc),
        depths: Vec::new(alloc),
        order: Vec::new(alloc),
        favored,
    };
    for _ in 0..MOST_DEPTHS {
        if !forest.deepen(alloc, graph)? {
            break;
        }
    }
    Ok(forest)
}
