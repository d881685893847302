//! Differences of two variables: a point that satisfies all of them, or a cycle that cannot be.

use crate::bounds::{Entry, Side, Source, TimesAtom, TimesEntry, Why};
use crate::engine::Engine;
use crate::numbers::{minus, next, place_of, plus};
use lucy_clauses::{Atom, Part, Range};
use std::alloc::{AllocError, Global};

// `to` is at most `from` and a length.
#[derive(Clone, Copy, Debug, PartialEq, Eq)]
struct Edge {
    from: u32,
    to: u32,
    length: i128,
    of: Source,
}

// What a node was lowered to, and by which edge.
#[derive(Clone, Copy, Debug, PartialEq, Eq)]
struct Lowered {
    value: i128,
    edge: Edge,
}

/// The edges of the true atoms and of the bounds, and a potential that satisfies them. The nodes are the variables, and
/// behind them one for 0.
#[derive(Debug, Drop)]
pub struct Net {
    // The edges out of each node.
    edges: Vec<Vec<Edge>>,
    /// The nodes of the edges, in the order in which these were added.
    pub added: Vec<u32>,
    potential: Vec<i128>,
    // While a new edge is looked at: what nodes are lowered to.
    lowered: Vec<Option<Lowered>>,
    queue: Vec<u32>,
    // How many true atoms and entries were taken in.
    atoms: usize,
    entries: usize,
}

// What comes of a new edge.
#[derive(Debug, Drop)]
enum Outcome {
    // The potential satisfies it.
    Kept,
    // It closes a cycle of negative length, with these edges.
    Cycle(Vec<Edge>),
    // The search of a potential was left off.
    Lost,
}

impl Net {
    /// No nodes.
    pub fn new(alloc: Global) -> Net {
        Net {
            edges: Vec::new(alloc),
            added: Vec::new(alloc),
            potential: Vec::new(alloc),
            lowered: Vec::new(alloc),
            queue: Vec::new(alloc),
            atoms: 0,
            entries: 0,
        }
    }

    /// Adds a node with its potential.
    pub fn add(&mut self, alloc: Global, value: i128) -> Result<(), AllocError> {
        self.edges.push(Vec::new(alloc))?;
        self.potential.push(value)?;
        self.lowered.push(None)?;
        Ok(())
    }

    /// The potential of a node.
    pub fn potential(&self, node: u32) -> i128 {
        match self.potential.get(node as usize) {
            Some(value) => *value,
            None => 0,
        }
    }

    // The node for 0.
    fn zero(&self) -> Result<u32, AllocError> {
        let count = place_of(self.potential.len())?;
        Ok(count.saturating_sub(1))
    }

    /// The potential of the node for 0.
    pub fn base(&self) -> i128 {
        match self.potential.last() {
            Some(value) => *value,
            None => 0,
        }
    }

    /// Keeps the first edges; so many atoms and entries have been taken in at most.
    pub fn undo(&mut self, edges: usize, atoms: usize, entries: usize) {
        for _ in edges..self.added.len() {
            if let Some(node) = self.added.pop() {
                self.take_back(node);
            }
        }
        self.atoms = self.atoms.min(atoms);
        self.entries = self.entries.min(entries);
    }

    fn take_back(&mut self, node: u32) {
        if let Some(edges) = self.edges.get_mut(node as usize) {
            let _ = edges.pop();
        }
    }

    fn put(&mut self, edge: Edge) -> Result<(), AllocError> {
        if let Some(edges) = self.edges.get_mut(edge.from as usize) {
            edges.push(edge)?;
            self.added.push(edge.from)?;
        }
        Ok(())
    }

    fn lowered_at(&self, node: u32) -> Option<Lowered> {
        match self.lowered.get(node as usize) {
            Some(lowered) => *lowered,
            None => None,
        }
    }

    // The potential of a node, or what it is lowered to.
    fn value(&self, node: u32) -> i128 {
        match self.lowered_at(node) {
            Some(lowered) => lowered.value,
            None => self.potential(node),
        }
    }

    fn edge_at(&self, node: u32, place: usize) -> Option<Edge> {
        match self.edges.get(node as usize) {
            Some(edges) => edges.get(place).copied(),
            None => None,
        }
    }

    fn lower(&mut self, edge: Edge, value: i128) -> Result<(), AllocError> {
        if let Some(lowered) = self.lowered.get_mut(edge.to as usize) {
            *lowered = Some(Lowered { value, edge });
            self.queue.push(edge.to)?;
        }
        Ok(())
    }

    // The edges of a cycle, from the last one back to the first one's start.
    fn cycle(&self, alloc: Global, last: Edge) -> Result<Vec<Edge>, AllocError> {
        let mut all = Vec::new(alloc);
        all.push(last)?;
        let mut node = last.from;
        for _ in 0..self.queue.len() {
            let Some(lowered) = self.lowered_at(node) else {
                break;
            };
            all.push(lowered.edge)?;
            node = lowered.edge.from;
            if node == last.to {
                break;
            }
        }
        Ok(all)
    }

    // Lowers the nodes behind one. The edge that would lower the start, where there is one.
    fn lower_behind(&mut self, node: u32, start: u32) -> Result<Option<Edge>, AllocError> {
        for place in 0..usize::MAX {
            let Some(edge) = self.edge_at(node, place) else {
                break;
            };
            let value = plus(self.value(node), edge.length);
            if value < self.value(edge.to) {
                if edge.to == start {
                    return Ok(Some(edge));
                }
                self.lower(edge, value)?;
            }
        }
        Ok(None)
    }

    // Lowers what an edge lowers, as far as it goes.
    fn lower_all(&mut self, alloc: Global, edge: Edge) -> Result<Outcome, AllocError> {
        let value = plus(self.potential(edge.from), edge.length);
        self.lower(edge, value)?;
        let most = self.added.len().saturating_mul(64).saturating_add(2_000);
        for turn in 0..most {
            let Some(node) = self.queue.get(turn).copied() else {
                return Ok(Outcome::Kept);
            };
            if let Some(last) = self.lower_behind(node, edge.from)? {
                let cycle = self.cycle(alloc, last)?;
                return Ok(Outcome::Cycle(cycle));
            }
        }
        Ok(Outcome::Lost)
    }

    // Takes what nodes were lowered to as the potential, or leaves the potential as it was.
    fn settle(&mut self, keeps: bool) {
        for i in 0..self.queue.len() {
            if let Some(node) = self.queue.get(i).copied() {
                self.settle_one(node, keeps);
            }
        }
        self.queue.clear();
    }

    fn settle_one(&mut self, node: u32, keeps: bool) {
        let value = self.value(node);
        if keeps && let Some(old) = self.potential.get_mut(node as usize) {
            *old = value;
        }
        if let Some(lowered) = self.lowered.get_mut(node as usize) {
            *lowered = None;
        }
    }

    // Adds an edge.
    fn push(&mut self, alloc: Global, edge: Edge) -> Result<Outcome, AllocError> {
        self.put(edge)?;
        if self.potential(edge.to) <= plus(self.potential(edge.from), edge.length) {
            return Ok(Outcome::Kept);
        }
        let outcome = self.lower_all(alloc, edge)?;
        let keeps = match &outcome {
            Outcome::Kept => true,
            Outcome::Cycle(_) => false,
            Outcome::Lost => false,
        };
        self.settle(keeps);
        Ok(outcome)
    }
}

// The edge of a true atom that is a difference of two variables.
fn edge_of_parts(first: Part, second: Part, bound: i128, number: u32) -> Option<Edge> {
    let (to, from) = if first.by == 1 && second.by == -1 {
        (first.variable, second.variable)
    } else if first.by == -1 && second.by == 1 {
        (second.variable, first.variable)
    } else {
        return None;
    };
    Some(Edge {
        from,
        to,
        length: bound,
        of: Source::Atom(number),
    })
}

fn edge_of(atom: &Atom, number: u32) -> Option<Edge> {
    match atom.parts.as_slice() {
        [first, second] => edge_of_parts(*first, *second, atom.bound, number),
        _ => None,
    }
}

/// Whether an atom is a difference of two variables.
pub fn is_difference(atom: &Atom) -> bool {
    edge_of(atom, 0).is_some()
}

fn edge_of_entry(entry: &Entry, number: usize, zero: u32) -> Option<Edge> {
    if let Why::Cut(_) = &entry.why {
        return None;
    }
    match entry.side {
        Side::High => Some(Edge {
            from: zero,
            to: entry.variable,
            length: entry.value,
            of: Source::Entry(number),
        }),
        Side::Low => Some(Edge {
            from: entry.variable,
            to: zero,
            length: minus(0, entry.value),
            of: Source::Entry(number),
        }),
    }
}

// The true atoms and the entries of a cycle.
fn sources(
    cycle: &[Edge],
    atoms: &mut Vec<TimesAtom>,
    entries: &mut Vec<TimesEntry>,
) -> Result<(), AllocError> {
    for edge in cycle {
        match edge.of {
            Source::Atom(atom) => atoms.push(TimesAtom { by: 1, atom })?,
            Source::Entry(entry) => entries.push(TimesEntry { by: 1, entry })?,
        }
    }
    Ok(())
}

impl Engine {
    // The edge of the next entry that was not taken in.
    fn next_entry_edge(&mut self) -> Result<Option<Edge>, AllocError> {
        let zero = self.net.zero()?;
        for _ in 0..u64::MAX {
            let number = self.net.entries;
            let Some(entry) = self.bounds.entries.get(number) else {
                return Ok(None);
            };
            let edge = edge_of_entry(entry, number, zero);
            self.net.entries = next(number);
            if edge.is_some() {
                return Ok(edge);
            }
        }
        Ok(None)
    }

    // The edge of the next true atom that was not taken in.
    fn next_atom_edge(&mut self) -> Option<Edge> {
        for _ in 0..u64::MAX {
            let place = self.net.atoms;
            let Some(number) = self.store.trues.get(place).copied() else {
                return None;
            };
            self.net.atoms = next(place);
            let edge = match self.table.atom(number) {
                Some(atom) => edge_of(atom, number),
                None => None,
            };
            if edge.is_some() {
                return edge;
            }
        }
        None
    }

    fn next_edge(&mut self) -> Result<Option<Edge>, AllocError> {
        let edge = self.next_entry_edge()?;
        if edge.is_some() {
            return Ok(edge);
        }
        Ok(self.next_atom_edge())
    }

    // The lemma of a cycle.
    fn cycle_lemma(
        &mut self,
        alloc: Global,
        ranges: &[Range],
        cycle: &[Edge],
    ) -> Result<bool, AllocError> {
        let mut atoms = Vec::new(alloc);
        let mut entries = Vec::new(alloc);
        sources(cycle, &mut atoms, &mut entries)?;
        self.lemma(alloc, ranges, atoms.as_slice(), entries.as_slice())
    }

    // Takes new atoms and bounds into the net. Whether a lemma was found.
    pub(crate) fn finds_cycle(
        &mut self,
        alloc: Global,
        ranges: &[Range],
    ) -> Result<bool, AllocError> {
        for _ in 0..u64::MAX {
            let Some(edge) = self.next_edge()? else {
                break;
            };
            let outcome = self.net.push(alloc, edge)?;
            if let Outcome::Cycle(cycle) = outcome {
                return self.cycle_lemma(alloc, ranges, cycle.as_slice());
            }
        }
        Ok(false)
    }
}
