//! The labels of invariants, and the marks that show what merges lose.
ghost use Rattle.std.specs.Prelude.{◌≡◌, ◌≢◌, ◌≤◌, ◌<◌, ℕ, IfOk, Some, length, slice_get};
ghost use Rattle.limits.specs.declared.TheConstants.{LAST_TYPE, MAX_INVARIANTS, MAX_PARTITIONS};
ghost use Rattle.partition_graph.specs.Seen.{IsSound};

use crate::graphs::known::{are_named, is_pair};
use crate::graphs::moves::pair_of;
use crate::graphs::views::SHOWN;
use crate::tools::{both, kind};
use clashes::Clashes;
use invariants::Invariant;
use labelling::Planes;
use limits::MAX_PARTITIONS;
use partition_graph::{PartGraph, View};
use std::alloc::{AllocError, Global};
use std::marker::Brand;
use std::sync::ledger::{Blank, Ledger};
use steps::Steps;

/// Invariants, with their labels and two sets of marks: those that the labels keep, and separate ones.
#[derive(Drop)]
pub struct LabelsAndMarks {
    pub invs: Vec<Invariant>,
    planes: Planes,
    clashes: Clashes,
    ghost listed: { planes.invs ≡ invs.items },
}

/// The invariant of a text, for example `AF 2 4`.
fn invariant_of(text: &str) -> Option<Invariant> {
    let (name, pair) = text.split_once(' ')?;
    let (a, b) = pair.split_once(' ')?;
    Some(Invariant {
        kind: kind(name),
        a: a.parse().unwrap_or(0),
        b: b.parse().unwrap_or(0),
    })
}

/// The invariants between commas.
fn invariants_of(alloc: Global, text: &str) -> Result<Vec<Invariant>, AllocError> {
    let mut invs = Vec::new(alloc);
    for part in text.split(',') {
        if let Some(inv) = invariant_of(part) {
            invs.push(inv)?;
        }
    }
    Ok(invs)
}

/// The same; none if they are too many or of impossible types.
fn named_of(alloc: Global, text: &str) -> Result<Vec<Invariant>, AllocError>
    ensures few { IfOk result (λ invs. length invs.items ≤ MAX_INVARIANTS) }
    ensures named { IfOk result (λ invs. (k : ℕ) (inv : Invariant)
        → slice_get invs.items k ≡ Some inv → (inv.a ≤ LAST_TYPE) × (inv.b ≤ LAST_TYPE)) }
{
    let invs = invariants_of(alloc, text)?;
    if are_named(&invs) {
        return Ok(invs);
    }
    Ok(Vec::new(alloc))
}

/// The labels and the marks of the invariants between commas.
pub fn labels_and_marks_of(alloc: Global, text: &str) -> Result<LabelsAndMarks, AllocError> {
    let invs = named_of(alloc, text)?;
    let (planes, clashes) = both(Planes::make(alloc, &invs), Clashes::make(alloc, &invs))?;
    Ok(LabelsAndMarks {
        invs,
        planes,
        clashes,
    })
}

/// Labels the view with a counter.
fn label_counted<L: Ledger>(planes: &mut Planes, view: &View<'_>, blank: Blank)
    requires sound { IsSound view.now }
    requires name { blank.name ≡ L.name }
    requires parts { blank.parts ≡ L.parts }
    requires stands { 0 < blank.parts }
    ensures { planes.new.invs ≡ planes.old.invs }
{
    let mut steps = Steps::<L>::open(blank);
    planes.label_all(view, &mut steps);
}

/// Labels the view with a counter that nobody reads.
fn label(planes: &mut Planes, view: &View<'_>)
    requires { IsSound view.now }
    ensures { planes.new.invs ≡ planes.old.invs }
{
    label_counted::<Brand>(planes, view, Blank::new(1));
}

/// Finds both marks of the graph with a counter.
fn find_counted<L: Ledger>(
    planes: &mut Planes,
    clashes: &mut Clashes,
    graph: &PartGraph,
    blank: Blank,
)
    requires name { blank.name ≡ L.name }
    requires parts { blank.parts ≡ L.parts }
    requires stands { 0 < blank.parts }
    ensures { planes.new.invs ≡ planes.old.invs }
{
    let mut steps = Steps::<L>::open(blank);
    planes.find_clashes(graph, &mut steps);
    clashes.find(graph, &mut steps);
}

/// Updates both marks for a merge, with a counter.
fn join_counted<L: Ledger>(
    planes: &mut Planes,
    clashes: &mut Clashes,
    graph: &PartGraph,
    pair: (u32, u32),
    blank: Blank,
)
    requires kept { pair.0 < MAX_PARTITIONS }
    requires gone { pair.1 < MAX_PARTITIONS }
    requires apart { pair.0 ≢ pair.1 }
    requires name { blank.name ≡ L.name }
    requires parts { blank.parts ≡ L.parts }
    requires stands { 0 < blank.parts }
    ensures { planes.new.invs ≡ planes.old.invs }
{
    let mut steps = Steps::<L>::open(blank);
    planes.join(graph, pair.0, pair.1, &mut steps);
    clashes.join(graph, pair.0, pair.1, &mut steps);
}

/// Reports which invariants the graph satisfies, with a counter.
fn tell_counted<L: Ledger>(planes: &mut Planes, graph: &PartGraph, flags: &mut [bool], blank: Blank)
    requires room { length flags.old ≡ length (planes.old).invs }
    requires name { blank.name ≡ L.name }
    requires parts { blank.parts ≡ L.parts }
    requires stands { 0 < blank.parts }
    ensures { planes.new.invs ≡ planes.old.invs }
{
    let mut steps = Steps::<L>::open(blank);
    planes.tell_satisfied(&View::Plain(graph), flags, &mut steps);
}

/// Appends the labels of the invariant with this number to the text.
fn put_row(told: &mut String, planes: &Planes, number: usize) -> Result<(), AllocError>
    requires { number < length (planes.now).invs }
{
    told.push_str(" ")?;
    for p in 0..SHOWN {
        write!(told, "{}", planes.states(number, p))?;
    }
    Ok(())
}

/// Appends flags to the text.
fn put_flags(told: &mut String, flags: &[bool]) -> Result<(), AllocError> {
    for flag in flags {
        told.push_str(if *flag { "1" } else { "0" })?;
    }
    Ok(())
}

/// Appends a number to the text, if there is one.
fn put_number(told: &mut String, number: Option<usize>) -> Result<(), AllocError> {
    match number {
        Some(number) => write!(told, " {number}"),
        None => told.push_str(" -"),
    }
}

impl LabelsAndMarks {
    /// Labels the graph, or the merge of a pair, for example `2+5`. Returns whether that is a pair.
    fn label(&mut self, graph: &PartGraph, pair: &str) -> bool {
        let Some((p, q)) = pair_of(pair, '+') else {
            label(&mut self.planes, &View::Plain(graph));
            return true;
        };
        if !is_pair(graph, p, q) {
            return false;
        }
        label(&mut self.planes, &View::Merged(graph, p, q));
        true
    }

    /// The labels, and the first invariant that does not hold.
    fn put_states(&self, told: &mut String) -> Result<(), AllocError> {
        for number in 0..self.invs.len() {
            put_row(told, &self.planes, number)?;
        }
        put_number(told, self.planes.first_bad())
    }

    /// The same after labelling the graph, or the merge of a pair.
    fn put_labels(
        &mut self,
        told: &mut String,
        graph: &PartGraph,
        pair: &str,
    ) -> Result<(), AllocError> {
        if !self.label(graph, pair) {
            return told.push_str(" no");
        }
        self.put_states(told)
    }

    /// Which invariants the graph satisfies.
    fn put_satisfied(
        &mut self,
        alloc: Global,
        told: &mut String,
        graph: &PartGraph,
    ) -> Result<(), AllocError> {
        let mut flags = Vec::from_elem(alloc, false, self.invs.len())?;
        tell_counted::<Brand>(&mut self.planes, graph, &mut flags, Blank::new(1));
        told.push_str(" ").and(put_flags(told, &flags))
    }

    /// Finds the marks of the graph.
    fn find(&mut self, graph: &PartGraph) {
        find_counted::<Brand>(&mut self.planes, &mut self.clashes, graph, Blank::new(1));
    }

    /// Merges a pair, updates the marks, and reports whether it is a pair.
    fn join(&mut self, graph: &mut PartGraph, p: u32, q: u32) -> bool {
        if q >= MAX_PARTITIONS || !is_pair(graph, p, q) {
            return false;
        }
        graph.merge(p, q);
        join_counted::<Brand>(
            &mut self.planes,
            &mut self.clashes,
            graph,
            (p, q),
            Blank::new(1),
        );
        true
    }

    /// The first invariant that the merge of two ids loses, as both sets of marks report it.
    fn put_clash(&mut self, told: &mut String, p: u32, q: u32) -> Result<(), AllocError> {
        if p >= MAX_PARTITIONS || q >= MAX_PARTITIONS {
            return told.push_str(" no");
        }
        put_number(told, self.planes.first_clash(p, q)).and(put_number(
            told,
            self.clashes.first_clash(p, q),
        ))
    }

    /// Queries two ids, for example `3-7`, or merges them, for example `3+7`.
    fn put_ask(
        &mut self,
        told: &mut String,
        graph: &mut PartGraph,
        text: &str,
    ) -> Result<(), AllocError> {
        if let Some((p, q)) = pair_of(text, '-') {
            return self.put_clash(told, p, q);
        }
        let (p, q) = pair_of(text, '+').unwrap_or((0, 0));
        told.push_str(if self.join(graph, p, q) {
            " yes"
        } else {
            " no"
        })
    }

    /// The same for all queries of a text, which are separated by spaces.
    fn put_clashes(
        &mut self,
        told: &mut String,
        graph: &mut PartGraph,
        asks: &str,
    ) -> Result<(), AllocError> {
        for text in asks.split_whitespace() {
            self.put_ask(told, graph, text)?;
        }
        Ok(())
    }

    /// Reports the result of a step.
    pub fn ask(
        &mut self,
        alloc: Global,
        told: &mut String,
        graph: &mut PartGraph,
        word: &str,
        text: &str,
    ) -> Result<(), AllocError> {
        match word {
            "label" => self.put_labels(told, graph, text),
            "labels" => self.put_states(told),
            "satisfied" => self.put_satisfied(alloc, told, graph),
            "clashes" => self.put_clashes(told, graph, text),
            "marks" => {
                self.find(graph);
                Ok(())
            }
            _ => write!(told, " {}", self.invs.len()),
        }
    }
}
