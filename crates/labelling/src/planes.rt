//! The labels.
ghost use Rattle.std.specs.Prelude.{◌≡◌, ◌≢◌, ◌≤◌, ◌<◌, ◌+◌, ℕ, IfOk, MatchOption, length, slice_get, Some};
ghost use Rattle.limits.specs.declared.TheConstants.{LAST_TYPE, MAX_INVARIANTS, MAX_PARTITIONS};
ghost use Rattle.invariants.specs.declared.Invariant.{Invariant};
ghost use Rattle.partition_model.specs.Graphs.{Graph};
ghost use Rattle.partition_model.specs.Refinement.{IsFirstBroken, SatisfiesAll};
ghost use Rattle.partition_graph.specs.Seen.{seen, IsSound};
ghost use Rattle.labelling.specs.Labelled.{AreLabelsOf, digit, number_of, KeepsLabels, SaysSatisfied};
ghost use Rattle.clashes.specs.Marks.{AreMarksOf, NoClash, IsFirstClash};
ghost use Rattle.partition_model.specs.Assignments.{Assignment, G, IsTyped};
ghost use Rattle.partition_model.specs.Coarsening.{merge, IsPair};

use crate::phase_rows::PhaseRows;
use crate::propagation::label;
use clashes::Clashes;
use invariants::Invariant;
use partition_graph::{Links, PartGraph, View};
use std::alloc::{AllocError, Global};
use std::marker::Model;
use std::sync::ledger::Ledger;
use steps::Steps;

/// The labels of invariants at the partitions of a graph, and marks that show which of these invariants a merge loses.
///
/// Contracts see three parts. The list of the invariants never changes. The labels that the last labelling found are a
/// number for each invariant and each id. The marks are those of crate `clashes`.
#[derive(Drop)]
pub struct Planes {
    phase_rows: PhaseRows,
    links: Links,
    clashes: Clashes,
}

impl Model for Planes {
    ghost use Rattle.std.specs.Prelude.{◌≡◌, ◌≤◌, length};
    ghost use Rattle.limits.specs.declared.TheConstants.{MAX_INVARIANTS};
    ghost use Rattle.labelling.specs.PhaseRows.{found};
    ghost use Rattle.labelling.specs.Found.{AreNoted};
    ghost use Rattle.labelling.specs.Labelled.{Labelling, labelling_in};

    ghost Value = { Labelling };

    ghost view = { λ p. labelling_in p.phase_rows.bound p.phase_rows.invs.items p.phase_rows.rows p.clashes };

    ghost invariant = { λ p. AreNoted (found p.phase_rows) × (p.clashes.invs ≡ p.phase_rows.invs.items)
        × (length p.phase_rows.invs.items ≤ MAX_INVARIANTS) };
}

impl Planes {
    /// Planes for these invariants, at most `MAX_INVARIANTS`, each of which names types up to `LAST_TYPE`. Nothing is
    /// labelled yet. Only this call allocates; `AllocError` is returned if there is not enough memory.
    pub fn make(alloc: Global, invs: &[Invariant]) -> Result<Planes, AllocError>
        requires few { length invs.now ≤ MAX_INVARIANTS }
        requires named { (k : ℕ) (inv : Invariant) → slice_get invs.now k ≡ Some inv
            → (inv.a ≤ LAST_TYPE) × (inv.b ≤ LAST_TYPE) }
        ensures list { IfOk result (λ made. made.invs ≡ invs.now) }
        ensures listed { IfOk result (λ made. made.clashes.invs ≡ made.invs) }
    {
        let phase_rows = PhaseRows::make(alloc, invs)?;
        let links = Links::make(alloc)?;
        let clashes = Clashes::make(alloc, invs)?;
        Ok(Planes {
            phase_rows,
            links,
            clashes,
        })
    }

    /// Labels all invariants in the graph that `view` shows, in place of what was labelled before. The marks stay. It
    /// counts one step, and allocates nothing.
    pub fn label_all<L: Ledger>(&mut self, view: &View<'_>, steps: &mut Steps<L>)
        requires { IsSound view.now }
        ensures labels { AreLabelsOf self.new (seen view.now) }
        ensures same { (self.new).invs ≡ (self.old).invs }
        ensures clashes { (self.new).clashes ≡ (self.old).clashes }
        ensures few { length (self.new).invs ≤ MAX_INVARIANTS }
        ensures counted { steps.new ≡ steps.old + 1 }
    {
        steps.tick();
        self.links.gather(view);
        label(&mut self.phase_rows, view, self.links.as_slice());
    }

    /// Sets the flag of each invariant, in the order of the list, to whether the graph that `view` shows satisfies it.
    /// `flags` must have one flag for each invariant. The labels are overwritten, and the marks stay. It counts one
    /// step, and allocates nothing.
    pub fn tell_satisfied<L: Ledger>(
        &mut self,
        view: &View<'_>,
        flags: &mut [bool],
        steps: &mut Steps<L>,
    )
        requires sound { IsSound view.now }
        requires room { length flags.old ≡ length (self.old).invs }
        ensures told { SaysSatisfied (seen view.now) (self.new).invs flags.new }
        ensures same { (self.new).invs ≡ (self.old).invs }
        ensures clashes { (self.new).clashes ≡ (self.old).clashes }
        ensures counted { steps.new ≡ steps.old + 1 }
    {
        self.label_all(view, steps);
        self.phase_rows.tell_unnoted(flags);
    }

    /// The label of the invariant with this number at p: 1 for the state 0, plus 2 for the state 1, plus 4 for the
    /// state 2.
    pub fn states(&self, inv: usize, p: u32) -> u8
        requires number { inv < length (self.now).invs }
        requires id { p < MAX_PARTITIONS }
        ensures value { result ≡ digit self.now inv p }
        ensures small { result ≤ 7 }
    {
        number_of(
            self.phase_rows.has(inv, p, 0),
            self.phase_rows.has(inv, p, 1),
            self.phase_rows.has(inv, p, 2),
        )
    }

    /// The number of the first invariant that the labelled graph does not satisfy; `None` if it satisfies all.
    pub fn first_bad(&self) -> Option<usize>
        ensures { (g : Graph) → AreLabelsOf self.now g → MatchOption result
            (SatisfiesAll g (self.now).invs)
            (λ k. IsFirstBroken g (self.now).invs k) }
    {
        self.phase_rows.first_noted()
    }

    /// Finds the marks of this graph, which show what merges lose, in place of those before. The labels stay. It counts
    /// one step.
    pub fn find_clashes<L: Ledger>(&mut self, graph: &PartGraph, steps: &mut Steps<L>)
        ensures keeps { KeepsLabels self.old self.new }
        ensures labels { (g : Graph) → AreLabelsOf self.old g → AreLabelsOf self.new g }
        ensures marks { AreMarksOf (self.new).clashes (G (graph.now).traces) }
        ensures few { length (self.new).invs ≤ MAX_INVARIANTS }
        ensures counted { steps.new ≡ steps.old + 1 }
    {
        self.clashes.find(graph, steps);
    }

    /// Updates the marks after a merge: if they were those of the graph before `merge(p, q)`, they become those of this
    /// graph, which the merge made. The labels stay. It counts one step.
    pub fn join<L: Ledger>(&mut self, graph: &PartGraph, p: u32, q: u32, steps: &mut Steps<L>)
        requires kept { p < MAX_PARTITIONS }
        requires gone { q < MAX_PARTITIONS }
        requires apart { p ≢ q }

        // The labels stay.
        ensures keeps { KeepsLabels self.old self.new }
        ensures labels { (g : Graph) → AreLabelsOf self.old g → AreLabelsOf self.new g }

        // The marks are those after the merge.
        ensures marks { (h : Assignment) → IsTyped h → IsPair (G h) p q
            → (graph.now).traces ≡ merge p q h → AreMarksOf (self.old).clashes (G h)
            → AreMarksOf (self.new).clashes (G (graph.now).traces) }
        ensures counted { steps.new ≡ steps.old + 1 }
    {
        self.clashes.join(graph, p, q, steps);
    }

    /// The number of the first invariant for which p and q clash; `None` if they clash for none. The result is
    /// meaningful only for invariants that the graph satisfies and ids on its paths. Nothing changes.
    pub fn first_clash(&mut self, p: u32, q: u32) -> Option<usize>
        requires one { p < MAX_PARTITIONS }
        requires other { q < MAX_PARTITIONS }
        ensures same { self.new ≡ self.old }
        ensures first { MatchOption result
            (NoClash (self.old).clashes p q)
            (IsFirstClash (self.old).clashes p q) }
    {
        self.clashes.first_clash(p, q)
    }
}

/// The number of a set of states.
fn number_of(zeroth: bool, first: bool, second: bool) -> u8
    ensures value { result ≡ number_of zeroth first second }
    ensures small { result ≤ 7 }
{
    u8::from(zeroth) + 2 * u8::from(first) + 4 * u8::from(second)
}
