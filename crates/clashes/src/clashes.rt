//! What a merge loses, for all invariants at once.
ghost use Rattle.std.specs.Prelude.{◌≡◌, ◌≢◌, ◌<◌, ◌≤◌, ◌+◌, length, IfOk, MatchOption};
ghost use Rattle.limits.specs.declared.TheConstants.{LAST_TYPE, MAX_INVARIANTS};
ghost use Rattle.partition_model.specs.Assignments.{Assignment, G, IsTyped};
ghost use Rattle.partition_model.specs.Coarsening.{merge, IsPair};
ghost use Rattle.clashes.specs.Rules.{AreNamedUpTo};

use crate::growing::{grow, grow_from};
use crate::mark_rows::MarkRows;
use invariants::Invariant;
use limits::MAX_PARTITIONS;
use partition_graph::{Links, PartGraph, View};
use std::alloc::{AllocError, Global};
use std::marker::Model;
use std::sync::ledger::Ledger;
use steps::Steps;

/// Two marks for each of some invariants at each id of a graph. The first says that some walk from INITIAL to the id
/// brings the monitor into its critical state. The second says that some walk from the id to TERMINAL brings it from
/// that state into its bad one. A merge of two ids loses an invariant that the graph satisfies exactly if one of them
/// has the first mark and the other has the second. Marks say nothing about invariants that the graph does not satisfy,
/// or about ids on no path.
///
/// Contracts see the list of the invariants, and for each id two rows of marks, with one mark for each invariant.
/// Invariants are named by their numbers in the list, which count from 0.
#[derive(Drop)]
pub struct Clashes {
    mark_rows: MarkRows,
    /// The edges of the graph, gathered again for each call.
    links: Links,
}

impl Model for Clashes {
    ghost use Rattle.clashes.specs.Marks.{Marks};

    ghost Value = { Marks };

    ghost view = { λ s. s.mark_rows };
}

impl Clashes {
    ghost use Rattle.clashes.specs.Marks.{AreMarksOf, NoClash, IsFirstClash};

    /// Room for the marks of at most `MAX_INVARIANTS` invariants at `MAX_PARTITIONS` ids. The types that the invariants
    /// name have numbers up to `LAST_TYPE`. Only this call allocates; `AllocError` is returned if there is not enough
    /// memory.
    pub fn make(alloc: Global, invs: &[Invariant]) -> Result<Clashes, AllocError>
        requires few { length invs.now ≤ MAX_INVARIANTS }
        requires named { AreNamedUpTo LAST_TYPE invs.now }
        ensures { IfOk result (λ made. made.invs ≡ invs.now) }
    {
        let mark_rows = MarkRows::make(alloc, invs)?;
        let links = Links::make(alloc)?;
        Ok(Clashes { mark_rows, links })
    }

    /// Finds the marks of this graph, in place of those before. It counts one step.
    pub fn find<L: Ledger>(&mut self, graph: &PartGraph, steps: &mut Steps<L>)
        ensures invs { (self.new).invs ≡ (self.old).invs }
        ensures marks { AreMarksOf self.new (G (graph.now).traces) }
        ensures counted { steps.new ≡ steps.old + 1 }
    {
        steps.tick();
        self.links.gather(&View::Plain(graph));
        self.mark_rows.clear(graph.ids_used());
        grow(&mut self.mark_rows, self.links.as_slice(), graph);
    }

    /// Updates the marks after a merge: if they were those of the graph before `merge(p, q)`, they become those of this
    /// graph, which the merge made. The marks of q go to p, and propagate from there. It counts one step.
    pub fn join<L: Ledger>(&mut self, graph: &PartGraph, p: u32, q: u32, steps: &mut Steps<L>)
        requires kept { p < MAX_PARTITIONS }
        requires gone { q < MAX_PARTITIONS }
        requires apart { p ≢ q }

        // The invariants stay, and the marks are those after the merge.
        ensures invs { (self.new).invs ≡ (self.old).invs }
        ensures marks { (h : Assignment) → IsTyped h → IsPair (G h) p q
            → (graph.now).traces ≡ merge p q h
            → AreMarksOf self.old (G h) → AreMarksOf self.new (G (graph.now).traces) }
        ensures counted { steps.new ≡ steps.old + 1 }
    {
        steps.tick();
        self.links.gather(&View::Plain(graph));
        self.mark_rows.join(p, q);
        grow_from(&mut self.mark_rows, self.links.as_slice(), graph, p);
    }

    /// The number of the first invariant for which p and q clash: one of them has the first mark and the other has the
    /// second. `None` is returned if they clash for none. No mark changes. The result is meaningful only for invariants
    /// that the graph satisfies and ids on its paths.
    pub fn first_clash(&mut self, p: u32, q: u32) -> Option<usize>
        requires one { p < MAX_PARTITIONS }
        requires other { q < MAX_PARTITIONS }
        ensures same { self.new ≡ self.old }
        ensures first { MatchOption result (NoClash self.old p q) (IsFirstClash self.old p q) }
    {
        self.mark_rows.first_clash(p, q)
    }
}
