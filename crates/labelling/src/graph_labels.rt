//! The labels of invariants in one graph.
ghost use Rattle.std.specs.Prelude.{◌≡◌, ◌≤◌, ◌<◌, ◌*◌, ℕ, IfOk, length, slice_get, Some};
ghost use Rattle.limits.specs.declared.TheConstants.{LAST_TYPE, MAX_INVARIANTS, MAX_PARTITIONS};
ghost use Rattle.invariants.specs.declared.Invariant.{Invariant};
ghost use Rattle.partition_model.specs.Graphs.{Graph};
ghost use Rattle.partition_graph.specs.Links.{AreLinksOf};
ghost use Rattle.partition_graph.specs.Seen.{seen};
ghost use Rattle.labelling.specs.Labelled.{AreLabelsOf, AreStatesAt, SaysSatisfied, SaysSwapped};

use crate::phase_rows::PhaseRows;
use crate::propagation::label;
use invariants::Invariant;
use partition_graph::{Links, View};
use std::alloc::{AllocError, Global};
use std::marker::Model;

/// The labels of invariants at the partitions of one graph. `Planes` can label further graphs, and has marks besides; this
/// takes less memory.
///
/// Contracts see what they see of `Planes`, with no marks.
#[derive(Drop)]
pub struct GraphLabels {
    phase_rows: PhaseRows,
}

impl Model for GraphLabels {
    ghost use Rattle.labelling.specs.PhaseRows.{found};
    ghost use Rattle.labelling.specs.Found.{AreNoted};
    ghost use Rattle.labelling.specs.Labelled.{Labelling, labelling_in, no_marks};

    ghost Value = { Labelling };

    ghost view = { λ p. labelling_in p.phase_rows.bound p.phase_rows.invs.items p.phase_rows.rows no_marks };

    ghost invariant = { λ p. AreNoted (found p.phase_rows) };
}

impl GraphLabels {
    /// The labels of these invariants, at most `MAX_INVARIANTS`, each of which names types up to `LAST_TYPE`, in the graph
    /// that `view` shows. `links` must be its edges. Only this call allocates; `AllocError` is returned if there is not
    /// enough memory.
    pub fn find(
        alloc: Global,
        view: &View<'_>,
        links: &Links,
        invs: &[Invariant],
    ) -> Result<GraphLabels, AllocError>
        requires few { length invs.now ≤ MAX_INVARIANTS }
        requires named { (k : ℕ) (inv : Invariant) → slice_get invs.now k ≡ Some inv
            → (inv.a ≤ LAST_TYPE) × (inv.b ≤ LAST_TYPE) }
        requires links { AreLinksOf links.now (seen view.now) }
        ensures list { IfOk result (λ made. made.invs ≡ invs.now) }
        ensures labels { IfOk result (λ made. AreLabelsOf made (seen view.now)) }
    {
        let mut phase_rows = PhaseRows::make(alloc, invs)?;
        label(&mut phase_rows, view, links.as_slice());
        Ok(GraphLabels { phase_rows })
    }

    /// Sets the flag of each invariant, in the order of the list, to whether the graph satisfies it. `flags` must have one
    /// flag for each invariant.
    pub fn tell_satisfied(&self, flags: &mut [bool])
        requires room { length flags.old ≡ length (self.now).invs }
        ensures { (g : Graph) → AreLabelsOf self.now g → SaysSatisfied g (self.now).invs flags.new }
    {
        self.phase_rows.tell_unnoted(flags);
    }

    /// What `words` needs to know about the 64 invariants from number `64 * place` on: a bit for each. It is the same for each
    /// partition.
    pub fn swapped(&self, place: usize) -> u64
        requires { place * 64 < length (self.now).invs }
        ensures { SaysSwapped (self.now).invs place result }
    {
        self.phase_rows.swapped(place)
    }

    /// The labels at p of the 64 invariants from number `64 * place` on, or of as many as there are: a word for each
    /// state, with a bit for each invariant, the first as the lowest. `swapped` is what the function of this name
    /// returns for the place.
    pub fn words(&self, place: usize, p: u32, swapped: u64) -> [u64; 3]
        requires place { place * 64 < length (self.now).invs }
        requires id { p < MAX_PARTITIONS }
        requires swapped { SaysSwapped (self.now).invs place swapped }
        ensures { AreStatesAt self.now place p result }
    {
        self.phase_rows.words(place, p, swapped)
    }
}
