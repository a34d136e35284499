//! The ids around single ids of a graph, each found once.
ghost use Rattle.std.specs.Prelude.{◌≡◌, ◌==◌, ◌<◌, ◌⊎◌, ℕ, [], IfOk, IfSome, Some, slice_get};
ghost use Rattle.limits.specs.declared.TheConstants.{MAX_PARTITIONS};
ghost use Rattle.partition_graph.specs.Seen.{seen};
ghost use Rattle.partition_model.specs.Graphs.{Merged as merged_graph};
ghost use Rattle.path_finder.specs.IdSets.{has_id};
ghost use Rattle.path_finder.specs.Keeping.{KeepsAround};
ghost use Rattle.path_finder.specs.Surveys.{IsSurveyOf};
ghost use Rattle.path_finder.specs.declared.survey.Surrounding.{Surrounding};

use crate::id_set::IdSet;
use crate::reach::Around;
use crate::sight::Sight;
use invariants::Merge;
use limits::MAX_PARTITIONS;
use std::alloc::{AllocError, Global};
use std::marker::Model;

/// How many ids there may be.
const IDS: usize = MAX_PARTITIONS as usize;

/// An id of a graph, and the ids around it.
#[derive(Clone, Copy)]
pub struct Surrounding {
    /// The id.
    pub id: u32,
    /// The ids that walks from it reach, and those from which walks reach it.
    pub near: IdSet,
}

/// The ids around some ids of a graph. Contracts see the list of what was found.
#[derive(Drop)]
pub struct Survey {
    found: Vec<Surrounding>,
    /// For each id, at which place of the list it is if it is there.
    places: [u16; IDS],
}

impl Model for Survey {
    ghost use Rattle.std.specs.Prelude.{◌≤◌, List, vec_capacity};
    ghost use Rattle.limits.specs.declared.TheConstants.{MAX_PARTITIONS};
    ghost use Rattle.path_finder.specs.declared.survey.Surrounding.{Surrounding};

    ghost Value = { List Surrounding };

    ghost view = { λ s. s.found.items };

    ghost invariant = { λ s. MAX_PARTITIONS ≤ vec_capacity s.found };
}

impl Survey {
    /// Nothing is found yet, and there is room for all ids. `AllocError` is returned if there is not enough memory.
    pub fn make(alloc: Global) -> Result<Survey, AllocError>
        ensures { IfOk result (λ made. made ≡ []) }
    {
        let found = Vec::with_capacity(alloc, IDS)?;
        Ok(Survey {
            found,
            places: [0; IDS],
        })
    }

    /// Forgets all that was found.
    pub fn forget(&mut self)
        ensures { self.new ≡ [] }
    {
        self.found.clear();
    }

    /// The ids around this id, if they were found.
    fn known(&self, id: u32) -> Option<IdSet>
        requires { id < MAX_PARTITIONS }
        ensures { IfSome result
            (λ near. (k : ℕ) × (slice_get self.now k ≡ Some (record { id = id; near = near }))) }
    {
        let place = usize::from(self.places[id as usize]);
        let Some(found) = self.found.get(place) else {
            return None;
        };
        if found.id != id {
            return None;
        }
        Some(found.near)
    }

    /// Keeps what was found for an id, if there is room.
    fn keep(&mut self, id: u32, near: IdSet)
        requires { id < MAX_PARTITIONS }
        ensures { (k : ℕ) (s : Surrounding) → slice_get self.new k ≡ Some s
            → (slice_get self.old k ≡ Some s) ⊎ (s ≡ record { id = id; near = near }) }
    {
        let place = self.found.len();
        if place >= IDS {
            return;
        }
        self.places[id as usize] = place as u16;
        self.found.push_reserved(Surrounding { id, near });
    }
}

/// The ids around this id. They are kept for the next time.
fn near_of(survey: &mut Survey, around: &mut Around, sight: &Sight<'_>, id: u32) -> IdSet
    requires id { id < MAX_PARTITIONS }
    requires surveyed { IsSurveyOf survey.old (seen sight.now.view) }
    ensures around { KeepsAround (has_id result) (seen sight.now.view) (λ p. p == id) }
    ensures surveyed { IsSurveyOf survey.new (seen sight.now.view) }
{
    if let Some(near) = survey.known(id) {
        return near;
    }
    around.find(sight, id);
    survey.keep(id, around.near);
    around.near
}

/// The ids around the merged id in the graph as it would be after the merge. `sight` shows the graph before it.
pub(crate) fn near_merge(
    survey: &mut Survey,
    around: &mut Around,
    sight: &Sight<'_>,
    merge: Merge,
) -> IdSet
    requires p { merge.p < MAX_PARTITIONS }
    requires q { merge.q < MAX_PARTITIONS }
    requires surveyed { IsSurveyOf survey.old (seen sight.now.view) }
    ensures around { KeepsAround (has_id result)
        (merged_graph (seen sight.now.view) merge.p merge.q) (λ u. u == merge.p) }
    ensures surveyed { IsSurveyOf survey.new (seen sight.now.view) }
{
    let near_p = near_of(survey, around, sight, merge.p);
    let near_q = near_of(survey, around, sight, merge.q);
    near_p.with(&near_q)
}
