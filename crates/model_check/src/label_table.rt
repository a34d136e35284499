//! The labels of one invariant, by ids.
ghost use Rattle.std.specs.Prelude.{◌≡◌, ◌<◌, ℕ, List, length, map, slice_index, All};
ghost use Rattle.limits.specs.declared.TheConstants.{MAX_PARTITIONS};
ghost use Rattle.invariants.specs.Labels.{IsDigit, number_of};
ghost use Rattle.model_shape.specs.Shapes.{IsShapedListed, IsWellShaped};
ghost use Rattle.models.specs.Models.{label_at};
ghost use Rattle.model_check.specs.Rows.{IsMarkable, AreApart};

use crate::sets::IDS;
use crate::states::StateSet;
use invariants::{Listed, Partition};
use std::alloc::{AllocError, Global};
use std::marker::Model;

/// A label for each id. Contracts see the list of them.
#[derive(Drop)]
pub struct LabelTable {
    sets: Vec<StateSet>,
}

impl Model for LabelTable {
    ghost Value = { List ℕ };

    ghost view = { λ table. table.sets.items };

    ghost invariant = { λ table. length table.sets.items ≡ MAX_PARTITIONS };
}

/// Puts the label of each partition, given as its digit, at the place of its id. All other ids get the label of no state.
fn lay_labels(sets: &mut [StateSet], partitions: &[Partition], given: &[u8])
    requires size { length sets.old ≡ MAX_PARTITIONS }
    requires markable { All IsMarkable partitions.now }
    requires apart { AreApart partitions.now }
    requires count { length given.now ≡ length partitions.now }
    requires given { All IsDigit given.now }
    ensures { (p : ℕ) → slice_index sets.new p
        ≡ label_at p partitions.now (map number_of given.now) }
{
    sets.fill(StateSet::none());
    for (i, partition) in partitions.iter().enumerate() {
        sets[partition.id as usize] = StateSet::of(given[i] - b'0');
    }
}

impl LabelTable {
    /// Labels of no state.
    pub fn make(alloc: Global) -> Result<LabelTable, AllocError> {
        Ok(LabelTable {
            sets: vec![in alloc; StateSet::none(); IDS]?,
        })
    }

    /// The label of an id.
    pub fn get(&self, p: u32) -> StateSet
        requires { p < MAX_PARTITIONS }
        ensures { result ≡ slice_index self.now p }
    {
        self.sets[p as usize]
    }

    /// Puts the labels of the listed invariant at the places of the ids. All other ids get the label of no state. The former
    /// labels are overwritten.
    pub fn lay(&mut self, model: &invariants::Model, listed: &Listed)
        requires shaped { IsWellShaped model.now }
        requires listed { IsShapedListed (model.now).kinds (length (model.now).types)
            (length (model.now).partitions) listed.now }
        ensures { (p : ℕ) → slice_index self.new p
            ≡ label_at p (model.now).partitions (listed.now).labels }
    {
        lay_labels(
            &mut self.sets,
            model.partitions.as_slice(),
            listed.labels.as_digits(),
        );
    }
}
