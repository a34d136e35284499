//! Partitions by their ids.
ghost use Rattle.std.specs.Prelude.{◌≡◌, ℕ, OnOk, IfOk};
ghost use Rattle.reports.specs.Reports.{found_at, or_noted, partition_with};

use invariants::Partition;
use std::alloc::{AllocError, Global};
use std::collections::BTreeMap;

/// Notes a partition under its id, unless one is already noted there.
fn note(places: &mut BTreeMap<u32, Partition>, partition: Partition) -> Result<(), AllocError>
    ensures { OnOk result ((id : ℕ)
        → found_at places.new id ≡ or_noted partition id (found_at places.old id)) }
{
    if places.contains_key(&partition.id) {
        return Ok(());
    }
    places.insert(partition.id, partition)?;
    Ok(())
}

/// The partitions by their ids. If several have one id, the first counts.
pub fn by_id(
    alloc: Global,
    partitions: &[Partition],
) -> Result<BTreeMap<u32, Partition>, AllocError>
    ensures { IfOk result (λ places. (id : ℕ)
        → found_at places id ≡ partition_with partitions.now id) }
{
    let mut places = BTreeMap::new(alloc);
    for partition in partitions {
        note(&mut places, *partition)?;
    }
    Ok(places)
}
