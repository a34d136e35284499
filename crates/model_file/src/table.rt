//! The types of listed partitions, by id.
ghost use Rattle.std.specs.Prelude.{◌≡◌, ◌≤◌, ◌<◌, ◌==◌, ℕ, All, IfOk, OnOk, List, Option, Some, None, length, if◌then◌else◌, slice_index_or, vec_len};
ghost use Rattle.limits.specs.declared.TheConstants.{MAX_PARTITIONS};
ghost use Rattle.std.specs.Option.{option_or};
ghost use Rattle.model_file.specs.Rules.{type_of};
ghost use Rattle.model_file.specs.Table.{type_at};

use invariants::Partition;
use limits::MAX_PARTITIONS;
use std::alloc::{AllocError, Global};

/// The type that the table has for an id.
pub(crate) fn type_at(table: &[Option<u16>], id: u32) -> Option<u16>
    ensures { result ≡ type_at table.now id }
{
    let id = id as usize;
    if id >= table.len() {
        return None;
    }
    table[id]
}

/// Notes the type of a partition, unless one is noted for its id.
fn note(table: &mut [Option<u16>], partition: Partition)
    requires { partition.id < length table.old }
    ensures { (id : ℕ)
        → type_at table.new id
        ≡ option_or (type_at table.old id)
        (if partition.id == id then Some partition.typ else None) }
{
    let id = partition.id as usize;
    if table[id].is_none() {
        table[id] = Some(partition.typ);
    }
}

/// The types of partitions by their ids. If several partitions have one id, the first counts.
pub(crate) fn types_by_id(
    alloc: Global,
    partitions: &[Partition],
) -> Result<Vec<Option<u16>>, AllocError>
    requires { All (λ p. p.id < MAX_PARTITIONS) partitions.now }
    ensures { IfOk result (λ table. (id : ℕ) → type_at table.items id ≡ type_of partitions.now id) }
{
    let mut table = Vec::new(alloc);
    table.resize(MAX_PARTITIONS as usize, None)?;
    'partitions: for partition in partitions {
        note(&mut table, *partition);
    }
    Ok(table)
}
