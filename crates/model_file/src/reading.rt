//! Reading a model file of version 2, or of version 1.
ghost use Rattle.std.specs.Prelude.{◌≡◌, ◌≤◌, [], length, Ok, Some, IfOk, IfErr, OnOk, unwrap_or};
ghost use Rattle.limits.specs.declared.TheConstants.{MAX_TYPES};
ghost use Rattle.model_shape.specs.Shapes.{IsWellShaped, IsOfVersion1};
ghost use Rattle.model_file.specs.Reading.{Gives, Fails, reads_as, reads, reads_version_1};
ghost use Rattle.model_file.specs.Table.{type_at};
ghost use Rattle.model_file.specs.Found.{nothing, kinds_from, model_from, with_others, after_partitions, parts_from};

use crate::found::{Found, read_found};
use crate::parts::{
    blocks_in, edges_in, invariants_in, kinds_in, merges_in, partitions_in, splits_in, test_head,
    types_in,
};
use crate::refusal::{Field, FileError};
use crate::table::types_by_id;
use crate::version::Version;
use invariants::{Kinds, Model, Partition, Seq, Text};
use std::alloc::Global;

/// Tests the parts that come after the partitions, in order. The table has the types of the partitions.
fn test_others(
    found: &Found,
    table: &[Option<u16>],
    types: &[Text],
    kinds: Kinds,
    partitions: &[Partition],
) -> Result<(), FileError>
    requires { length types.now ≤ MAX_TYPES }
    ensures ok { OnOk result (after_partitions (type_at table.now) types.now kinds partitions.now found.now
        ≡ Ok (with_others types.now kinds partitions.now found.now)) }
    ensures err { IfErr result (λ e.
        Fails e (after_partitions (type_at table.now) types.now kinds partitions.now found.now)) }
{
    edges_in(found, table)?;
    let invariants = invariants_in(found, kinds, types.len() as u32, partitions.len())?;
    merges_in(found)?;
    let splits = splits_in(found, invariants.len())?;
    blocks_in(found, table, invariants.len(), splits)?;
    Ok(())
}

/// Tests the parts in order.
fn test_parts(version: Version, alloc: Global, found: &Found) -> Result<(), FileError>
    ensures ok { OnOk result (parts_from version found.now ≡ Ok (model_from version found.now)) }
    ensures err { IfErr result (λ e. Fails e (parts_from version found.now)) }
{
    let types = types_in(version, found)?;
    let kinds = kinds_in(version, found)?;
    let partitions = partitions_in(found, types.len())?;
    let table = types_by_id(alloc, partitions)?;
    test_others(found, &table, types, kinds, partitions)
}

/// The entries that were found.
fn entries<T: Drop>(alloc: Global, found: Option<Seq<T>>) -> Seq<T>
    ensures { result ≡ unwrap_or found [] }
{
    match found {
        Some(entries) => entries,
        None => Seq::from_vec(Vec::new(alloc)),
    }
}

/// The kinds that are asked for.
fn kinds_from(version: Version, found: Option<Kinds>) -> Kinds
    ensures { result ≡ kinds_from version found }
{
    match (version, found) {
        (Version::Two, Some(kinds)) => kinds,
        _ => Kinds::Three,
    }
}

/// The model of what was found.
fn model_from(version: Version, alloc: Global, found: Found) -> Model
    ensures { result ≡ model_from version found }
{
    Model {
        types: entries(alloc, found.types),
        kinds: kinds_from(version, found.kinds),
        partitions: entries(alloc, found.partitions),
        edges: entries(alloc, found.edges),
        invariants: entries(alloc, found.invariants),
        splits: entries(alloc, found.splits),
        merges: entries(alloc, found.merges),
        blocks: entries(alloc, found.blocks),
    }
}

/// Reads and tests a whole file.
fn read_all(
    version: Version,
    alloc: Global,
    bytes: &[u8],
    found: &mut Found,
) -> Result<(), FileError>
    requires { found.old ≡ nothing }
    ensures ok { OnOk result (reads_as version bytes.now ≡ Ok (model_from version found.new)) }
    ensures err { IfErr result (λ e. Fails e (reads_as version bytes.now)) }
{
    if bytes.len() > version.max_bytes() {
        return Err(FileError::TooLong);
    }
    let is_object = read_found(version, alloc, bytes, found)?;
    if !is_object {
        return Err(FileError::Shape(Field::Root));
    }
    test_head(version, found)?;
    test_parts(version, alloc, found)
}

/// The model of the bytes of a file of this version, or the first refusal.
fn read_as(version: Version, alloc: Global, bytes: &[u8]) -> Result<Model, FileError>
    ensures { Gives result (reads_as version bytes.now) }
{
    let mut found = Found::nothing();
    match read_all(version, alloc, bytes, &mut found) {
        Ok(()) => Ok(model_from(version, alloc, found)),
        Err(e) => Err(e),
    }
}

/// The model in the bytes of a file of version 2, or the first refusal. The refusals, in their order:
///
/// - `TooLong`: there are more than 536,870,912 bytes (`limits::MAX_MODEL_BYTES`).
/// - `NotJson`: the bytes are not a JSON text.
/// - `Shape(Root)`: the JSON value is not an object.
/// - `Shape(Version)`: there is no version number. `Version`: it is not 2.
/// - `Shape(Extra)`: there is a key that no file of version 2 has.
/// - `Shape` of the first part, in the order of `Field`, that is missing, does not have its form or breaks its rule.
///
/// `Memory` may be returned instead of any answer.
pub fn read_model(alloc: Global, bytes: &[u8]) -> Result<Model, FileError>
    ensures ok { IfOk result (λ model. reads bytes.now ≡ Ok model) }
    ensures shape { IfOk result IsWellShaped }
    ensures err { IfErr result (λ e. Fails e (reads bytes.now)) }
{
    read_as(Version::Two, alloc, bytes)
}

/// The model in the bytes of a file of version 1, or the first refusal. The model asks for three kinds of invariants.
///
/// The refusals are those of `read_model`, in the same order, with these differences:
///
/// - `TooLong`: there are more than 134,217,728 bytes (`limits::VERSION_1_BYTES`).
/// - `Version`: the version is not 1.
/// - `Shape(Extra)`: the key `kinds` is refused too.
/// - `Shape(Types)`: more than 128 types (`limits::VERSION_1_TYPES`) are refused too.
/// - `Shape(Kinds)` is never returned.
pub fn read_version_1(alloc: Global, bytes: &[u8]) -> Result<Model, FileError>
    ensures ok { IfOk result (λ model. reads_version_1 bytes.now ≡ Ok model) }
    ensures shape { IfOk result IsWellShaped }
    ensures first { IfOk result IsOfVersion1 }
    ensures err { IfErr result (λ e. Fails e (reads_version_1 bytes.now)) }
{
    read_as(Version::One, alloc, bytes)
}
