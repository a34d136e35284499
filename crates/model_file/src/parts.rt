//! The parts of a model file, each read and tested.
ghost use Rattle.std.specs.Prelude.{◌≡◌, ◌≤◌};
ghost use Rattle.limits.specs.declared.TheConstants.{MAX_TYPES};
ghost use Rattle.model_file.specs.Table.{type_at};
ghost use Rattle.model_file.specs.Reading.{Gives, or_shape};
ghost use Rattle.model_file.specs.Found.{GivesBy, head_from, types_from, kinds_tested, partitions_from, edges_from, invariants_from, merges_from, splits_from, blocks_from};

use crate::found::Found;
use crate::history::{blocks_hold, merges_hold, splits_hold};
use crate::refusal::{Field, FileError};
use crate::shape::{edges_hold, invariants_hold, partitions_hold, types_hold};
use crate::version::Version;
use invariants::{Block, Edge, Kinds, Listed, Merge, Partition, Seq, Split, Text};

/// Refuses any other version, and then a key that no file of this version has.
pub(crate) fn test_head(version: Version, found: &Found) -> Result<(), FileError>
    ensures { Gives result (head_from version found.now) }
{
    let Some(number) = found.version else {
        return Err(FileError::Shape(Field::Version));
    };
    if number != version.number() {
        return Err(FileError::Version(number));
    }
    if found.has_extra {
        return Err(FileError::Shape(Field::Extra));
    }
    Ok(())
}

/// The entries of a part.
fn part<T>(entries: &Option<Seq<T>>, field: Field) -> Result<&[T], FileError>
    ensures { GivesBy (λ xs. xs.now) result (or_shape field entries.now) }
{
    match entries {
        Some(entries) => Ok(entries.as_slice()),
        None => Err(FileError::Shape(field)),
    }
}

/// The types, at most as many as the version allows.
pub(crate) fn types_in(version: Version, found: &Found) -> Result<&[Text], FileError>
    ensures { GivesBy (λ xs. xs.now) result (types_from version found.now) }
{
    let types = part(&found.types, Field::Types)?;
    if !types_hold(version.max_types(), types) {
        return Err(FileError::Shape(Field::Types));
    }
    Ok(types)
}

/// The kinds of invariants: three for a file of version 1, and those that a file of version 2 names.
pub(crate) fn kinds_in(version: Version, found: &Found) -> Result<Kinds, FileError>
    ensures { Gives result (kinds_tested version found.now) }
{
    match version {
        Version::One => return Ok(Kinds::Three),
        Version::Two => {}
    }
    match found.kinds {
        Some(kinds) => Ok(kinds),
        None => Err(FileError::Shape(Field::Kinds)),
    }
}

/// The partitions, for this number of types.
pub(crate) fn partitions_in(found: &Found, types: usize) -> Result<&[Partition], FileError>
    requires { types ≤ MAX_TYPES }
    ensures { GivesBy (λ xs. xs.now) result (partitions_from types found.now) }
{
    let partitions = part(&found.partitions, Field::Partitions)?;
    if !partitions_hold(types, partitions) {
        return Err(FileError::Shape(Field::Partitions));
    }
    Ok(partitions)
}

/// The edges between the partitions of the table.
pub(crate) fn edges_in<'a>(found: &'a Found, table: &[Option<u16>]) -> Result<&'a [Edge], FileError>
    ensures { GivesBy (λ xs. xs.now) result (edges_from (type_at table.now) found.now) }
{
    let edges = part(&found.edges, Field::Edges)?;
    if !edges_hold(table, edges) {
        return Err(FileError::Shape(Field::Edges));
    }
    Ok(edges)
}

/// The invariants of these kinds, for this number of types, with labels for this number of partitions.
pub(crate) fn invariants_in(
    found: &Found,
    kinds: Kinds,
    types: u32,
    partitions: usize,
) -> Result<&[Listed], FileError>
    requires { types ≤ MAX_TYPES }
    ensures { GivesBy (λ xs. xs.now) result (invariants_from kinds types partitions found.now) }
{
    let invariants = part(&found.invariants, Field::Invariants)?;
    if !invariants_hold(kinds, types, partitions, invariants) {
        return Err(FileError::Shape(Field::Invariants));
    }
    Ok(invariants)
}

/// The merges.
pub(crate) fn merges_in(found: &Found) -> Result<&[Merge], FileError>
    ensures { GivesBy (λ xs. xs.now) result (merges_from found.now) }
{
    let merges = part(&found.merges, Field::Merges)?;
    if !merges_hold(merges) {
        return Err(FileError::Shape(Field::Merges));
    }
    Ok(merges)
}

/// The splits, for this number of listed invariants.
pub(crate) fn splits_in(found: &Found, invariants: usize) -> Result<&[Split], FileError>
    ensures { GivesBy (λ xs. xs.now) result (splits_from invariants found.now) }
{
    let splits = part(&found.splits, Field::Splits)?;
    if !splits_hold(invariants, splits) {
        return Err(FileError::Shape(Field::Splits));
    }
    Ok(splits)
}

/// The blocks, for this number of listed invariants.
pub(crate) fn blocks_in<'a>(
    found: &'a Found,
    table: &[Option<u16>],
    invariants: usize,
    splits: &[Split],
) -> Result<&'a [Block], FileError>
    ensures { GivesBy (λ xs. xs.now) result (blocks_from (type_at table.now) invariants splits.now found.now) }
{
    let blocks = part(&found.blocks, Field::Blocks)?;
    if !blocks_hold(table, invariants, splits, blocks) {
        return Err(FileError::Shape(Field::Blocks));
    }
    Ok(blocks)
}
