//! The entries of a model's lists, read from the tokens of a JSON text.
ghost use Rattle.std.specs.Prelude.{◌≡◌, ◌^◌, option_and_then};
ghost use Rattle.model_file.specs.Entries.{if_below, kind_named, kinds_from};

use crate::labels::Labels;
use crate::lists::{Entry, Whole, list, row_of};
use crate::stream::{Stop, number, string};
use invariants::{
    Block, Edge, Ids, Invariant, Kind, Kinds, Listed, Merge, Partition, Seq, Split, Text,
};
use json::Reader;
use std::alloc::Global;

/// The number, if it is below 2^32.
#[inline(always)]
fn below_32(n: Option<u64>) -> Option<u32>
    ensures { result ≡ option_and_then (if_below (2 ^ 32)) n }
{
    let n = n?;
    if n >= 1 << 32 {
        return None;
    }
    Some(n as u32)
}

/// The number, if it is below 2^16.
#[inline(always)]
fn below_16(n: Option<u64>) -> Option<u16>
    ensures { result ≡ option_and_then (if_below (2 ^ 16)) n }
{
    let n = n?;
    if n >= 1 << 16 {
        return None;
    }
    Some(n as u16)
}

impl Entry for u64 {
    ghost use Rattle.model_file.specs.Streams.{whole_in};

    ghost read_as = { whole_in };

    #[inline(always)]
    fn read(_alloc: Global, reader: &mut Reader<'_>, depth: usize) -> Result<Option<u64>, Stop> {
        number(reader, depth)
    }
}

/// An id, a count or a place.
impl Entry for u32 {
    ghost use Rattle.model_file.specs.Entries.{number_in};

    ghost read_as = { number_in };

    #[inline(always)]
    fn read(_alloc: Global, reader: &mut Reader<'_>, depth: usize) -> Result<Option<u32>, Stop> {
        match number(reader, depth) {
            Ok(n) => Ok(below_32(n)),
            Err(e) => Err(e),
        }
    }
}

/// The number of a type.
impl Entry for u16 {
    ghost use Rattle.model_file.specs.Entries.{type_in};

    ghost read_as = { type_in };

    #[inline(always)]
    fn read(_alloc: Global, reader: &mut Reader<'_>, depth: usize) -> Result<Option<u16>, Stop> {
        match number(reader, depth) {
            Ok(n) => Ok(below_16(n)),
            Err(e) => Err(e),
        }
    }
}

impl<T: Entry + Drop> Entry for Seq<T> {
    ghost use Rattle.model_file.specs.Entries.{list_in};

    ghost read_as = { list_in T.read_as };

    #[inline(always)]
    fn read(alloc: Global, reader: &mut Reader<'_>, depth: usize) -> Result<Option<Seq<T>>, Stop> {
        list::<T, Whole>(alloc, reader, depth)
    }
}

impl Entry for Ids {
    ghost use Rattle.model_file.specs.Entries.{list_in, number_in};

    ghost read_as = { list_in number_in };

    fn read(alloc: Global, reader: &mut Reader<'_>, depth: usize) -> Result<Option<Ids>, Stop> {
        match Seq::<u32>::read(alloc, reader, depth) {
            Ok(Some(ids)) => Ok(Some(Ids::from_vec(ids.into_vec()))),
            Ok(None) => Ok(None),
            Err(e) => Err(e),
        }
    }
}

impl Entry for Text {
    ghost use Rattle.serde_json.specs.Find.{as_str};

    ghost read_as = { as_str };

    fn read(alloc: Global, reader: &mut Reader<'_>, depth: usize) -> Result<Option<Text>, Stop> {
        let text = match string(reader, depth) {
            Ok(Some(text)) => text,
            Ok(None) => return Ok(None),
            Err(e) => return Err(e),
        };
        match String::from_str(alloc, text) {
            Ok(text) => Ok(Some(Text::from_string(text))),
            Err(_) => Err(Stop::Memory),
        }
    }
}

/// The kind with this name.
fn kind_named(text: &str) -> Option<Kind>
    ensures { result ≡ kind_named text.now }
{
    match text {
        "AF" => Some(Kind::AF),
        "NF" => Some(Kind::NF),
        "AP" => Some(Kind::AP),
        "IB" => Some(Kind::IB),
        _ => None,
    }
}

impl Entry for Kind {
    ghost use Rattle.model_file.specs.Entries.{kind_in};

    ghost read_as = { kind_in };

    fn read(_alloc: Global, reader: &mut Reader<'_>, depth: usize) -> Result<Option<Kind>, Stop> {
        match string(reader, depth) {
            Ok(Some(text)) => Ok(kind_named(text)),
            Ok(None) => Ok(None),
            Err(e) => Err(e),
        }
    }
}

/// These kinds, if they are the three or all four, in order.
fn kinds_from(kinds: &[Kind]) -> Option<Kinds>
    ensures { result ≡ kinds_from kinds.now }
{
    match kinds {
        [Kind::AF, Kind::NF, Kind::AP] => Some(Kinds::Three),
        [Kind::AF, Kind::NF, Kind::AP, Kind::IB] => Some(Kinds::Four),
        _ => None,
    }
}

impl Entry for Kinds {
    ghost use Rattle.model_file.specs.Entries.{kinds_named};

    ghost read_as = { kinds_named };

    fn read(alloc: Global, reader: &mut Reader<'_>, depth: usize) -> Result<Option<Kinds>, Stop> {
        match Seq::<Kind>::read(alloc, reader, depth) {
            Ok(Some(kinds)) => Ok(kinds_from(kinds.as_slice())),
            Ok(None) => Ok(None),
            Err(e) => Err(e),
        }
    }
}

impl Entry for Partition {
    ghost use Rattle.model_file.specs.Entries.{partition_in};

    ghost read_as = { partition_in };

    fn read(
        alloc: Global,
        reader: &mut Reader<'_>,
        depth: usize,
    ) -> Result<Option<Partition>, Stop> {
        match row_of::<(u32, (u16, (u32, ())))>(alloc, reader, depth) {
            Ok(Some((id, (typ, (count, ()))))) => Ok(Some(Partition { id, typ, count })),
            Ok(None) => Ok(None),
            Err(e) => Err(e),
        }
    }
}

impl Entry for Edge {
    ghost use Rattle.model_file.specs.Entries.{edge_in};

    ghost read_as = { edge_in };

    fn read(alloc: Global, reader: &mut Reader<'_>, depth: usize) -> Result<Option<Edge>, Stop> {
        match row_of::<(u32, (u32, (u32, ())))>(alloc, reader, depth) {
            Ok(Some((from, (to, (count, ()))))) => Ok(Some(Edge { from, to, count })),
            Ok(None) => Ok(None),
            Err(e) => Err(e),
        }
    }
}

impl Entry for Merge {
    ghost use Rattle.model_file.specs.Entries.{merge_in};

    ghost read_as = { merge_in };

    fn read(alloc: Global, reader: &mut Reader<'_>, depth: usize) -> Result<Option<Merge>, Stop> {
        match row_of::<(u32, (u32, ()))>(alloc, reader, depth) {
            Ok(Some((p, (q, ())))) => Ok(Some(Merge { p, q })),
            Ok(None) => Ok(None),
            Err(e) => Err(e),
        }
    }
}

impl Entry for Listed {
    ghost use Rattle.model_file.specs.Entries.{listed_in};

    ghost read_as = { listed_in };

    fn read(alloc: Global, reader: &mut Reader<'_>, depth: usize) -> Result<Option<Listed>, Stop> {
        match row_of::<(Kind, (u16, (u16, (Labels, ()))))>(alloc, reader, depth) {
            Ok(Some((kind, (a, (b, (found, ())))))) => Ok(Some(Listed {
                inv: Invariant { kind, a, b },
                labels: found.labels,
            })),
            Ok(None) => Ok(None),
            Err(e) => Err(e),
        }
    }
}

impl Entry for Split {
    ghost use Rattle.model_file.specs.Entries.{split_in};

    ghost read_as = { split_in };

    fn read(alloc: Global, reader: &mut Reader<'_>, depth: usize) -> Result<Option<Split>, Stop> {
        match row_of::<(u32, (u32, (Ids, ())))>(alloc, reader, depth) {
            Ok(Some((inv, (place, (path, ()))))) => Ok(Some(Split { inv, place, path })),
            Ok(None) => Ok(None),
            Err(e) => Err(e),
        }
    }
}

impl Entry for Block {
    ghost use Rattle.model_file.specs.Entries.{block_in};

    ghost read_as = { block_in };

    fn read(alloc: Global, reader: &mut Reader<'_>, depth: usize) -> Result<Option<Block>, Stop> {
        match row_of::<(u32, (u32, (u32, (Ids, ()))))>(alloc, reader, depth) {
            Ok(Some((p, (q, (inv, (path, ())))))) => Ok(Some(Block { p, q, inv, path })),
            Ok(None) => Ok(None),
            Err(e) => Err(e),
        }
    }
}
