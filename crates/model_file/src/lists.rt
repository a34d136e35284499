//! Lists of entries and rows of fields, read from the tokens of a JSON text.
ghost use Rattle.std.specs.Prelude.{◌≡◌, ◌<◌, ◌≤◌, ℕ, length, OnOk};
ghost use Rattle.json.specs.Json.{parse_map};
ghost use Rattle.model_file.specs.Streams.{data_at, items_at, Answers};
ghost use Rattle.model_file.specs.Lists.{both, gathered, added, kept_each, kept_in, row_in};

use crate::stream::{Stop, open, pass_items, pass_value};
use invariants::Seq;
use json::Reader;
use std::alloc::{AllocError, Global};

/// An entry that is read from a JSON value.
pub(crate) trait Entry: Sized {
    ghost use Rattle.std.specs.Prelude.{Option};
    ghost use Rattle.serde_json.specs.Data.{Data};

    /// The entry in a value.
    ghost read_as: { Data → Option Self };

    /// Reads the entry in the next value. Arrays and objects may nest `depth` deep.
    fn read(alloc: Global, reader: &mut Reader<'_>, depth: usize) -> Result<Option<Self>, Stop>
        ensures value { Answers result (parse_map read_as (data_at depth reader.old)) reader.new }
        ensures shorter { OnOk result (length reader.new < length reader.old) };
}

/// The fields of a row: the first and the others.
pub(crate) trait Row: Sized {
    ghost use Rattle.std.specs.Prelude.{Option};
    ghost use Rattle.serde_json.specs.Data.{Items};

    /// The fields in the items.
    ghost fields_as: { Items → Option Self };

    /// Reads the fields in the items up to the closing bracket.
    fn fields(alloc: Global, reader: &mut Reader<'_>, depth: usize) -> Result<Option<Self>, Stop>
        ensures value { (n : ℕ) → length reader.old ≤ n
            → Answers result (parse_map fields_as (items_at n depth reader.old)) reader.new }
        ensures shorter { OnOk result (length reader.new < length reader.old) };
}

impl Row for () {
    ghost use Rattle.model_file.specs.Lists.{no_fields};

    ghost fields_as = { no_fields };

    #[inline(always)]
    fn fields(_alloc: Global, reader: &mut Reader<'_>, depth: usize) -> Result<Option<()>, Stop> {
        if reader.take_end_array() {
            return Ok(Some(()));
        }
        match pass_value(reader, depth) {
            Ok(()) => {}
            Err(_) => return Err(Stop::NotJson),
        }
        match pass_items(reader, depth) {
            Ok(()) => Ok(None),
            Err(_) => Err(Stop::NotJson),
        }
    }
}

/// Both, if both are there.
#[inline(always)]
fn both<A: Drop, B: Drop>(a: Option<A>, b: Option<B>) -> Option<(A, B)>
    ensures { result ≡ both a b }
{
    match (a, b) {
        (Some(a), Some(b)) => Some((a, b)),
        _ => None,
    }
}

impl<A: Entry + Drop, R: Row + Drop> Row for (A, R) {
    ghost use Rattle.model_file.specs.Lists.{one_more};

    ghost fields_as = { one_more A.read_as R.fields_as };

    #[inline(always)]
    fn fields(
        alloc: Global,
        reader: &mut Reader<'_>,
        depth: usize,
    ) -> Result<Option<(A, R)>, Stop> {
        if reader.take_end_array() {
            return Ok(None);
        }
        let first = match A::read(alloc, reader, depth) {
            Ok(first) => first,
            Err(e) => return Err(e),
        };
        match R::fields(alloc, reader, depth) {
            Ok(others) => Ok(both(first, others)),
            Err(e) => Err(e),
        }
    }
}

/// Reads the row in the next value.
#[inline(always)]
pub(crate) fn row_of<R: Row + Drop>(
    alloc: Global,
    reader: &mut Reader<'_>,
    depth: usize,
) -> Result<Option<R>, Stop>
    ensures value { Answers result (parse_map (row_in R.fields_as) (data_at depth reader.old))
        reader.new }
    ensures shorter { OnOk result (length reader.new < length reader.old) }
{
    match open(reader, depth) {
        Ok(true) => R::fields(alloc, reader, depth - 1),
        Ok(false) => Ok(None),
        Err(e) => Err(e),
    }
}

/// When a list is over: no model has a list that begins with these entries, so no more of it is kept.
pub(crate) trait Bound<T> {
    ghost use Rattle.std.specs.Prelude.{List, Bool};

    /// Whether no model has a list that begins with these entries.
    ghost over: { List T → Bool };

    /// Whether no model has a list that begins with these entries.
    fn is_over(entries: &[T]) -> bool
        ensures { result ≡ over entries.now };
}

/// A list that is kept whole.
pub(crate) struct Whole;

impl<T> Bound<T> for Whole {
    ghost use Rattle.model_file.specs.Lists.{never_over};

    ghost over = { never_over };

    #[inline(always)]
    fn is_over(_entries: &[T]) -> bool {
        false
    }
}

/// The entries of a list so far, and whether each value was an entry. No entry is kept after those at which the list is over.
#[derive(Drop)]
struct Gathered<T> {
    entries: Vec<T>,
    is_whole: bool,
}

impl<T: Drop> Gathered<T> {
    /// Adds the entry of the next value, unless the list is over.
    #[inline(always)]
    fn add<B: Bound<T>>(&mut self, entry: Option<T>) -> Result<(), AllocError>
        ensures { OnOk result (gathered self.new ≡ added B.over (gathered self.old) entry) }
    {
        match entry {
            Some(entry) => if self.is_whole && !B::is_over(&self.entries) {
                self.entries.push(entry)?;
            },
            None => self.is_whole = false,
        }
        Ok(())
    }

    /// The list, if each value was an entry.
    fn list(self) -> Option<Seq<T>>
        ensures { result ≡ gathered self }
    {
        if self.is_whole {
            Some(Seq::from_vec(self.entries))
        } else {
            None
        }
    }
}

/// The entries up to the bracket that closes an array.
fn entries<T: Entry + Drop, B: Bound<T>>(
    alloc: Global,
    reader: &mut Reader<'_>,
    depth: usize,
) -> Result<Option<Seq<T>>, Stop>
    ensures value { Answers result
        (parse_map (kept_each B.over T.read_as) (items_at (length reader.old) depth reader.old)) reader.new }
    ensures shorter { OnOk result (length reader.new < length reader.old) }
{
    let mut found = Gathered {
        entries: Vec::new(alloc),
        is_whole: true,
    };
    'items: while !reader.take_end_array() {
        let entry = match T::read(alloc, reader, depth) {
            Ok(entry) => entry,
            Err(e) => return Err(e),
        };
        match found.add::<B>(entry) {
            Ok(()) => {}
            Err(_) => return Err(Stop::Memory),
        }
    }
    Ok(found.list())
}

/// Reads the list of entries in the next value, up to where it is over.
pub(crate) fn list<T: Entry + Drop, B: Bound<T>>(
    alloc: Global,
    reader: &mut Reader<'_>,
    depth: usize,
) -> Result<Option<Seq<T>>, Stop>
    ensures value { Answers result (parse_map (kept_in B.over T.read_as) (data_at depth reader.old))
        reader.new }
    ensures shorter { OnOk result (length reader.new < length reader.old) }
{
    match open(reader, depth) {
        Ok(true) => entries::<T, B>(alloc, reader, depth - 1),
        Ok(false) => Ok(None),
        Err(e) => Err(e),
    }
}
