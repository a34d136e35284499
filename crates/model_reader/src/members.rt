//! The members of the object in a model file, in the order in which they are written.
ghost use Rattle.std.specs.Prelude.{◌≡◌, ◌++◌, map, IfSome, OnSome};
ghost use Rattle.serde_json.specs.Written.{compact_text};
ghost use Rattle.model_file.specs.Tree.{array_of, file_text};

use crate::lists::{Spelled, take_list};
use crate::rest::Rest;
use crate::texts::take_kinds;
use invariants::{Model, Seq};
use limits::{FIRST_TYPE, MAX_INVARIANTS, MAX_PAIRS, MAX_PARTITIONS, MAX_STEPS, MAX_TYPES};
use std::alloc::Global;

/// Takes a key with the punctuation around it, and a list of at most `most` entries.
#[inline(always)]
fn take_member<T: Spelled + Drop>(
    alloc: Global,
    rest: &mut Rest<'_>,
    key: &[u8],
    most: usize,
) -> Option<Seq<T>>
    ensures { IfSome result (λ entries. rest.old
        ≡ key.now ++ (compact_text (array_of (map T.data_of entries)) ++ rest.new)) }
{
    rest.text(key)?;
    let entries = take_list::<T>(alloc, rest, most)?;
    Some(Seq::from_vec(entries))
}

/// Takes all members, and puts their values into a model.
pub(crate) fn take_members(alloc: Global, rest: &mut Rest<'_>, model: &mut Model) -> Option<()>
    ensures { OnSome result (rest.old ≡ file_text model.new ++ rest.new) }
{
    let partitions = MAX_PARTITIONS as usize;
    model.blocks = take_member(alloc, rest, b"{\"blocks\":", MAX_PAIRS as usize)?;
    model.edges = take_member(alloc, rest, b",\"edges\":", partitions * partitions)?;
    model.invariants = take_member(alloc, rest, b",\"invariants\":", MAX_INVARIANTS)?;
    rest.text(b",\"kinds\":")?;
    model.kinds = take_kinds(rest)?;
    model.merges = take_member(alloc, rest, b",\"merges\":", MAX_STEPS as usize)?;
    model.partitions = take_member(alloc, rest, b",\"partitions\":", partitions)?;
    model.splits = take_member(alloc, rest, b",\"splits\":", MAX_STEPS as usize)?;
    model.types = take_member(alloc, rest, b",\"types\":", MAX_TYPES as usize)?;
    rest.text(b",\"version\":2}")?;
    Some(())
}
