//! Lists of entries in their shortest spelling.
ghost use Rattle.std.specs.Prelude.{◌≡◌, [], ◌∷◌, ◌++◌, map, IfSome};
ghost use Rattle.serde_json.specs.Written.{compact_text};
ghost use Rattle.model_file.specs.Tree.{array_of};

use crate::rest::Rest;
use std::alloc::Global;

/// An entry of a model in its shortest spelling.
pub(crate) trait Spelled: Sized {
    ghost use Rattle.serde_json.specs.Data.{Data};

    /// The JSON value of an entry.
    ghost data_of: { Self → Data };

    /// Takes an entry, if its text comes next.
    fn take(alloc: Global, rest: &mut Rest<'_>) -> Option<Self>
        ensures { IfSome result (λ entry. rest.old ≡ compact_text (data_of entry) ++ rest.new) };

    /// Whether a model may list this entry next to the one before it.
    fn may_follow(&self, before: &Self) -> bool;

    /// How many entries a list gets room for at once. Room that is never written takes no memory, and a list that outgrows its
    /// room is copied, which takes both.
    #[inline(always)]
    fn room() -> usize {
        0
    }
}

/// Whether a model may list the entry at the end of these.
#[inline(always)]
fn fits<T: Spelled>(entries: &[T], entry: &T, most: usize) -> bool {
    if entries.len() >= most {
        return false;
    }
    match entries.last() {
        Some(before) => entry.may_follow(before),
        None => true,
    }
}

/// An empty list with the room that `T::room` tells.
#[inline(always)]
fn empty_list<T: Spelled + Drop>(alloc: Global) -> Option<Vec<T>>
    ensures { IfSome result (λ list. list.items ≡ []) }
{
    match Vec::with_capacity(alloc, T::room()) {
        Ok(list) => Some(list),
        Err(_) => None,
    }
}

/// Takes the entries of a list up to its closing bracket, after its opening bracket.
///
/// It gives up after `most` entries, and at an order that no model has. So a file costs no memory for entries that no model
/// has.
#[inline(always)]
fn take_entries<T: Spelled + Drop>(
    alloc: Global,
    rest: &mut Rest<'_>,
    most: usize,
) -> Option<Vec<T>>
    ensures { IfSome result (λ entries. 91 ∷ rest.old
        ≡ compact_text (array_of (map T.data_of entries.items)) ++ rest.new) }
{
    let mut entries = empty_list::<T>(alloc)?;
    if rest.takes(b']') {
        return Some(entries);
    }
    'entries: loop {
        let entry = T::take(alloc, rest)?;
        if !fits(&entries, &entry, most) {
            return None;
        }
        let Ok(()) = entries.push(entry) else {
            return None;
        };
        if rest.takes(b']') {
            return Some(entries);
        }
        rest.byte(b',')?;
    }
}

/// Takes a list of at most `most` entries.
#[inline(always)]
pub(crate) fn take_list<T: Spelled + Drop>(
    alloc: Global,
    rest: &mut Rest<'_>,
    most: usize,
) -> Option<Vec<T>>
    ensures { IfSome result (λ entries. rest.old
        ≡ compact_text (array_of (map T.data_of entries.items)) ++ rest.new) }
{
    rest.byte(b'[')?;
    take_entries::<T>(alloc, rest, most)
}
