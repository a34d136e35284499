//! Distinct lists of ids, each found by slots or among the rest.
ghost use Rattle.std.specs.Prelude.{◌≡◌, [], ◌<◌, ◌-◌, ◌^◌, length, IfOk, OnOk, OnErr};
ghost use Rattle.std.specs.List.{position_or_len};
ghost use Rattle.std.specs.Str.{bytes_eq};
ghost use Rattle.traces.specs.Words.{with_new};
ghost use Rattle.reports.specs.Lists.{shown_lists, IsInRest};

use crate::slots::{EMPTY, FEWEST_HOMES, Found, WINDOW, home_of, look};
use std::alloc::{AllocError, Global};
use std::collections::BTreeMap;
use std::marker::Model;

/// Distinct lists of ids, in the order first met.
///
/// The place of a list is in one of eight slots, which begin at the slot that its hash gives. If all eight have other lists,
/// the place is in an ordered map. So even if the ids are chosen to collide, a look-up takes at most eight comparisons and
/// those of the ordered map. Two different lists are never taken for one.
///
/// Contracts see the lists.
#[derive(Drop)]
pub struct IdLists<'a> {
    lists: Vec<&'a [u32]>,
    /// Places, or `EMPTY`.
    slots: Vec<u32>,
    /// How far the upper half of a hash is shifted to give the home.
    shift: u32,
    /// The places of the lists that found no slot.
    rest: BTreeMap<&'a [u32], usize>,
}

impl<'a> Model for IdLists<'a> {
    ghost use Rattle.std.specs.Prelude.{ℕ, List, ◌<◌};
    ghost use Rattle.reports.specs.Lists.{shown_lists, AreListsPlaced};

    ghost Value = { List (List ℕ) };

    ghost view = { λ t. shown_lists t.lists.items };

    ghost invariant = { λ t.
        AreListsPlaced t.slots.items t.shift t.rest.entries (shown_lists t.lists.items) × (t.shift < 32) };
}

impl<'a> IdLists<'a> {
    /// No lists, with slots enough that few of so many lists look at more than one or two.
    pub fn for_count(alloc: Global, count: u32) -> Result<IdLists<'a>, AllocError>
        ensures { IfOk result (λ lists. lists ≡ []) }
    {
        let homes = count.saturating_mul(2).max(FEWEST_HOMES);
        let shift = homes.leading_zeros().min(31);
        let size = (1usize << (32 - shift)).saturating_add(WINDOW);
        Ok(IdLists {
            lists: Vec::new(alloc),
            slots: vec![in alloc; EMPTY; size]?,
            shift,
            rest: BTreeMap::new(alloc),
        })
    }

    /// The place of the list, counted from 0 in the order first met. A list that is new is appended. If memory runs out, the
    /// lists are as before.
    pub fn place_or_put(&mut self, ids: &'a [u32]) -> Result<usize, AllocError>
        requires { length self.old < 2 ^ 32 - 1 }
        ensures place { IfOk result (λ place. place ≡ position_or_len (bytes_eq ids.now) self.old) }
        ensures ok { OnOk result (self.new ≡ with_new bytes_eq self.old ids.now) }
        ensures err { OnErr result (self.new ≡ self.old) }
    {
        let home = home_of(ids, self.shift);
        match look(self.lists.as_slice(), self.slots.as_slice(), home, ids) {
            Found::Place(place) => Ok(place),
            Found::Free(at) => {
                let place = self.lists.len();
                self.lists.push(ids)?;
                self.slots[at] = place as u32;
                Ok(place)
            }
            Found::Full => place_or_put_in_rest(&mut self.lists, &mut self.rest, ids),
        }
    }
}

/// The place of a list whose slots all have other lists. A list that is new is appended, and its place is added to the rest.
#[inline(never)]
fn place_or_put_in_rest<'a>(
    lists: &mut Vec<&'a [u32]>,
    rest: &mut BTreeMap<&'a [u32], usize>,
    ids: &'a [u32],
) -> Result<usize, AllocError>
    ensures ok { IfOk result (λ place. IsInRest
        (shown_lists lists.old.items) rest.old.entries ids.now place (shown_lists lists.new.items) rest.new.entries) }
    ensures err { OnErr result
        ((shown_lists lists.new.items ≡ shown_lists lists.old.items) × (rest.new.entries ≡ rest.old.entries)) }
{
    if let Some(place) = rest.get(ids) {
        return Ok(*place);
    }
    let place = lists.len();
    lists.reserve(1)?;
    rest.insert(ids, place)?;
    lists.push_reserved(ids);
    Ok(place)
}
