//! Puts keys in slots or among the rest: a new key, or all keys when there are more slots.
ghost use Rattle.std.specs.Prelude.{◌≡◌, ◌++◌, ◌∷◌, [], ◌<◌, ◌-◌, ◌^◌, length, IfOk, OnOk, OnErr, false};
ghost use Rattle.std.specs.List.{list_any};
ghost use Rattle.trace_keys.specs.Keys.{AreApart, same_key};
ghost use Rattle.key_table.specs.Placed.{AreKeysPlaced, ArePlaced, KeepsPlaced};

use crate::slots::{EMPTY, MAX_BITS, Slot, WINDOW, first_empty, home_of_mix, tag_of_mix};
use crate::table::among_rest::{put_in, put_known};
use std::alloc::{AllocError, Global};
use std::collections::BTreeMap;
use trace_keys::{HashedKey, KeyList};

/// Puts a new key at the end, and its place in a slot, or else among the rest.
#[inline(never)]
pub fn begin(
    alloc: Global,
    keys: &mut KeyList,
    slots: &mut Vec<Slot>,
    shift: u32,
    rest: &mut BTreeMap<(u64, u64, u32, u32, String), usize>,
    key: &HashedKey<'_>,
) -> Result<(), AllocError>
    requires shift { shift < 32 }
    requires few { length keys.old < 2 ^ 32 - 1 }
    requires placed { AreKeysPlaced slots.old.items shift rest.old.entries keys.old }
    requires new { list_any (same_key key.now) keys.old ≡ false }
    ensures ok { OnOk result (keys.new ≡ keys.old ++ key.now ∷ []) }
    ensures err { OnErr result (keys.new ≡ keys.old) }
    ensures placed { AreKeysPlaced slots.new.items shift rest.new.entries keys.new }
{
    let fingerprint = key.fingerprint();
    let mix = fingerprint.mix();
    let place = keys.len();
    match first_empty(slots.as_slice(), home_of_mix(mix, shift)) {
        Some(at) => {
            keys.push(key)?;
            slots[at] = Slot {
                tag: tag_of_mix(mix),
                place: place as u32,
            };
            Ok(())
        }
        None => {
            put_in(alloc, rest, fingerprint, key.text(), place)?;
            keys.push(key)
        }
    }
}

/// Slots with the places of the keys by this shift. A key whose slots are all taken is put among the rest.
pub fn rehash(
    alloc: Global,
    keys: &KeyList,
    shift: u32,
    rest: &mut BTreeMap<(u64, u64, u32, u32, String), usize>,
) -> Result<Vec<Slot>, AllocError>
    requires shift { shift < 32 }
    requires few { length keys.now < 2 ^ 32 - 1 }
    requires apart { AreApart same_key keys.now }
    ensures kept { KeepsPlaced keys.now rest.old.entries rest.new.entries }
    ensures ok { IfOk result (λ slots. ArePlaced slots.items shift rest.new.entries keys.now) }
{
    let wanted = (1usize << (MAX_BITS - shift)).saturating_add(WINDOW);
    let mut slots = vec![in alloc; EMPTY; wanted]?;
    for place in 0..keys.len() {
        let mix = keys.fingerprint(place).mix();
        match first_empty(slots.as_slice(), home_of_mix(mix, shift)) {
            Some(at) => {
                slots[at] = Slot {
                    tag: tag_of_mix(mix),
                    place: place as u32,
                };
            }
            None => put_known(alloc, keys, place, rest)?,
        }
    }
    Ok(slots)
}
