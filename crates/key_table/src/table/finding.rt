//! Finds keys: by the slots, or else among the rest.
ghost use Rattle.std.specs.Prelude.{◌≡◌, ◌<◌, ◌^◌, IfOk, IfSome, slice_get, false, Ok, Some, None};
ghost use Rattle.std.specs.List.{list_any};
ghost use Rattle.trace_keys.specs.Keys.{same_key};
ghost use Rattle.trace_keys.specs.Fingerprints.{fingerprint_of, mix_of};
ghost use Rattle.key_table.specs.Placed.{ArePlaced, StandsNowhere, key_home, tag_of};

use crate::slots::{Slot, WINDOW, first_empty, home_of_mix};
use crate::table::among_rest::place_in;
use std::alloc::{AllocError, Global};
use std::collections::BTreeMap;
use trace_keys::{HashedKey, KeyList};

/// The place of a key to which a slot leads, from its home on.
#[inline(always)]
pub fn find(
    keys: &KeyList,
    slots: &[Slot],
    home: usize,
    tag: u32,
    key: &HashedKey<'_>,
) -> Option<usize>
    requires tag { tag ≡ tag_of (mix_of (fingerprint_of key.now)) }
    requires few { home < 2 ^ 32 }
    ensures some { IfSome result (λ place. slice_get keys.now place ≡ Some key.now) }
    ensures none { result ≡ None → StandsNowhere keys.now slots.now home key.now }
{
    for i in 0..WINDOW {
        if let Some(slot) = slots.get(home + i) {
            let place = slot.place as usize;
            if slot.tag == tag && keys.is_key_at(place, key) {
                return Some(place);
            }
            // No key's place is after a slot that was empty when it was put there.
            if slot.place == u32::MAX {
                return None;
            }
        }
    }
    None
}

/// The place of a key to which no slot leads, if it is there. It stays a call, as does everything that only new keys need, so
/// that the path of a known key is short.
#[inline(never)]
pub fn find_in_rest(
    alloc: Global,
    keys: &KeyList,
    slots: &[Slot],
    shift: u32,
    rest: &BTreeMap<(u64, u64, u32, u32, String), usize>,
    key: &HashedKey<'_>,
) -> Result<Option<usize>, AllocError>
    requires shift { shift < 32 }
    requires placed { ArePlaced slots.now shift rest.now.entries keys.now }
    requires nowhere { StandsNowhere keys.now slots.now (key_home shift key.now) key.now }
    ensures some { IfOk result (λ found. IfSome found (λ place. slice_get keys.now place ≡ Some key.now)) }
    ensures none { result ≡ Ok None → list_any (same_key key.now) keys.now ≡ false }
{
    if let Some(_) = first_empty(slots, home_of_mix(key.fingerprint().mix(), shift)) {
        return Ok(None);
    }
    match place_in(alloc, rest, key)? {
        Some(place) if keys.is_key_at(place, key) => Ok(Some(place)),
        _ => Ok(None),
    }
}
