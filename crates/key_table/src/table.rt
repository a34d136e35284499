//! The table of the keys: its slots give the place of a key, and whether it is new.
ghost use Rattle.std.specs.Prelude.{◌≡◌, [], ◌<◌, ◌-◌, ◌^◌, length, IfOk, OnOk, OnErr, IfSome, slice_get, false, Ok, Some, None};
ghost use Rattle.std.specs.List.{list_any, position_or_len};
ghost use Rattle.std.specs.Str.{IsUtf8};
ghost use Rattle.trace_keys.specs.Keys.{key_in, key_shown, same_key, with_new};

mod among_rest;
mod finding;
mod putting;

use crate::slots::{MAX_BITS, Slot, WINDOW, home_of_mix, tag_of_mix};
use crate::table::finding::{find, find_in_rest};
use crate::table::putting::{begin, rehash};
use std::alloc::{AllocError, Global};
use std::collections::BTreeMap;
use std::marker::Model;
use trace_keys::{HashedKey, KeyList, KeyParts, MAX_TOLD, PackedText, ShownKey};

/// How many bits of a mixed fingerprint choose the first homes.
const FIRST_BITS: u32 = 12;

/// Keys in the order first met, each once.
///
/// The place of each is in a slot from its home on. If all of these are taken, it is among the rest, in an ordered map. So an
/// empty slot means that a key is new, and the map is used only if many keys have one home.
///
/// Contracts see the keys.
#[derive(Drop)]
pub struct KeyTable {
    keys: KeyList,
    slots: Vec<Slot>,
    /// How far the upper half of a mixed fingerprint is shifted to give the home.
    shift: u32,
    /// How many keys there must be before more slots are requested again, after memory for them was refused.
    retry_at: usize,
    /// Ordered by the words of the fingerprint first. They distinguish most keys without a look at a text. They are in the order
    /// of the texts, in which names often come.
    rest: BTreeMap<(u64, u64, u32, u32, String), usize>,
}

impl Model for KeyTable {
    ghost use Rattle.std.specs.Prelude.{List, ◌<◌};
    ghost use Rattle.trace_keys.specs.Keys.{Key};
    ghost use Rattle.key_table.specs.Placed.{AreKeysPlaced};

    ghost Value = { List Key };

    ghost view = { λ t. t.keys };

    ghost invariant = { λ t. AreKeysPlaced t.slots.items t.shift t.rest.entries t.keys × (t.shift < 32) };
}

impl KeyTable {
    /// No keys. It takes no memory.
    pub fn new(alloc: Global) -> KeyTable
        ensures { result ≡ [] }
    {
        KeyTable {
            keys: KeyList::new(alloc),
            slots: Vec::new(alloc),
            shift: MAX_BITS - FIRST_BITS,
            retry_at: 0,
            rest: BTreeMap::new(alloc),
        }
    }

    /// How many keys there are.
    pub fn len(&self) -> usize
        ensures { result ≡ length self.now }
    {
        self.keys.len()
    }

    /// The key at a place.
    pub fn key(&self, place: usize) -> ShownKey<'_>
        requires within { place < length self.now }
        ensures value { slice_get self.now place ≡ Some (key_shown result) }
        ensures utf8 { IsUtf8 result.text.now }
    {
        self.keys.key(place)
    }

    /// Makes more slots if there are fewer than two for each key. If memory for them is refused, the present ones stay, and more
    /// are requested only once there are twice as many keys: each attempt may visit all keys.
    #[inline(never)]
    fn grow(&mut self, alloc: Global)
        requires few { length self.old < 2 ^ 32 - 1 }
        ensures { self.new ≡ self.old }
    {
        let count = self.keys.len();
        if count < self.slots.len() / 2 || count < self.retry_at {
            return;
        }
        let shift = if self.slots.is_empty() {
            self.shift
        } else {
            self.shift.saturating_sub(2)
        };
        match rehash(alloc, &self.keys, shift, &mut self.rest) {
            Ok(slots) => {
                self.slots = slots;
                self.shift = shift;
            }
            Err(_) => self.retry_at = 2 * count + 1,
        }
    }

    /// The place of a key, if it is there.
    #[inline(always)]
    fn place_of(&self, alloc: Global, key: &HashedKey<'_>) -> Result<Option<usize>, AllocError>
        ensures some { IfOk result (λ found. IfSome found (λ place. slice_get self.now place ≡ Some key.now)) }
        ensures none { result ≡ Ok None → list_any (same_key key.now) self.now ≡ false }
    {
        let mix = key.fingerprint().mix();
        let home = home_of_mix(mix, self.shift);
        let slots = self.slots.as_slice();
        if let Some(place) = find(&self.keys, slots, home, tag_of_mix(mix), key) {
            return Ok(Some(place));
        }
        find_in_rest(alloc, &self.keys, slots, self.shift, &self.rest, key)
    }

    /// The place of a key with a short text, if a slot leads to it. Then the key is in the table. None does not mean that it is
    /// new.
    #[inline(always)]
    pub fn short_place_of(&self, file: u32, section: u32, text: &PackedText<'_>) -> Option<usize>
        ensures place { IfSome result (λ place. place
            ≡ position_or_len (same_key (record { file = file; section = section; text = text.now })) self.now) }
        ensures known { IfSome result (λ _. self.now
            ≡ with_new same_key self.now (record { file = file; section = section; text = text.now })) }
        ensures few { IfSome result (λ place. place < 2 ^ 32) }
    {
        let fingerprint = text.fingerprint(file, section)?;
        let mix = fingerprint.mix();
        let tag = tag_of_mix(mix);
        let home = home_of_mix(mix, self.shift);
        for step in 0..WINDOW {
            let slot = self.slots.get(home + step)?;
            let place = slot.place as usize;
            if slot.tag == tag && self.keys.has_fingerprint_at(place, &fingerprint) {
                return Some(place);
            }
            if slot.place == u32::MAX {
                return None;
            }
        }
        None
    }

    /// The place of the key with these parts, counted from 0 in the order first met. If the key is new, it is put at the end.
    /// `near` is a place that is looked at first; it affects only the time. If memory runs out, the keys are as before. The text
    /// has fewer than 2^32 bytes, and there are fewer than 2^32 - 1 keys.
    #[inline(never)]
    pub fn place_or_put(
        &mut self,
        alloc: Global,
        near: usize,
        parts: &KeyParts<'_>,
    ) -> Result<usize, AllocError>
        requires short { length parts.now.text.now < 2 ^ 32 }
        requires few { length self.old < 2 ^ 32 - 1 }
        ensures place { IfOk result (λ place. place
            ≡ position_or_len (same_key (key_in parts.now)) self.old) }
        ensures ok { OnOk result (self.new ≡ with_new same_key self.old (key_in parts.now)) }
        ensures err { OnErr result (self.new ≡ self.old) }
    {
        if parts.text.len() > MAX_TOLD && self.keys.has_parts_at(near, parts) {
            return Ok(near);
        }
        let key = HashedKey::of(parts);
        if self.keys.is_key_at(near, &key) {
            return Ok(near);
        }
        self.place_or_put_key(alloc, &key)
    }

    /// The same from a text with the words of its fingerprint. `near` affects only the time.
    #[inline(never)]
    pub fn place_or_put_packed(
        &mut self,
        alloc: Global,
        near: usize,
        file: u32,
        section: u32,
        text: &PackedText<'_>,
    ) -> Result<usize, AllocError>
        requires short { length text.now < 2 ^ 32 }
        requires few { length self.old < 2 ^ 32 - 1 }
        ensures place { IfOk result (λ place. place
            ≡ position_or_len (same_key (record { file = file; section = section; text = text.now })) self.old) }
        ensures ok { OnOk result (self.new
            ≡ with_new same_key self.old (record { file = file; section = section; text = text.now })) }
        ensures err { OnErr result (self.new ≡ self.old) }
    {
        match HashedKey::of_packed(file, section, text) {
            Some(key) => self.place_or_put_key(alloc, &key),
            None => self.place_or_put(
                alloc,
                near,
                &KeyParts {
                    file,
                    section,
                    text: text.text(),
                },
            ),
        }
    }

    /// The place of the key. If it is new, it is put at the end.
    fn place_or_put_key(&mut self, alloc: Global, key: &HashedKey<'_>) -> Result<usize, AllocError>
        requires few { length self.old < 2 ^ 32 - 1 }
        ensures place { IfOk result (λ place. place ≡ position_or_len (same_key key.now) self.old) }
        ensures ok { OnOk result (self.new ≡ with_new same_key self.old key.now) }
        ensures err { OnErr result (self.new ≡ self.old) }
    {
        prove!(self.shift < MAX_BITS);
        if let Some(place) = self.place_of(alloc, key)? {
            return Ok(place);
        }
        self.grow(alloc);
        let end = self.keys.len();
        begin(
            alloc,
            &mut self.keys,
            &mut self.slots,
            self.shift,
            &mut self.rest,
            key,
        )?;
        Ok(end)
    }

    /// The keys, without the table.
    pub fn into_keys(self) -> KeyList
        ensures { result ≡ self }
    {
        let KeyTable {
            keys,
            slots,
            shift: _,
            retry_at: _,
            rest,
        } = self;
        drop(slots);
        drop(rest);
        keys
    }
}
