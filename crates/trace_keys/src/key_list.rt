//! Keys in a list: a fingerprint of each, and the texts of all, one after another.
ghost use Rattle.std.specs.Prelude.{◌≡◌, ◌++◌, ◌∷◌, [], ◌<◌, false, length, slice_get, OnOk, OnErr, Some};
ghost use Rattle.std.specs.Option.{option_map_or};
ghost use Rattle.std.specs.Str.{IsUtf8};
ghost use Rattle.trace_keys.specs.Keys.{Key, key_in, key_shown, same_key};
ghost use Rattle.trace_keys.specs.Fingerprints.{IsTold, fingerprint_of};

use crate::fingerprint::{Fingerprint, MAX_TOLD, are_bytes};
use crate::hashed_key::HashedKey;
use crate::key::{KeyParts, ShownKey};
use std::alloc::{AllocError, Global};
use std::marker::Model;

/// Keys, each at its place.
///
/// Contracts see the keys.
#[derive(Drop)]
pub struct KeyList {
    fingerprints: Vec<Fingerprint>,
    /// Where the text of each starts.
    starts: Vec<usize>,
    texts: Vec<u8>,
}

impl Model for KeyList {
    ghost use Rattle.std.specs.Prelude.{List};
    ghost use Rattle.trace_keys.specs.Keys.{Key};
    ghost use Rattle.trace_keys.specs.KeyLists.{keys_in, AreKeysIn};

    ghost Value = { List Key };

    ghost view = { λ l. keys_in l.fingerprints.items l.texts.items };

    ghost invariant = { λ l. AreKeysIn l.fingerprints.items l.starts.items l.texts.items };
}

impl KeyList {
    /// No keys. It takes no memory.
    pub fn new(alloc: Global) -> KeyList
        ensures { result ≡ [] }
    {
        KeyList {
            fingerprints: Vec::new(alloc),
            starts: Vec::new(alloc),
            texts: Vec::new(alloc),
        }
    }

    /// How many keys there are.
    #[inline]
    pub fn len(&self) -> usize
        ensures { result ≡ length self.now }
    {
        self.fingerprints.len()
    }

    /// The key at a place.
    #[inline]
    pub fn key(&self, place: usize) -> ShownKey<'_>
        requires within { place < length self.now }
        ensures value { slice_get self.now place ≡ Some (key_shown result) }
        ensures utf8 { IsUtf8 result.text.now }
    {
        let fingerprint = &self.fingerprints[place];
        let start = self.starts[place];
        ShownKey {
            file: fingerprint.file,
            section: fingerprint.section,
            text: &self.texts[start..start + fingerprint.length as usize],
        }
    }

    /// The fingerprint of the key at a place.
    #[inline]
    pub fn fingerprint(&self, place: usize) -> Fingerprint
        requires within { place < length self.now }
        ensures { (k : Key) → slice_get self.now place ≡ Some k → result ≡ fingerprint_of k }
    {
        self.fingerprints[place]
    }

    /// Whether this key is at this place. It is false if there is no such place.
    #[inline(always)]
    pub fn is_key_at(&self, place: usize, key: &HashedKey<'_>) -> bool
        ensures { result ≡ option_map_or (same_key key.now) (slice_get self.now place) false }
    {
        let fingerprint = key.fingerprint();
        let text = key.text().as_bytes();
        are_bytes(&self.texts);
        are_bytes(text);
        match self.fingerprints.get(place) {
            Some(known) => {
                known.is(&fingerprint)
                    && (fingerprint.length as usize <= MAX_TOLD || self.key(place).text == text)
            }
            None => false,
        }
    }

    /// Whether the key with this fingerprint is at this place, if its text has at most 16 bytes.
    #[inline(always)]
    pub fn has_fingerprint_at(&self, place: usize, fingerprint: &Fingerprint) -> bool
        ensures { (key : Key) → fingerprint.now ≡ fingerprint_of key → IsTold key.text
            → result ≡ option_map_or (same_key key) (slice_get self.now place) false }
    {
        are_bytes(&self.texts);
        match self.fingerprints.get(place) {
            Some(known) => known.is(fingerprint),
            None => false,
        }
    }

    /// Whether the key of these numbers and this text is at this place, found without its fingerprint. It stays a call, so that
    /// the path of a short key is short.
    #[inline(never)]
    fn has_text_at(&self, place: usize, file: u32, section: u32, text: &str) -> bool
        ensures { result ≡ option_map_or
            (same_key (record { file = file; section = section; text = text.now })) (slice_get self.now place) false }
    {
        if place >= self.fingerprints.len() {
            return false;
        }
        let key = self.key(place);
        file == key.file && section == key.section && text.as_bytes() == key.text
    }

    /// Whether the key with these parts is at this place, found without its fingerprint. It is false if there is no such place.
    #[inline(always)]
    pub fn has_parts_at(&self, place: usize, parts: &KeyParts<'_>) -> bool
        ensures { result ≡ option_map_or (same_key (key_in parts.now)) (slice_get self.now place) false }
    {
        self.has_text_at(place, parts.file, parts.section, parts.text)
    }

    /// Puts a key at the end. At an error the keys are as before.
    pub fn push(&mut self, key: &HashedKey<'_>) -> Result<(), AllocError>
        ensures ok { OnOk result (self.new ≡ self.old ++ key.now ∷ []) }
        ensures err { OnErr result (self.new ≡ self.old) }
    {
        self.fingerprints.reserve(1)?;
        self.starts.reserve(1)?;
        let start = self.texts.len();
        self.texts.extend_from_slice(key.text().as_bytes())?;
        self.starts.push_reserved(start);
        self.fingerprints.push_reserved(key.fingerprint());
        Ok(())
    }
}
