//! The rest: the places of the keys whose slots are all taken.
ghost use Rattle.std.specs.Prelude.{◌≡◌, ◌<◌, length, IfOk, OnOk, OnErr};
ghost use Rattle.trace_keys.specs.Fingerprints.{fingerprint_of};
ghost use Rattle.key_table.specs.Placed.{GrowsAt, RestGrows, rest_place};

use std::alloc::{AllocError, Global};
use std::collections::BTreeMap;
use trace_keys::{Fingerprint, HashedKey, KeyList};

/// The place of a key among the rest.
pub fn place_in(
    alloc: Global,
    rest: &BTreeMap<(u64, u64, u32, u32, String), usize>,
    key: &HashedKey<'_>,
) -> Result<Option<usize>, AllocError>
    ensures { IfOk result (λ place. place ≡ rest_place rest.now.entries key.now) }
{
    let fingerprint = key.fingerprint();
    let text = String::from_str(alloc, key.text())?;
    match rest.get(&(
        fingerprint.front(),
        fingerprint.end(),
        fingerprint.file,
        fingerprint.section,
        text,
    )) {
        Some(place) => Ok(Some(*place)),
        None => Ok(None),
    }
}

/// Puts the place of the key with this fingerprint and this text among the rest.
pub fn put_in(
    alloc: Global,
    rest: &mut BTreeMap<(u64, u64, u32, u32, String), usize>,
    fingerprint: Fingerprint,
    text: &str,
    place: usize,
) -> Result<(), AllocError>
    requires hashed { fingerprint
        ≡ fingerprint_of (record { file = fingerprint.file; section = fingerprint.section; text = text.now }) }
    ensures ok { OnOk result (RestGrows rest.old.entries rest.new.entries
        (record { file = fingerprint.file; section = fingerprint.section; text = text.now }) place) }
    ensures err { OnErr result (rest.new.entries ≡ rest.old.entries) }
{
    let text = String::from_str(alloc, text)?;
    rest.insert(
        (
            fingerprint.front(),
            fingerprint.end(),
            fingerprint.file,
            fingerprint.section,
            text,
        ),
        place,
    )?;
    Ok(())
}

/// Puts the place of a key that is there among the rest.
pub fn put_known(
    alloc: Global,
    keys: &KeyList,
    place: usize,
    rest: &mut BTreeMap<(u64, u64, u32, u32, String), usize>,
) -> Result<(), AllocError>
    requires within { place < length keys.now }
    ensures ok { OnOk result (GrowsAt keys.now rest.old.entries rest.new.entries place) }
    ensures err { OnErr result (rest.new.entries ≡ rest.old.entries) }
{
    let key = keys.key(place);
    match std::str::from_utf8(key.text) {
        Ok(text) => put_in(alloc, rest, keys.fingerprint(place), text, place),
        Err(_) => Err(AllocError),
    }
}
