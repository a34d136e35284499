//! Slots that contain the places of types' texts, so that a known type is found by its fingerprint.
ghost use Rattle.std.specs.Prelude.{◌≡◌, ◌<◌, ◌≤◌, ◌+◌, ◌^◌, ℕ, List, true, false, length, slice_get, slice_index, Some, IfSome};
ghost use Rattle.std.specs.List.{All};
ghost use Rattle.std.specs.Option.{option_map_or};
ghost use Rattle.std.specs.Str.{bytes_eq};
ghost use Rattle.trace_keys.specs.Fingerprints.{fingerprint_of};
ghost use Rattle.trace_builder.specs.Slots.{TellsText, type_key};

use invariants::Text;
use std::alloc::Global;
use trace_keys::{Fingerprint, KeyParts, PackedText};

/// How many homes there are: many more than types, so that most types have a home of their own.
const HOMES: usize = 4096;

/// How far the mix of a fingerprint is shifted to give the home.
const SHIFT: u32 = 52;

/// In how many slots the place of a type may be, from its home on.
const WINDOW: usize = 4;

/// How many bytes a text has at most if its fingerprint determines it.
pub const MAX_TOLD: u32 = 16;

/// How many bytes a word has.
const WORD: usize = 8;

/// The multiplier of the hash of a long text.
const FACTOR: u64 = 0x9e37_79b9_7f4a_7c15;

/// The fingerprint of a type's text, and the place of that text.
#[derive(Clone, Copy)]
pub struct Slot {
    pub fingerprint: Fingerprint,
    pub place: usize,
}

/// A slot with no place: no text is as long as its fingerprint states.
const EMPTY: Slot = Slot {
    fingerprint: Fingerprint {
        low: 0,
        high: 0,
        file: 0,
        section: 0,
        length: u32::MAX,
    },
    place: 0,
};

/// States that bytes are below 256, and does nothing.
#[inline]
fn are_bytes(bytes: &[u8])
    ensures { (i : ℕ) → slice_index bytes.now i < 256 }
{}

/// Whether the text is at this place. It stays a call, so that the path of a short text is short.
#[inline(never)]
fn is_text_at(texts: &[Text], place: usize, text: &str) -> bool
    ensures { result ≡ option_map_or (bytes_eq text.now) (slice_get texts.now place) false }
{
    match texts.get(place) {
        Some(known) => text == known.as_str(),
        None => false,
    }
}

/// The bytes as a number, eight at a time: a hash that depends on each of them. There are at least eight.
#[inline]
fn hash_of_words(bytes: &[u8]) -> u64
    requires { 8 ≤ length bytes.now }
{
    let mut hash = word_at(bytes, bytes.len() - WORD);
    for place in 0..bytes.len() / WORD {
        hash = (hash ^ word_at(bytes, place * WORD)).wrapping_mul(FACTOR);
    }
    hash
}

/// Eight bytes as a number.
#[inline(always)]
fn word_at(bytes: &[u8], at: usize) -> u64
    requires { at + 8 ≤ length bytes.now }
{
    let b = &bytes[at..at + WORD];
    u64::from_le_bytes([b[0], b[1], b[2], b[3], b[4], b[5], b[6], b[7]])
}

/// The fingerprint of a type's text. If the text has more than 16 bytes, it has a hash of them that is made faster than that of a
/// key.
#[inline(always)]
fn fingerprint_of_text(text: &str) -> Fingerprint
    requires { length text.now < 2 ^ 32 }
    ensures short { length text.now ≤ 16 → result ≡ fingerprint_of (type_key text.now) }
    ensures length { result.length ≡ length text.now }
{
    let length = text.len() as u32;
    if length > MAX_TOLD {
        return Fingerprint {
            low: hash_of_words(text.as_bytes()),
            high: 0,
            file: 0,
            section: 0,
            length,
        };
    }
    Fingerprint::of(&KeyParts {
        file: 0,
        section: 0,
        text,
    })
}

/// The first slot in which the place of a type with this fingerprint may be.
#[inline(always)]
fn home_of(fingerprint: &Fingerprint) -> usize
    ensures { result < HOMES }
{
    (fingerprint.mix() >> SHIFT) as usize
}

/// Whether a slot leads to the text with this fingerprint.
#[inline(always)]
fn leads_to(slot: &Slot, fingerprint: &Fingerprint, texts: &[Text], text: &str) -> bool
    requires short { length text.now ≤ 16 → fingerprint.now ≡ fingerprint_of (type_key text.now) }
    requires length { fingerprint.now.length ≡ length text.now }
    requires told { TellsText texts.now slot.now }
    ensures { result ≡ true → slice_get texts.now slot.now.place ≡ Some text.now }
{
    if !slot.fingerprint.is(fingerprint) {
        return false;
    }
    if fingerprint.length > MAX_TOLD {
        return is_text_at(texts, slot.place, text);
    }
    are_bytes(text.as_bytes());
    true
}

/// The place of a short text, if a slot leads to it.
#[inline(always)]
pub fn find_short(slots: &[Slot], text: &PackedText<'_>) -> Option<usize>
    ensures { (texts : List (List ℕ)) → All (TellsText texts) slots.now
        → IfSome result (λ place. slice_get texts place ≡ Some text.now) }
{
    let fingerprint = text.fingerprint(0, 0)?;
    let home = home_of(&fingerprint);
    for i in 0..WINDOW {
        let slot = slots.get(home + i)?;
        if slot.fingerprint.is(&fingerprint) {
            return Some(slot.place);
        }
    }
    None
}

/// The place of a text to which a slot leads, from its home on.
pub fn find(slots: &[Slot], texts: &[Text], text: &str) -> Option<usize>
    requires short { length text.now < 2 ^ 32 }
    requires told { All (TellsText texts.now) slots.now }
    ensures { IfSome result (λ place. slice_get texts.now place ≡ Some text.now) }
{
    let fingerprint = fingerprint_of_text(text);
    let home = home_of(&fingerprint);
    for i in 0..WINDOW {
        if let Some(slot) = slots.get(home + i) {
            if leads_to(slot, &fingerprint, texts, text) {
                return Some(slot.place);
            }
        }
    }
    None
}

/// The first empty slot from a home on.
fn first_empty(slots: &[Slot], home: usize) -> Option<usize>
    requires { home < HOMES }
    ensures { IfSome result (λ at. at < length slots.now) }
{
    for i in 0..WINDOW {
        if let Some(slot) = slots.get(home + i) {
            if slot.fingerprint.length == u32::MAX {
                return Some(home + i);
            }
        }
    }
    None
}

/// Makes slots if there are none. If memory runs out, there are still none.
fn make(alloc: Global, slots: &mut Vec<Slot>)
    ensures { (texts : List (List ℕ)) → All (TellsText texts) slots.old.items → All (TellsText texts) slots.new.items }
{
    if !slots.is_empty() {
        return;
    }
    if let Ok(made) = vec![in alloc; EMPTY; HOMES + WINDOW] {
        *slots = made;
    }
}

/// Notes the place of a text in the first empty slot from its home on, if there is one.
pub fn note(alloc: Global, slots: &mut Vec<Slot>, text: &str, place: usize)
    requires short { length text.now < 2 ^ 32 }
    ensures { (texts : List (List ℕ)) → slice_get texts place ≡ Some text.now
        → All (TellsText texts) slots.old.items → All (TellsText texts) slots.new.items }
{
    make(alloc, slots);
    are_bytes(text.as_bytes());
    let fingerprint = fingerprint_of_text(text);
    if let Some(at) = first_empty(slots, home_of(&fingerprint)) {
        slots[at] = Slot { fingerprint, place };
    }
}
