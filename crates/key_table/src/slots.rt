//! Slots that contain the places of keys.
ghost use Rattle.std.specs.Prelude.{ℕ, ◌≡◌, ◌≤◌, ◌<◌, ◌+◌, ◌^◌, None, IfSome, true, false};
ghost use Rattle.key_table.specs.Placed.{home_of, is_empty_at, IsFull, tag_of};

/// In how many slots the place of a key may be, from its home on.
pub const WINDOW: usize = 8;

/// How many bits of a home there are at most.
pub const MAX_BITS: u32 = 32;

/// A place, and a part of the mixed fingerprint of the key there. So most other keys are excluded without a look at the place.
#[derive(Clone, Copy)]
pub struct Slot {
    pub tag: u32,
    pub place: u32,
}

/// A slot with no place.
pub const EMPTY: Slot = Slot {
    tag: 0,
    place: u32::MAX,
};

/// The first slot in which the place of a key may be, by the mix of its fingerprint.
#[inline]
#[tactic(auto, unfolding(crate::specs::Placed::home_of))]
pub fn home_of_mix(mix: u64, shift: u32) -> usize
    requires { shift < 32 }
    ensures value { result ≡ home_of shift mix }
    ensures few { result < 2 ^ 32 }
{
    (((mix >> 32) as u32) >> shift) as usize
}

/// The part of the mixed fingerprint in a slot. It depends on both halves, since the lower one does not depend on the last bytes
/// of a word.
#[inline]
#[tactic(auto, unfolding(crate::specs::Placed::tag_of))]
pub fn tag_of_mix(mix: u64) -> u32
    ensures { result ≡ tag_of mix }
{
    (mix >> 32) as u32 ^ (mix % 0x1_0000_0000) as u32
}

/// The first slot without a place among the `WINDOW` slots from a home on.
pub fn first_empty(slots: &[Slot], home: usize) -> Option<usize>
    requires { home < 2 ^ 32 }
    ensures some { IfSome result (λ at. (home ≤ at) × (at < home + WINDOW) × (is_empty_at slots.now at ≡ true)) }
    ensures first { IfSome result (λ at. (k : ℕ) → home + k < at → is_empty_at slots.now (home + k) ≡ false) }
    ensures none { result ≡ None → IsFull slots.now home }
{
    for i in 0..WINDOW {
        if let Some(slot) = slots.get(home + i) {
            if slot.place == u32::MAX {
                return Some(home + i);
            }
        }
    }
    None
}
