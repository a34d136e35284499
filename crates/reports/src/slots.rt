//! Slots that say where lists of ids stand.
ghost use Rattle.std.specs.Prelude.{◌≡◌, ◌<◌, ◌^◌, ◌↔◌, IsTrue, slice_get, Some};
ghost use Rattle.reports.specs.Lists.{hash_of, home_of, mixed, upper_bits, shown_lists, Finds};

/// In how many slots a list may stand, from its home on.
pub const WINDOW: usize = 8;

/// A slot with no place.
pub const EMPTY: u32 = u32::MAX;

/// How many slots are homes at least.
pub const FEWEST_HOMES: u32 = 64;

/// What the slots have of a list of ids.
pub enum Found {
    /// The list stands at this place.
    Place(usize),
    /// No slot leads to it, and this is the first that is empty.
    Free(usize),
    /// Each of its slots has another list.
    Full,
}

/// A number that depends on all ids of a list, and in its upper bits most.
fn hash_of(ids: &[u32]) -> u64
    ensures { result ≡ hash_of ids.now }
{
    let mut hash: u64 = 0;
    for id in ids {
        hash = mix(hash, *id);
    }
    hash
}

/// The hash with one id more.
#[inline(always)]
#[tactic(auto, unfolding(crate::specs::Lists::mixed))]
fn mix(hash: u64, id: u32) -> u64
    ensures { result ≡ mixed hash id }
{
    (hash ^ u64::from(id)).wrapping_mul(0x9e37_79b9_7f4a_7c15)
}

/// The first slot in which a list may stand: so many of the upper bits of its hash as are not shifted out.
pub fn home_of(ids: &[u32], shift: u32) -> usize
    requires { shift < 32 }
    ensures value { result ≡ home_of shift ids.now }
    ensures few { result < 2 ^ 32 }
{
    upper_bits(hash_of(ids), shift)
}

/// The upper half of a hash, shifted.
#[inline(always)]
#[tactic(auto, unfolding(crate::specs::Lists::upper_bits))]
fn upper_bits(hash: u64, shift: u32) -> usize
    requires { shift < 32 }
    ensures value { result ≡ upper_bits shift hash }
    ensures few { result < 2 ^ 32 }
{
    (((hash >> 32) as u32) >> shift) as usize
}

/// Whether the list stands at the place.
fn is_at(lists: &[&[u32]], place: usize, ids: &[u32]) -> bool
    ensures { IsTrue result
        ↔ (slice_get (shown_lists lists.now) place ≡ Some ids.now) }
{
    match lists.get(place) {
        Some(list) => *list == ids,
        None => false,
    }
}

/// Looks for a list in the slots from its home on.
pub fn look(lists: &[&[u32]], slots: &[u32], home: usize, ids: &[u32]) -> Found
    requires { home < 2 ^ 32 }
    ensures { Finds (shown_lists lists.now) slots.now ids.now home result }
{
    for i in 0..WINDOW {
        if let Some(slot) = slots.get(home + i) {
            if *slot == EMPTY {
                return Found::Free(home + i);
            }
            let place = *slot as usize;
            if is_at(lists, place, ids) {
                return Found::Place(place);
            }
        }
    }
    Found::Full
}
