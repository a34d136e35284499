//! Fingerprints of keys: numbers that differ for most different keys.
ghost use Rattle.std.specs.Prelude.{ℕ, ◌≡◌, ◌≤◌, ◌<◌, ◌+◌, ◌^◌, ◌↔◌, true, length, take, drop, slice_index};
ghost use Rattle.std.specs.Int.{w64, from_le_bytes};
ghost use Rattle.trace_keys.specs.Keys.{key_in};
ghost use Rattle.trace_keys.specs.Fingerprints.{hash_of_bytes, number_of, low_of, high_of, fingerprint_of, mix_of};

use crate::key::KeyParts;

/// How many bytes a text has at most if its two words determine it.
pub const MAX_TOLD: usize = 16;

/// How many bytes a word has.
pub const WORD: usize = 8;

/// The multiplier of the hash of a long text.
const FACTOR: u64 = 1_099_511_628_211;

/// The multipliers for the mix of a fingerprint.
const LOW_FACTOR: u64 = 0x9e37_79b9_7f4a_7c15;

const HIGH_FACTOR: u64 = 0xc2b2_ae3d_27d4_eb4f;

/// The numbers of a key, the length of its text, and two words of it. Texts of at most `MAX_TOLD` bytes and of the same length
/// have the same words only if they are equal.
#[derive(Clone, Copy)]
pub struct Fingerprint {
    pub low: u64,
    pub high: u64,
    pub file: u32,
    pub section: u32,
    pub length: u32,
}

/// States that bytes are below 256, and does nothing.
#[inline]
pub(crate) fn are_bytes(bytes: &[u8])
    ensures { (i : ℕ) → slice_index bytes.now i < 256 }
{}

/// A hash of bytes. It stays a call, so that the path of a short text is short.
#[inline(never)]
fn hash_of(bytes: &[u8]) -> u64
    ensures { result ≡ hash_of_bytes bytes.now }
{
    let mut hash = 0u64;
    for b in bytes {
        hash = (hash ^ u64::from(*b)).wrapping_mul(FACTOR);
    }
    hash
}

/// Eight bytes as a number, the lowest first.
fn word_at(bytes: &[u8], at: usize) -> u64
    requires { at + 8 ≤ length bytes.now }
    ensures { result ≡ from_le_bytes w64 (take 8 (drop at bytes.now)) }
{
    let b = &bytes[at..at + WORD];
    u64::from_le_bytes([b[0], b[1], b[2], b[3], b[4], b[5], b[6], b[7]])
}

/// Fewer than eight bytes as a number, the lowest first. It stays a call, since most such texts stand before more bytes. Then
/// eight bytes are taken at once.
#[inline(never)]
fn few_word(bytes: &[u8]) -> u64
    requires { length bytes.now < 8 }
    ensures { result ≡ number_of bytes.now }
{
    are_bytes(bytes);
    let mut word = 0u64;
    let mut left = bytes.len();
    while left > 0 {
        left -= 1;
        word = word * 0x100 + u64::from(bytes[left]);
    }
    word
}

/// The first `count` bytes as a number, the lowest first. `count` is less than eight, and there are at least eight bytes.
#[inline(always)]
pub(crate) fn front_word(bytes: &[u8], count: usize) -> u64
    requires eight { 8 ≤ length bytes.now }
    requires fewer { count < 8 }
    ensures { result ≡ number_of (take count bytes.now) }
{
    are_bytes(bytes);
    word_at(bytes, 0) % (1 << (8 * count))
}

/// The first word of a text. If the text has more than `MAX_TOLD` bytes, it is its hash.
#[inline(always)]
#[tactic(auto, unfolding(crate::specs::Fingerprints::low_of))]
pub(crate) fn low_word(bytes: &[u8]) -> u64
    ensures { result ≡ low_of bytes.now }
{
    if bytes.len() > MAX_TOLD {
        return hash_of(bytes);
    }
    if bytes.len() >= WORD {
        return word_at(bytes, 0);
    }
    few_word(bytes)
}

/// The last eight bytes of a text as a word. If the text has fewer, it is 0.
#[inline(always)]
#[tactic(auto, unfolding(crate::specs::Fingerprints::high_of))]
pub(crate) fn high_word(bytes: &[u8]) -> u64
    ensures { result ≡ high_of bytes.now }
{
    if bytes.len() >= WORD {
        return word_at(bytes, bytes.len() - WORD);
    }
    0
}

impl Fingerprint {
    ghost use Rattle.std.specs.Prelude.{List};
    ghost use Rattle.trace_keys.specs.Fingerprints.{front_of, end_of};

    /// The fingerprint of the key with these parts.
    #[inline(always)]
    pub fn of(parts: &KeyParts<'_>) -> Fingerprint
        requires short { length parts.now.text.now < 2 ^ 32 }
        ensures { result ≡ fingerprint_of (key_in parts.now) }
    {
        let bytes = parts.text.as_bytes();
        Fingerprint {
            low: low_word(bytes),
            high: high_word(bytes),
            file: parts.file,
            section: parts.section,
            length: bytes.len() as u32,
        }
    }

    /// Whether the two fingerprints are equal.
    #[inline(always)]
    pub fn is(&self, other: &Fingerprint) -> bool
        ensures { (result ≡ true) ↔ (self.now ≡ other.now) }
    {
        self.low == other.low
            && self.high == other.high
            && self.file == other.file
            && self.section == other.section
            && self.length == other.length
    }

    /// Its first word with the first byte as the highest, so that short texts are in their own order.
    #[inline(always)]
    #[tactic(auto, unfolding(crate::specs::Fingerprints::front_of))]
    pub fn front(&self) -> u64
        ensures { (text : List ℕ) → (self.now).low ≡ low_of text → result ≡ front_of text }
    {
        self.low.swap_bytes()
    }

    /// Its second word in the same way.
    #[inline(always)]
    #[tactic(auto, unfolding(crate::specs::Fingerprints::end_of))]
    pub fn end(&self) -> u64
        ensures { (text : List ℕ) → (self.now).high ≡ high_of text → result ≡ end_of text }
    {
        self.high.swap_bytes()
    }

    /// The numbers of the fingerprint mixed into one.
    #[inline(always)]
    #[tactic(auto, unfolding(crate::specs::Fingerprints::mix_of))]
    pub fn mix(&self) -> u64
        ensures { result ≡ mix_of self.now }
    {
        let numbers = u64::from(self.file) * 0x1_0000_0000 + u64::from(self.section);
        self.low.wrapping_mul(LOW_FACTOR) ^ (self.high ^ numbers).wrapping_mul(HIGH_FACTOR)
    }
}
