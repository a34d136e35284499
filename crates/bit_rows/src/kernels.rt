//! Loops over the words of rows.
ghost use Rattle.std.specs.Prelude.{◌≡◌, ◌≢◌, ◌==◌, ℕ, ◌+◌, ◌*◌, ◌^◌, ◌<◌, ◌≤◌, length, slice_index, vec_capacity, bit_and, if◌then◌else◌};
ghost use Rattle.std.specs.Int.{bit_at, bit_not, w64};
ghost use Rattle.std.specs.Int.Bits.{bit_or};
ghost use Rattle.bit_rows.specs.Written.{word, AllFit, IsApart, IsReached, IsWritten, TellsChange};

use std::simd::prelude::*;

/// How many words a vector has.
pub(crate) const LANES: usize = 8;

/// The word with this bit turned on or off.
pub(crate) fn with_bit(word: u64, place: u32, on: bool) -> u64
    requires { place < 64 }
    ensures there { bit_at result place ≡ (if on then 1 else 0) }
    ensures others { (i : ℕ) → i < 64 → i ≢ place → bit_at result i ≡ bit_at word i }
{
    if on {
        word | (1 << place)
    } else {
        word & !(1 << place)
    }
}

/// Whether the bit is set.
pub(crate) fn has_bit(word: u64, place: u32) -> bool
    requires { place < 64 }
    ensures { result ≡ (bit_at word place == 1) }
{
    (word >> place) & 1 == 1
}

/// The word without its bits below the place.
pub(crate) fn from_place(word: u64, place: u32) -> u64
    requires { place < 64 }
    ensures fits { result < 2 ^ 64 }
    ensures below { (i : ℕ) → i < place → bit_at result i ≡ 0 }
    ensures behind { (i : ℕ) → place ≤ i → bit_at result i ≡ bit_at word i }
{
    word >> place << place
}

/// The word at a place; 0 after the last one.
pub(crate) fn word_at(words: &[u64], place: usize) -> u64
    ensures { result ≡ slice_index words.now place }
{
    if place < words.len() { words[place] } else { 0 }
}

/// Appends words of 0 until row `r` is there, if each row has `width` words. The list has the capacity for it.
pub(crate) fn reach(words: &mut Vec<u64>, width: usize, r: usize)
    requires { r * width + width ≤ vec_capacity words.old }
    ensures reached { IsReached words.old.items words.new.items (r * width + width) }
    ensures capacity { vec_capacity words.old ≤ vec_capacity words.new }
{
    let end = r * width + width;
    if end > words.len() {
        extend(words, end);
    }
}

/// Appends words of 0 until there are this many. It stands apart, so that what `reach` inlines stays small.
#[cold]
#[inline(never)]
fn extend(words: &mut Vec<u64>, count: usize)
    requires capacity { count ≤ vec_capacity words.old }
    requires more { length words.old.items ≤ count }
    ensures reached { IsReached words.old.items words.new.items count }
    ensures capacity { vec_capacity words.old ≤ vec_capacity words.new }
{
    if words.resize(count, 0).is_err() {
        unreachable!()
    }
}

/// How many blocks of words, from the first, are 0.
fn zero_blocks(words: &[u64], at: usize, blocks: usize) -> usize
    requires { at + blocks * LANES ≤ length words.now }
    ensures within { result ≤ blocks }
    ensures before { (k : ℕ) → k < result * LANES → word words.now at k ≡ 0 }
{
    for b in 0..blocks {
        if u64x8::from_slice(&words[at + b * LANES..]).reduce_or() != 0 {
            return b;
        }
    }
    blocks
}

/// The index of the first of `count` words that is not 0, or `count` if all are 0.
pub(crate) fn first_word(words: &[u64], at: usize, count: usize) -> usize
    requires { at + count ≤ length words.now }
    ensures within { result ≤ count }
    ensures before { (k : ℕ) → k < result → word words.now at k ≡ 0 }
    ensures found { result < count → 0 < word words.now at result }
    ensures fits { word words.now at result < 2 ^ 64 }
{
    let behind = zero_blocks(words, at, count / LANES) * LANES;
    for k in behind..count {
        if words[at + k] != 0 {
            return k;
        }
    }
    count
}

/// How many blocks of words, from the first, show no bit that is set both in `a` and in `b`, or both in `c` and in `d`.
pub(crate) fn apart_blocks(
    words: &[u64],
    a: usize,
    b: usize,
    c: usize,
    d: usize,
    blocks: usize,
) -> usize
    requires a_in { a + blocks * LANES ≤ length words.now }
    requires b_in { b + blocks * LANES ≤ length words.now }
    requires c_in { c + blocks * LANES ≤ length words.now }
    requires d_in { d + blocks * LANES ≤ length words.now }
    ensures within { result ≤ blocks }
    ensures before { (k : ℕ) → k < result * LANES
        → bit_or (bit_and (word words.now a k) (word words.now b k))
        (bit_and (word words.now c k) (word words.now d k)) ≡ 0 }
{
    for i in 0..blocks {
        let k = i * LANES;
        let one = u64x8::from_slice(&words[a + k..]) & u64x8::from_slice(&words[b + k..]);
        let other = u64x8::from_slice(&words[c + k..]) & u64x8::from_slice(&words[d + k..]);
        if (one | other).reduce_or() != 0 {
            return i;
        }
    }
    blocks
}

/// Makes words 0.
pub(crate) fn clear_words(words: &mut [u64], to: usize, count: usize)
    requires { to + count ≤ length words.old }
    ensures { IsWritten words.old words.new to count (λ _. 0) }
{
    for k in 0..count {
        words[to + k] = 0;
    }
}

/// Writes words over others.
pub(crate) fn copy_words(words: &mut [u64], to: usize, from: usize, count: usize)
    requires to_in { to + count ≤ length words.old }
    requires from_in { from + count ≤ length words.old }
    requires apart { IsApart to from count }
    ensures { IsWritten words.old words.new to count (word words.old from) }
{
    for k in 0..count {
        words[to + k] = words[from + k];
    }
}

/// Sets the bits that are set in other words, in blocks of `LANES` words, and returns whether that changed any.
fn or_blocks(words: &mut [u64], to: usize, from: usize, blocks: usize) -> bool
    requires to_in { to + blocks * LANES ≤ length words.old }
    requires from_in { from + blocks * LANES ≤ length words.old }
    requires apart { IsApart to from (blocks * LANES) }

    // The words that are written, and whether any of them changed.
    ensures fits { AllFit words.old }
    ensures written { IsWritten words.old words.new to (blocks
        * LANES) (λ k. bit_or (word words.old to k) (word words.old from k)) }
    ensures tells { TellsChange (blocks * LANES)
        (λ k. bit_or (word words.old to k) (word words.old from k))
        (word words.old to) result }
{
    let mut more = u64x8::splat(0);
    for b in 0..blocks {
        let k = b * LANES;
        let old = u64x8::from_slice(&words[to + k..]);
        let new = old | u64x8::from_slice(&words[from + k..]);
        more = more | (new ^ old);
        new.copy_to_slice(&mut words[to + k..]);
    }
    more.reduce_or() != 0
}

/// Sets the bits that are set in other words, word by word, and returns whether that changed any.
fn or_rest(words: &mut [u64], to: usize, from: usize, count: usize) -> bool
    requires to_in { to + count ≤ length words.old }
    requires from_in { from + count ≤ length words.old }
    requires apart { IsApart to from count }

    // The words that are written, and whether any of them changed.
    ensures fits { AllFit words.old × AllFit words.new }
    ensures written { IsWritten words.old words.new to count
        (λ k. bit_or (word words.old to k) (word words.old from k)) }
    ensures tells { TellsChange count
        (λ k. bit_or (word words.old to k) (word words.old from k))
        (word words.old to) result }
{
    let mut more = 0;
    for k in 0..count {
        let old = words[to + k];
        let new = old | words[from + k];
        more = more | (new ^ old);
        words[to + k] = new;
    }
    more != 0
}

/// Sets the bits that are set in other words, and returns whether that changed any.
pub(crate) fn or_words(words: &mut [u64], to: usize, from: usize, count: usize) -> bool
    requires to_in { to + count ≤ length words.old }
    requires from_in { from + count ≤ length words.old }
    requires apart { IsApart to from count }

    // The words that are written, and whether any of them changed.
    ensures fits { AllFit words.old × AllFit words.new }
    ensures written { IsWritten words.old words.new to count
        (λ k. bit_or (word words.old to k) (word words.old from k)) }
    ensures tells { TellsChange count
        (λ k. bit_or (word words.old to k) (word words.old from k))
        (word words.old to) result }
{
    let blocks = count / LANES;
    let done = blocks * LANES;
    let in_blocks = or_blocks(words, to, from, blocks);
    let behind = or_rest(words, to + done, from + done, count - done);
    in_blocks | behind
}

/// Clears the bits that are not set in other words.
pub(crate) fn and_words(words: &mut [u64], to: usize, from: usize, count: usize)
    requires to_in { to + count ≤ length words.old }
    requires from_in { from + count ≤ length words.old }
    requires apart { IsApart to from count }
    ensures { IsWritten words.old words.new to count
        (λ k. bit_and (word words.old to k) (word words.old from k)) }
{
    for k in 0..count {
        words[to + k] = words[to + k] & words[from + k];
    }
}

/// Clears the bits that are set in other words.
pub(crate) fn and_not_words(words: &mut [u64], to: usize, from: usize, count: usize)
    requires to_in { to + count ≤ length words.old }
    requires from_in { from + count ≤ length words.old }
    requires apart { IsApart to from count }
    ensures fits { AllFit words.old }
    ensures written { IsWritten words.old words.new to count
        (λ k. bit_and (word words.old to k) (bit_not w64 (word words.old from k))) }
{
    for k in 0..count {
        words[to + k] = words[to + k] & !words[from + k];
    }
}

/// Sets the bits that are set in words and in a mask, and returns whether that changed any.
pub(crate) fn or_and_words(
    words: &mut [u64],
    to: usize,
    a: usize,
    mask: usize,
    count: usize,
) -> bool
    requires to_in { to + count ≤ length words.old }
    requires a_in { a + count ≤ length words.old }
    requires mask_in { mask + count ≤ length words.old }
    requires a_apart { IsApart to a count }
    requires mask_apart { IsApart to mask count }

    // The words that are written, and whether any of them changed.
    ensures fits { AllFit words.old × AllFit words.new }
    ensures written { IsWritten words.old words.new to count
        (λ k. bit_or (word words.old to k) (bit_and (word words.old a k) (word words.old mask k))) }
    ensures tells { TellsChange count
        (λ k. bit_or (word words.old to k) (bit_and (word words.old a k) (word words.old mask k)))
        (word words.old to) result }
{
    let mut more = 0;
    for k in 0..count {
        let old = words[to + k];
        let new = old | (words[a + k] & words[mask + k]);
        more = more | (new ^ old);
        words[to + k] = new;
    }
    more != 0
}

/// Sets the bits that are set in words and not in a mask, and returns whether that changed any.
pub(crate) fn or_and_not_words(
    words: &mut [u64],
    to: usize,
    a: usize,
    mask: usize,
    count: usize,
) -> bool
    requires to_in { to + count ≤ length words.old }
    requires a_in { a + count ≤ length words.old }
    requires mask_in { mask + count ≤ length words.old }
    requires a_apart { IsApart to a count }
    requires mask_apart { IsApart to mask count }

    // The words that are written, and whether any of them changed.
    ensures fits { AllFit words.old × AllFit words.new }
    ensures written { IsWritten words.old words.new to count
        (λ k. bit_or (word words.old to k)
        (bit_and (word words.old a k) (bit_not w64 (word words.old mask k)))) }
    ensures tells { TellsChange count
        (λ k. bit_or (word words.old to k)
        (bit_and (word words.old a k) (bit_not w64 (word words.old mask k))))
        (word words.old to) result }
{
    let mut more = 0;
    for k in 0..count {
        let old = words[to + k];
        let new = old | (words[a + k] & !words[mask + k]);
        more = more | (new ^ old);
        words[to + k] = new;
    }
    more != 0
}
