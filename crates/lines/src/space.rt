//! The first space of bytes.
ghost use Rattle.std.specs.Prelude.{◌≡◌, ◌≢◌, ◌==◌, ℕ, ◌+◌, ◌<◌, ◌≤◌, drop, length, take, slice_index, EachIndex, MatchOption};
ghost use Rattle.std.specs.List.{position_or_len};

use std::simd::prelude::*;

/// How many bytes are looked at together: most lines have their first space among the first of them.
const LANES: usize = 8;

/// How many are looked at together if fewer are left.
const FEW_LANES: usize = 4;

/// How many are looked at together if there are as many, in the line or after it.
const MORE_LANES: usize = 16;

/// How many of the next `LANES` bytes stand before the first space. If there is none, it is all of them.
fn before_space(bytes: &[u8], at: usize) -> usize
    requires { at + LANES ≤ length bytes.now }
    ensures { result ≡ position_or_len (λ b. b == 32) (take LANES (drop at bytes.now)) }
{
    let spaces = u8x8::from_slice(&bytes[at..])
        .simd_eq(u8x8::splat(b' '))
        .to_bitmask();
    if spaces == 0 {
        LANES
    } else {
        spaces.trailing_zeros() as usize
    }
}

/// The same for fewer bytes.
fn before_space_of_few(bytes: &[u8], at: usize) -> usize
    requires { at + FEW_LANES ≤ length bytes.now }
    ensures { result ≡ position_or_len (λ b. b == 32) (take FEW_LANES (drop at bytes.now)) }
{
    let few = u8x4::from_slice(&bytes[at..])
        .simd_eq(u8x4::splat(b' '))
        .to_bitmask();
    if few == 0 {
        FEW_LANES
    } else {
        few.trailing_zeros() as usize
    }
}

/// The place of the first space, found byte by byte from a place before which there is none.
fn first_space_byte_by_byte(bytes: &[u8], seen: usize) -> Option<usize>
    requires inside { seen ≤ length bytes.now }
    requires none { (k : ℕ) → k < seen → slice_index bytes.now k ≢ 32 }
    ensures { MatchOption result (EachIndex bytes.now (λ k. slice_index bytes.now k ≢ 32))
        (λ at. (at < length bytes.now) × (slice_index bytes.now at ≡ 32)
        × ((k : ℕ) → k < at → slice_index bytes.now k ≢ 32)) }
{
    for at in seen..bytes.len() {
        if bytes[at] == b' ' {
            return Some(at);
        }
    }
    None
}

/// The place of the first space, if there is none before `seen` and few bytes follow.
fn first_space_in_rest(bytes: &[u8], seen: usize) -> Option<usize>
    requires inside { seen ≤ length bytes.now }
    requires none { (k : ℕ) → k < seen → slice_index bytes.now k ≢ 32 }
    ensures { MatchOption result (EachIndex bytes.now (λ k. slice_index bytes.now k ≢ 32))
        (λ at. (at < length bytes.now) × (slice_index bytes.now at ≡ 32)
        × ((k : ℕ) → k < at → slice_index bytes.now k ≢ 32)) }
{
    if bytes.len() - seen < FEW_LANES {
        return first_space_byte_by_byte(bytes, seen);
    }
    let before = before_space_of_few(bytes, seen);
    if before < FEW_LANES {
        return Some(seen + before);
    }
    first_space_byte_by_byte(bytes, seen + FEW_LANES)
}

/// The place of the first space. It stays a call, since most lines have theirs among the bytes at which `first_space_ahead`
/// looks.
#[inline(never)]
fn first_space(bytes: &[u8]) -> Option<usize>
    ensures { MatchOption result (EachIndex bytes.now (λ k. slice_index bytes.now k ≢ 32))
        (λ at. (at < length bytes.now) × (slice_index bytes.now at ≡ 32)
        × ((k : ℕ) → k < at → slice_index bytes.now k ≢ 32)) }
{
    let mut seen = 0;
    while bytes.len() - seen >= LANES {
        let before = before_space(bytes, seen);
        if before < LANES {
            return Some(seen + before);
        }
        seen += LANES;
    }
    first_space_in_rest(bytes, seen)
}

/// How many of the bytes from here on, up to `MORE_LANES`, stand before the first space.
#[inline(always)]
fn before_space_of_more(bytes: &[u8]) -> usize
    requires { MORE_LANES ≤ length bytes.now }
    ensures { result ≡ position_or_len (λ b. b == 32) (take MORE_LANES bytes.now) }
{
    let more = u8x16::from_slice(bytes)
        .simd_eq(u8x16::splat(b' '))
        .to_bitmask();
    if more == 0 {
        MORE_LANES
    } else {
        more.trailing_zeros() as usize
    }
}

/// The place of the first space of a line. `bytes` begins with the line. If there are enough of them, the bytes after a short
/// line are looked at together with it.
#[inline(always)]
pub(crate) fn first_space_ahead(line: &[u8], bytes: &[u8]) -> Option<usize>
    requires begins { take (length line.now) bytes.now ≡ line.now }
    ensures { MatchOption result (EachIndex line.now (λ k. slice_index line.now k ≢ 32))
        (λ at. (at < length line.now) × (slice_index line.now at ≡ 32)
        × ((k : ℕ) → k < at → slice_index line.now k ≢ 32)) }
{
    if bytes.len() < MORE_LANES {
        return first_space(line);
    }
    let before = before_space_of_more(bytes);
    if before < MORE_LANES && before < line.len() {
        return Some(before);
    }
    first_space(line)
}
