//! Finds the first line feed among bytes.
ghost use Rattle.std.specs.Prelude.{◌≡◌, ◌<◌, ◌≤◌, ◌+◌, ◌-◌, length, min, take, drop, IfNone, IfSome};
ghost use Rattle.std.specs.List.{position_or_len};
ghost use Rattle.lines.specs.Lines.{is_feed};

use memchr::memchr;
use std::simd::prelude::*;

/// How many bytes are looked at together.
pub const LANES: usize = 16;

/// How many bytes are searched for a line feed before the search becomes a call of `memchr`.
pub const NEAR_BYTES: usize = 256;

/// The place of the first line feed, if there is one. The search starts at a place before which there is none.
fn search_feed(bytes: &[u8], searched: usize) -> Option<usize>
    requires inside { searched ≤ length bytes.now }
    requires before { searched ≤ position_or_len is_feed bytes.now }
    ensures some { IfSome result (λ n. n ≡ position_or_len is_feed bytes.now) }
    ensures found { IfSome result (λ n. n < length bytes.now) }
    ensures none { IfNone result (position_or_len is_feed bytes.now ≡ length bytes.now) }
{
    match memchr(10, &bytes[searched..]) {
        Some(n) => Some(searched + n),
        None => None,
    }
}

/// How many of the next `LANES` bytes stand before the first line feed. They are looked at together.
#[inline(always)]
fn before_feed(bytes: &[u8], at: usize) -> usize
    requires { at + LANES ≤ length bytes.now }
    ensures { result ≡ position_or_len is_feed (take LANES (drop at bytes.now)) }
{
    let feeds = u8x16::from_slice(&bytes[at..])
        .simd_eq(u8x16::splat(10))
        .to_bitmask();
    if feeds == 0 {
        LANES
    } else {
        feeds.trailing_zeros() as usize
    }
}

/// The place of the first line feed, if there is one. The search starts at a place before which there is none. The end of a short
/// line is found at the first look.
#[inline(always)]
pub fn first_feed(bytes: &[u8], searched: usize) -> Option<usize>
    requires inside { searched ≤ length bytes.now }
    requires before { searched ≤ position_or_len is_feed bytes.now }
    ensures some { IfSome result (λ n. n ≡ position_or_len is_feed bytes.now) }
    ensures found { IfSome result (λ n. n < length bytes.now) }
    ensures none { IfNone result (position_or_len is_feed bytes.now ≡ length bytes.now) }
{
    if bytes.len() - searched < LANES {
        return search_feed(bytes, searched);
    }
    let before = before_feed(bytes, searched);
    if before < LANES {
        return Some(searched + before);
    }
    search_feed(bytes, searched + LANES)
}

/// The place of the first line feed, if it is among the first `NEAR_BYTES` bytes and more bytes follow. It may be missed if fewer
/// than `LANES` bytes follow. There is none among the first 2 * `LANES` bytes. It stays a call, and is marked as a rare one, so that
/// the path of a short line is short.
#[cold]
#[inline(never)]
fn further_feed(bytes: &[u8]) -> Option<usize>
    requires inside { LANES + LANES ≤ length bytes.now }
    requires before { LANES + LANES ≤ position_or_len is_feed bytes.now }
    ensures some { IfSome result (λ n. n ≡ position_or_len is_feed bytes.now) }
    ensures near { IfSome result (λ n. n < NEAR_BYTES) }
    ensures more { IfSome result (λ n. n + 1 < length bytes.now) }
    ensures far { IfNone result
        (min NEAR_BYTES (length bytes.now - LANES) ≤ position_or_len is_feed bytes.now) }
{
    let looks = (bytes.len() - 1).min(NEAR_BYTES) / LANES;
    for look in 2..looks {
        let searched = look * LANES;
        let before = before_feed(bytes, searched);
        if before < LANES {
            return Some(searched + before);
        }
    }
    None
}

/// The place of the first line feed, if it is among the first `NEAR_BYTES` bytes and more bytes follow. It may be missed if fewer
/// than `LANES` bytes follow. There is none among the first `LANES` bytes.
#[inline(always)]
fn next_feed(bytes: &[u8]) -> Option<usize>
    requires inside { LANES ≤ length bytes.now }
    requires before { LANES ≤ position_or_len is_feed bytes.now }
    ensures some { IfSome result (λ n. n ≡ position_or_len is_feed bytes.now) }
    ensures near { IfSome result (λ n. n < NEAR_BYTES) }
    ensures more { IfSome result (λ n. n + 1 < length bytes.now) }
    ensures far { IfNone result
        (min NEAR_BYTES (length bytes.now - LANES) ≤ position_or_len is_feed bytes.now) }
{
    if bytes.len() <= LANES + LANES {
        return None;
    }
    let before = before_feed(bytes, LANES);
    if before < LANES {
        return Some(LANES + before);
    }
    further_feed(bytes)
}

/// The place of the first line feed, if it is among the first `NEAR_BYTES` bytes and more bytes follow. It may be missed if fewer
/// than `LANES` bytes follow. `LANES` bytes are looked at together.
#[inline(always)]
pub fn near_feed(bytes: &[u8]) -> Option<usize>
    ensures some { IfSome result (λ n. n ≡ position_or_len is_feed bytes.now) }
    ensures near { IfSome result (λ n. n < NEAR_BYTES) }
    ensures more { IfSome result (λ n. n + 1 < length bytes.now) }
    ensures none { IfNone result (LANES < length bytes.now
        → LANES ≤ position_or_len is_feed bytes.now) }
    ensures far { IfNone result
        (min NEAR_BYTES (length bytes.now - LANES) ≤ position_or_len is_feed bytes.now) }
{
    if bytes.len() <= LANES {
        return None;
    }
    let before = before_feed(bytes, 0);
    if before < LANES {
        return Some(before);
    }
    next_feed(bytes)
}
