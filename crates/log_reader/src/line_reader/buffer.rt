//! The bytes of a buffer: reads after those that it holds, moves them to its start, and finds out whether they are ASCII.
ghost use Rattle.std.specs.Prelude.{ℕ, ◌≡◌, ◌<◌, ◌≤◌, ◌+◌, ◌-◌, length, take, true, slice_index};
ghost use Rattle.outside.specs.Inputs.{Stays};
ghost use Rattle.log_reader.specs.Buffers.{IsClean, ReadsBehind, part_of};

use outside::{Failed, Inputs};

/// How many bytes the buffer has. It holds a piece of the greatest length with its line feed, and has room to read many more
/// bytes at once.
pub const BUFFER_BYTES: usize = 131_072;

/// The greatest of the bytes.
fn greatest(bytes: &[u8]) -> u8
    ensures { (i : ℕ) → slice_index bytes.now i ≤ result }
{
    let mut greatest = 0;
    for i in 0..bytes.len() {
        greatest = bytes[i].max(greatest);
    }
    greatest
}

/// Whether the bytes are ASCII.
fn are_clean(bytes: &[u8]) -> bool
    ensures { result ≡ true → (i : ℕ) → slice_index bytes.now i < 128 }
{
    greatest(bytes) < 128
}

/// A place from which on all bytes before `to` are ASCII, if those from `clean_from` up to `held` are. Only the bytes from `held`
/// on are looked at.
pub fn clean_after(buf: &[u8], clean_from: usize, held: usize, to: usize) -> usize
    requires order { held ≤ to }
    requires inside { to ≤ length buf.now }
    requires clean { IsClean clean_from held buf.now }
    ensures { IsClean result to buf.now }
{
    if are_clean(&buf[held..to]) {
        clean_from
    } else {
        to
    }
}

/// Moves the bytes between two places to the start of a buffer.
pub fn to_front(buf: &mut [u8], from: usize, to: usize)
    requires order { from ≤ to }
    requires inside { to ≤ length buf.old }
    ensures front { take (to - from) buf.new ≡ part_of buf.old from to }
    ensures size { length buf.new ≡ length buf.old }
{
    if from > 0 {
        buf.copy_within(from..to, 0);
    }
}

/// Reads into a buffer after the bytes that it holds, at most `room` bytes.
pub fn read_behind<I: Inputs>(
    inputs: &mut I,
    buf: &mut [u8],
    held: usize,
    room: usize,
) -> Result<usize, Failed>
    requires some { 0 < room }
    requires inside { held + room ≤ length buf.old }
    ensures stays { Stays (I.state inputs.old) (I.state inputs.new) }
    ensures mark { (I.state inputs.new).mark ≡ (I.state inputs.old).mark }
    ensures opens { (I.state inputs.new).opens ≡ (I.state inputs.old).opens }
    ensures turn { (I.state inputs.new).followed ≡ (I.state inputs.old).followed }

    // The bytes that are read, and where they are put.
    ensures size { length buf.new ≡ length buf.old }
    ensures gives { ReadsBehind (I.state inputs.old) held room buf.old result
        buf.new (I.state inputs.new) }
{
    inputs.read(&mut buf[held..held + room])
}
