//! Inputs in memory, which fail at given calls.
ghost use Rattle.std.specs.Prelude.{◌≡◌, ◌≤◌, ◌<◌, ◌+◌, ◌^◌, min, ◌++◌, length, take, drop};
ghost use Rattle.std.specs.Prelude.{IfNone, IfSome, Some, None};
ghost use Rattle.outside.specs.Told.{told};
ghost use Rattle.outside.specs.Inputs.{bytes_of, Stays, OpenGives, ReadGives};
ghost use Rattle.outside.specs.Turns.{at_end, followed_after, if_so, in_turn};
ghost use Rattle.outside.specs.InMemory.{OpensStored, ReadsStored, input_state, rest_of, unused_inputs};

use crate::failing::fails;
use crate::{Failed, Inputs, OpenError};
use std::marker::Model;

/// Files in memory, with the numbers of the calls that fail.
///
/// Contracts see the files, the unread bytes of the open file, how many bytes a read gives at most,
/// the numbers of the calls that fail, how many calls were made, how many opened a file and how
/// many failed, and how many files were opened in turn.
#[derive(Drop)]
pub struct MemInputs {
    files: Vec<(String, Vec<u8>)>,
    piece: usize,
    failing: Vec<u64>,
    calls: u64,
    opens: u64,
    faults: u64,
    opened: Option<usize>,
    at: usize,
    /// How many files were opened in their order, each but the last read to its end. None once another was opened.
    followed: Option<usize>,
}

impl Model for MemInputs {
    ghost use Rattle.std.specs.Prelude.{◌≤◌};
    ghost use Rattle.outside.specs.Told.{told};
    ghost use Rattle.outside.specs.InMemory.{StoredInputs, rest_of};

    ghost Value = { StoredInputs };

    ghost view = { λ m. record {
      files = told m.files.items;
      rest = rest_of (told m.files.items) m.opened m.at;
      piece = m.piece;
      failing = m.failing.items;
      calls = m.calls;
      opens = m.opens;
      faults = m.faults;
      followed = m.followed;
    } };

    ghost invariant = { λ m. 1 ≤ m.piece };
}

impl MemInputs {
    /// Inputs over these files, with nothing open and no call made.
    ///
    /// If two files have the same name, the first counts. A read gives at most `piece` bytes, which
    /// is at least 1. Calls of `open` and `read` are counted together from 1, and the number stays
    /// at `u64::MAX` once it is reached. A call fails exactly if its number is in `failing`.
    pub fn new(files: Vec<(String, Vec<u8>)>, piece: usize, failing: Vec<u64>) -> MemInputs
        requires { 1 ≤ piece }
        ensures { result ≡ unused_inputs (told files.items) piece failing.items }
    {
        MemInputs {
            files,
            piece,
            failing,
            calls: 0,
            opens: 0,
            faults: 0,
            opened: None,
            at: 0,
            followed: Some(0),
        }
    }
}

/// The place of the first file of this name.
fn place_of(files: &[(String, Vec<u8>)], name: &str) -> Option<usize>
    ensures none { IfNone result (bytes_of (told files.now) name.now ≡ None) }
    ensures some { IfSome result (λ place.
        bytes_of (told files.now) name.now ≡ Some (rest_of (told files.now) (Some place) 0)) }
{
    for (place, file) in files.iter().enumerate() {
        if file.0.as_str() == name {
            return Some(place);
        }
    }
    None
}

/// The bytes of the open file from this one on.
fn rest_at(files: &[(String, Vec<u8>)], place: Option<usize>, from: usize) -> &[u8]
    ensures rest { result.now ≡ rest_of (told files.now) place from }
    ensures room { from + length result.now < 2 ^ 64 }
{
    let Some(place) = place else {
        return &[];
    };
    let Some(file) = files.get(place) else {
        return &[];
    };
    if from >= file.1.len() {
        return &[];
    }
    &file.1[from..]
}

/// How many files were opened in turn, once the open one is closed. If it was not read to its end,
/// there is no number.
fn closed(
    files: &[(String, Vec<u8>)],
    place: Option<usize>,
    from: usize,
    followed: Option<usize>,
) -> Option<usize>
    ensures { result ≡ if_so followed (at_end (Some (rest_of (told files.now) place from))) }
{
    let rest = rest_at(files, place, from);
    let count = followed?;
    if rest.is_empty() { Some(count) } else { None }
}

/// How many files were opened in turn, after one of this name.
fn next_in_turn(files: &[(String, Vec<u8>)], name: &str, followed: Option<usize>) -> Option<usize>
    ensures { result ≡ in_turn (Some (told files.now)) name.now followed }
{
    let count = followed?;
    match files.get(count) {
        Some(file) if file.0.as_str() == name => Some(count + 1),
        _ => None,
    }
}

/// Copies the first bytes, as many as the buffer and the piece allow.
fn fill(bytes: &[u8], piece: usize, buf: &mut [u8]) -> usize
    ensures count { result ≡ min (length buf.old) (min piece (length bytes.now)) }
    ensures front { buf.new ≡ take result bytes.now ++ drop result buf.old }
{
    let count = buf.len().min(piece.min(bytes.len()));
    buf[..count].copy_from_slice(&bytes[..count]);
    count
}

impl Inputs for MemInputs {
    ghost state = { input_state };

    fn open(&mut self, name: &str) -> Result<(), OpenError>
        ensures stays { Stays (input_state self.old) (input_state self.new) }
        ensures bounded { (input_state self.new).faults < 2 ^ 64 }
        ensures gives { OpenGives (input_state self.old) name.now result (input_state self.new) }
        ensures turn { (input_state self.new).followed
            ≡ followed_after (input_state self.old) name.now result }

        // The result and the whole state afterwards, by the number of the call and the name.
        ensures exact { OpensStored self.old name.now result self.new }
    {
        self.followed = closed(&self.files, self.opened, self.at, self.followed);
        self.opened = None;
        if fails(&mut self.calls, &mut self.faults, &self.failing) {
            return Err(OpenError::Failed);
        }
        let Some(place) = place_of(&self.files, name) else {
            return Err(OpenError::Missing);
        };
        self.opened = Some(place);
        self.at = 0;
        self.opens = self.opens.saturating_add(1);
        self.followed = next_in_turn(&self.files, name, self.followed);
        Ok(())
    }

    fn read(&mut self, buf: &mut [u8]) -> Result<usize, Failed>
        ensures stays { Stays (input_state self.old) (input_state self.new) }
        ensures bounded { (input_state self.new).faults < 2 ^ 64 }
        ensures mark { (input_state self.new).mark ≡ (input_state self.old).mark }
        ensures opens { (input_state self.new).opens ≡ (input_state self.old).opens }
        ensures turn { (input_state self.new).followed ≡ (input_state self.old).followed }
        ensures gives { ReadGives (input_state self.old) result buf.new (input_state self.new) }

        // The result, the buffer and the whole state afterwards, by the number of the call and the
        // room.
        ensures exact { ReadsStored self.old buf.old result buf.new self.new }
    {
        if fails(&mut self.calls, &mut self.faults, &self.failing) {
            return Err(Failed);
        }
        let count = fill(rest_at(&self.files, self.opened, self.at), self.piece, buf);
        self.at += count;
        Ok(count)
    }
}
