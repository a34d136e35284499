//! Lists of numbers, one after another in one block of memory, and the spans that locate them.
ghost use Rattle.std.specs.Prelude.{◌≡◌, ◌+◌, ◌<◌, ◌≤◌, [], length, IfOk, MatchOption};
ghost use Rattle.cell_pool.specs.Numbers.{Pushes, KeepsLists, list_at};

use std::alloc::{AllocError, Global};
use std::marker::Model;

/// Where a list stands in some [`Spans`]: the place of its first number, and how many numbers it has.
#[derive(Clone, Copy, Debug, PartialEq, Eq)]
pub struct Span {
    /// The place of the first number; places count from 0.
    pub from: u32,
    /// How many numbers there are.
    pub len: u32,
}

/// Lists of numbers, in a room that is allocated once. Contracts see all their numbers as one list, and the room: how
/// many numbers there may be. What was pushed stays where it is, so a span stays valid.
#[derive(Drop)]
pub struct Spans {
    numbers: Vec<u32>,
    room: u32,
}

impl Model for Spans {
    ghost use Rattle.std.specs.Prelude.{◌<◌, ◌^◌};
    ghost use Rattle.cell_pool.specs.Numbers.{Numbers};
    ghost use Rattle.cell_pool.specs.Rooms.{HasRoom};

    ghost Value = { Numbers };

    ghost view = { λ s. record { numbers = s.numbers.items; room = s.room } };

    ghost invariant = { λ s. HasRoom s.numbers s.room × (s.room < 2 ^ 32) };
}

impl Spans {
    /// No numbers yet, and room for this many. Only this call allocates; `AllocError` is returned if there is not
    /// enough memory.
    pub fn make(alloc: Global, room: u32) -> Result<Spans, AllocError>
        ensures { IfOk result (λ made. made ≡ record { numbers = []; room = room }) }
    {
        let numbers = Vec::with_capacity(alloc, room as usize)?;
        Ok(Spans { numbers, room })
    }

    /// Appends the numbers, and returns where they stand. `None` is returned exactly if the remaining room is too small
    /// for them; then nothing is changed. What was pushed before stays where it is.
    pub fn push(&mut self, numbers: &[u32]) -> Option<Span>
        ensures push { MatchOption result
            (((self.old).room < length (self.old).numbers + length numbers.now)
            × (self.new ≡ self.old))
            (λ span. Pushes self.old self.new numbers.now span) }
        ensures stays { KeepsLists (self.old).numbers (self.new).numbers }
    {
        let from = self.numbers.len();
        if numbers.len() > self.room as usize - from {
            return None;
        }
        if self.numbers.extend_from_slice(numbers).is_err() {
            unreachable!()
        }
        Some(Span {
            from: from as u32,
            len: numbers.len() as u32,
        })
    }

    /// The numbers at the places of the span. The span must lie within the numbers pushed so far.
    pub fn get(&self, span: Span) -> &[u32]
        requires { span.from + span.len ≤ length (self.now).numbers }
        ensures { result.now ≡ list_at (self.now).numbers span.from span.len }
    {
        let from = span.from as usize;
        &self.numbers.as_slice()[from..from + span.len as usize]
    }

    /// How many numbers were pushed so far, over all lists. It is at most the room.
    pub fn used(&self) -> u32
        ensures value { result ≡ length (self.now).numbers }
        ensures within { result ≤ (self.now).room }
    {
        self.numbers.len() as u32
    }
}
