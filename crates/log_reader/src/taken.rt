//! What a line was taken for.

use trace_builder::Placed;

/// What a line of a log was taken for.
#[derive(Clone, Copy)]
pub enum Taken {
    /// An event: where it was put, and its time in billionths of the log's unit of time.
    Event { placed: Placed, time: u128 },
    /// Nothing decides the line, and such lines are skipped.
    Undecided,
    /// The line has no event: it is empty, a separator, or skipped by a rule.
    Nothing,
}
