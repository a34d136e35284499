//! What a line of a log is.
ghost use Rattle.std.specs.Prelude.{◌≡◌};

use std::alloc::AllocError;

/// The type text of an event: that of the rule with this number, or a part of the line.
#[derive(Clone, Copy, Debug, PartialEq, Eq)]
pub enum Named {
    /// The name of the rule with this number, counted from 0.
    Fixed(u32),
    /// The part of the line from the first byte place up to the second.
    Part(usize, usize),
}

/// What a line is.
#[derive(Clone, Copy, Debug, PartialEq, Eq)]
pub enum Decision {
    /// An event. The text of its trace is the part of the line from byte `trace_from` up to
    /// `trace_to`. The time is in billionths, and is 0 if the rule has no group TIME.
    Event {
        name: Named,
        trace_from: usize,
        trace_to: usize,
        time: u128,
    },
    /// Nothing.
    Skip,
    /// The end of a section.
    Separator,
    /// No rule decides the line.
    Undecided,
}

/// Why a line was not decided.
#[derive(Clone, Copy, Debug, PartialEq, Eq)]
pub enum DecideError {
    /// The deciding rule has a group TIME that took no part in the match or whose text is no time.
    BadTime,
    /// Memory ran out.
    Memory,
}

impl From<AllocError> for DecideError {
    ghost use Rattle.line_rules.specs.declared.decision.DecideError.TheVariants.{Memory};

    ghost from_gives = { λ _ e. e ≡ Memory };

    fn from(_: AllocError) -> DecideError {
        DecideError::Memory
    }
}
