//! Why a log is refused.
ghost use Rattle.std.specs.Prelude.{◌≡◌};
ghost use Rattle.log_reader.specs.declared.refusal.ReadError.TheVariants.{Memory};

use std::alloc::AllocError;

/// A line of an input.
#[derive(Clone, Copy, Debug, PartialEq, Eq)]
pub struct At {
    /// The number of the input in the order of the names, counted from 0.
    pub file: u32,
    /// The number of the line in the input, counted from 1.
    pub line: u32,
}

/// Why a log is refused. If there are several refusals, the first in the order of the bytes is
/// returned.
#[derive(Clone, Copy, Debug, PartialEq, Eq)]
pub enum ReadError {
    /// The input with this number could not be opened or read.
    ReadFault(u32),
    /// The line has more than 65,536 bytes, including a carriage return at its end.
    LineTooLong(At),
    /// Nothing decides the line.
    Undecided(At),
    /// The rule that decides the line has a group `TIME`, which did not match or whose text is not a
    /// time.
    BadTime(At),
    /// The line's type text has more than 256 bytes.
    TypeTooLong(At),
    /// The line's trace text has more than 1,024 bytes.
    TraceTooLong(At),
    /// The line's type would be the 257th.
    TypeLimit(At),
    /// The line's event would be the 1,000,001st.
    EventLimit(At),
    /// All inputs together have more than 268,435,456 bytes.
    InputLimit,
    /// Memory ran out.
    Memory,
}

impl From<AllocError> for ReadError {
    ghost from_gives = { λ _ e. e ≡ Memory };

    fn from(_: AllocError) -> ReadError {
        ReadError::Memory
    }
}
