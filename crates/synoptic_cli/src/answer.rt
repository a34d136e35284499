//! The answer of a command.
ghost use Rattle.std.specs.Prelude.{◌≡◌};
ghost use Rattle.synoptic_cli.specs.declared.answer.NoAnswer.TheVariants.{Memory};

use crate::status::{LimitKind, Status};
use invariants::Seq;
use std::alloc::AllocError;

/// A command's answer.
#[derive(Drop)]
pub struct Answer {
    /// The status that the run ends with, once the text is written.
    pub status: Status,
    /// The text that is written to the output.
    pub text: Seq<u8>,
}

/// Why a command has no answer.
#[derive(Clone, Copy)]
pub enum NoAnswer {
    /// A quantity exceeds its limit.
    Limit(LimitKind),
    /// Out of memory.
    Memory,
}

impl From<AllocError> for NoAnswer {
    ghost from_gives = { λ _ e. e ≡ Memory };

    fn from(_: AllocError) -> NoAnswer {
        NoAnswer::Memory
    }
}
