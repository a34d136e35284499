//! What is to be written, or why nothing is.

use crate::ending::Ending;
use invariants::Seq;
use log_reader::ReadError;

/// What is to be written for a log.
#[derive(Drop)]
pub struct Answer {
    /// How the run ends once it is written.
    pub ending: Ending,
    /// The text that is written to the output.
    pub text: Seq<u8>,
}

/// Why there is no answer.
#[derive(Clone, Copy)]
pub enum Halt {
    /// The log is refused.
    Read(ReadError),
    /// Memory ran out after the log was read.
    Memory,
}
