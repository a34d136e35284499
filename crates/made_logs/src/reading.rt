//! Reads a made log.
ghost use Rattle.std.specs.Prelude.{◌≡◌, ◌≤◌, IfOk};
ghost use Rattle.limits.specs.declared.TheConstants.{MAX_SESSIONS};
ghost use Rattle.made_logs.specs.MadeLogs.{made_log};

use crate::law::made_logs_are_decided;
use crate::text_input::TextInput;
use load_maker::make_log;
use log_reader::{Form, ReadError, read_log};
use std::alloc::{AllocError, Global};
use traces::TraceSet;

/// The types and the traces of the made log of `n` sessions, from 1 to `MAX_SESSIONS`. Its text is
/// made, and read in the plain form from memory.
///
/// The only error is that memory runs out: no read can fail, nothing in the log is refused, and it
/// is within every limit.
pub fn read_made_log(alloc: Global, n: u32) -> Result<TraceSet, AllocError>
    requires some { 1 ≤ n }
    requires few { n ≤ MAX_SESSIONS }
    ensures { IfOk result (λ log. log ≡ made_log n) }
{
    made_logs_are_decided();
    let mut input = TextInput::new(make_log(alloc, n)?);
    match read_log(alloc, &mut input, &[], Form::Plain, false, false) {
        Ok(log) => Ok(log),
        Err(ReadError::Memory) => Err(AllocError),
        Err(_) => unreachable!(),
    }
}
