//! The log of a made text.

use crate::formats::notation::number_of;
use crate::formats::said::write_log;
use limits::MAX_SESSIONS;
use made_logs::read_made_log;
use std::alloc::{AllocError, Global};

/// Reports what the made log has. The argument is the number of sessions, at least one.
pub fn run(alloc: Global, words: &str, out: &mut String) -> Result<(), AllocError> {
    let (count, _) = number_of(words);
    let sessions = u32::try_from(count).unwrap_or(1).clamp(1, MAX_SESSIONS);
    let log = read_made_log(alloc, sessions)?;
    write_log(out, &log)
}
