//! Types that take in the lines of a log.
ghost use Rattle.std.specs.Prelude.{◌≡◌, ◌<◌, ◌-◌, ◌^◌, IfErr, OnOk, length, take, true};
ghost use Rattle.std.specs.Str.{IsAscii};
ghost use Rattle.log_reader.specs.Taking.{EndsFile, RefusesLineOf, Taker, TakesLineOf, taker};

use crate::reader::LogReader;
use crate::refusal::{At, ReadError};
use std::alloc::Global;

/// A type that takes in the lines of a log, one by one.
///
/// Contracts see whether it may be given a line, its setting, how many separators stand before the next line, and which lines it
/// has taken in. It refuses a line within the limits on lines and input exactly as `read_log` does, or because memory ran out.
pub trait TakeLines {
    ghost seen: { Self → Taker };

    /// Takes in the line at this place, which may be known to be ASCII and with which these bytes begin.
    fn take_line(
        &mut self,
        alloc: Global,
        at: At,
        line: &[u8],
        bytes: &[u8],
        ascii: bool,
    ) -> Result<(), ReadError>
        requires ascii { ascii ≡ true → IsAscii line.now }
        requires begins { take (length line.now) bytes.now ≡ line.now }
        requires ready { (seen self.old).ready }
        requires room { (seen self.old).section < 2 ^ 32 - 1 }

        // The line is taken in, or the error gives the cause.
        ensures ok { OnOk result (TakesLineOf at line.now (seen self.old) (seen self.new)) }
        ensures err { IfErr result (RefusesLineOf at line.now (seen self.old)) };

    /// Ends a file. The sections of the next one are counted from 0 again, unless files are joined.
    fn end_file(&mut self)
        ensures { EndsFile (seen self.old) (seen self.new) };
}

impl<'r> TakeLines for LogReader<'r> {
    ghost seen = { taker };

    #[inline(always)]
    fn take_line(
        &mut self,
        alloc: Global,
        at: At,
        line: &[u8],
        bytes: &[u8],
        ascii: bool,
    ) -> Result<(), ReadError> {
        match self.read_line(alloc, at, line, bytes, ascii) {
            Ok(_) => Ok(()),
            Err(error) => Err(error),
        }
    }

    fn end_file(&mut self) {
        self.start_file();
    }
}
