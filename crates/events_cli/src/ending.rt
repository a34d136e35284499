//! How a run ends.
ghost use Rattle.std.specs.Prelude.{◌≡◌};
ghost use Rattle.events_cli.specs.Messages.{code_of};

use log_reader::At;
use synoptic_cli::Status;

/// Why this log is not written in the plain form.
#[derive(Clone, Copy, Debug, PartialEq, Eq)]
pub enum PlainFault {
    /// The type of the event on this line ends in a carriage return, or has a line feed.
    Kind(At),
    /// The time of the event on this line is before that of an event of its trace on an earlier line.
    Time(At),
}

/// How a run ends. The contract of `run` states when each is returned.
#[derive(Clone, Copy, Debug, PartialEq, Eq)]
pub enum Ending {
    /// The whole output was written.
    Done,
    /// The lines that no rule decides were written. This is their number.
    Undecided(u64),
    /// The log cannot be written in the plain form, for this reason.
    NoPlain(PlainFault),
    /// The output could not be written.
    WriteFault,
    /// `synoptic` ends with this status too.
    Refused(Status),
}

impl Ending {
    /// The exit status of the process, from 0 to 8. 0 is `Done` or `Undecided`, 4 is `NoPlain`, 7 is `WriteFault`, and the
    /// others are as in `synoptic`.
    pub fn code(&self) -> u8
        ensures { result ≡ code_of self.now }
    {
        match self {
            Ending::Done => 0,
            Ending::Undecided(_) => 0,
            Ending::NoPlain(_) => 4,
            Ending::WriteFault => 7,
            Ending::Refused(status) => status.code(),
        }
    }
}
