//! The calls that a session makes.
ghost use Rattle.std.specs.Prelude.{◌≡◌};
ghost use Rattle.load_maker.specs.Sessions.{call_of, is_write, word_of};

/// A call that a session makes on its file.
#[derive(Clone, Copy)]
pub enum Call {
    /// It begins the session.
    Open,
    /// It reads.
    Read,
    /// It writes.
    Write,
    /// It moves to another place.
    Seek,
    /// It puts what was written on the disk.
    Sync,
    /// It ends the session.
    Close,
}

impl Call {
    /// The call that a draw below 3 gives.
    pub fn of_draw(draw: u16) -> Call
        ensures { result ≡ call_of draw }
    {
        match draw {
            0 => Call::Read,
            1 => Call::Write,
            _ => Call::Seek,
        }
    }

    /// The text of the call in a log.
    pub fn word(self) -> &'static str
        ensures { result.now ≡ word_of self }
    {
        match self {
            Call::Open => "open",
            Call::Read => "read",
            Call::Write => "write",
            Call::Seek => "seek",
            Call::Sync => "sync",
            Call::Close => "close",
        }
    }

    /// Whether the call writes.
    pub fn is_write(self) -> bool
        ensures { result ≡ is_write self }
    {
        matches!(self, Call::Write)
    }
}
