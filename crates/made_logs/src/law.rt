//! A law of the definitions, as the contract of a function that does nothing.
ghost use Rattle.made_logs.specs.MadeLogs.{MadeLogsAreDecided};

/// Each log that can be made, read in the plain form, has no first refusal: each of its lines is
/// decided, with one event for each call, and each session is one trace. It is within every limit:
/// it has at most 7 events and 84 bytes a session, and at most 6 types.
pub fn made_logs_are_decided()
    ensures { MadeLogsAreDecided }
{}
