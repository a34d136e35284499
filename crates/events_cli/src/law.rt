//! Laws about the definitions.
ghost use Rattle.events_cli.specs.Laws.{PlainKeepsTheWords};
ghost use Rattle.events_cli.specs.Runs.{RunsAreAlike};
ghost use Rattle.events_cli.specs.Samples.{ArgumentsTell, SmallLogsTell};

/// What `--plain` writes, read in the plain form, has the types and the words of the log that was read. So the invariants of
/// the two logs are the same, and so are their models.
pub fn plain_keeps_the_words()
    ensures { PlainKeepsTheWords }
{}

/// If files are known, the arguments and the files have one answer. Two runs with the same arguments over the same files that
/// end with `Done`, `Undecided` or `NoPlain` have the same ending, with the same number or fault, and write the same text.
pub fn runs_are_alike()
    ensures { RunsAreAlike }
{}

/// Which mode each argument gives, and the arguments with which `synoptic graph` would read the log.
pub fn arguments_tell()
    ensures { ArgumentsTell }
{}

/// What is written for small logs in each mode, byte by byte.
pub fn small_logs_tell()
    ensures { SmallLogsTell }
{}
