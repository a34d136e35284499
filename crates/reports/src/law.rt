//! A law about the definitions, as the contract of a function with an empty body.
ghost use Rattle.reports.specs.Paths.{PathsTell};

/// The counts of the lines add up to the number of traces, and the path of each trace has exactly one line. If events of one id
/// have one type, as in a graph, all traces of a line go through the same types.
pub fn paths_tell()
    ensures { PathsTell }
{}
