//! Laws of what refinement begins with.
ghost use Rattle.partition_graph.specs.Parts.{start_of};
ghost use Rattle.splitter.specs.Refining.{IsOpened, MinedHold};

use partition_graph::set_is_typed;
use traces::TraceSet;

/// The invariants that are mined from a log hold of each word of its first graph.
pub fn mined_hold()
    ensures { MinedHold }
{}

/// Refinement may begin with the first graph of each set of traces.
pub fn start_is_opened(traces: &TraceSet)
    ensures { IsOpened (start_of traces.now) }
{
    set_is_typed(traces);
}
