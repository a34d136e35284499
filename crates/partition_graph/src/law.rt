//! Laws of the first assignment.
ghost use Rattle.partition_graph.specs.Parts.{start_of};
ghost use Rattle.partition_graph.specs.Starts.{AreTypedParts, StartsAreTyped};

use traces::TraceSet;

/// In the first assignment of a log each event has the number of a type, and each type's number is that of some event.
pub fn starts_are_typed()
    ensures { StartsAreTyped }
{}

/// The same holds for the first assignment of each set of traces, wherever it comes from.
pub fn set_is_typed(traces: &TraceSet)
    ensures { AreTypedParts (start_of traces.now) }
{
    traces.types();
}
