//! Laws of how inference ends, and of what it begins with.
ghost use Rattle.invariants.specs.declared.Kinds.{Kinds};
ghost use Rattle.models.specs.Laws.{IsTypedLog};
ghost use Rattle.models.specs.Limits.{IsWithinLimits};
ghost use Rattle.infer_core.specs.Laws.{EndsExclude, OneFinal};
ghost use Rattle.models.specs.Models.{typed_words};

use partition_graph::set_is_typed;
use traces::TraceSet;

/// If a model of a log keeps the limits, inference of the log exceeds none of them. No log exceeds both.
pub fn ends_exclude()
    ensures { EndsExclude }
{}

/// The final ids of the events of a log are unique.
pub fn one_final()
    ensures { OneFinal }
{}

/// The words of each set of traces use exactly its types, and are within the limits of a log, whichever kinds of
/// invariants are asked for.
pub fn log_is_typed(traces: &TraceSet)
    ensures typed { (kinds : Kinds) → IsTypedLog (typed_words kinds traces.now) }
    ensures within { (kinds : Kinds) → IsWithinLimits (typed_words kinds traces.now) }
{
    set_is_typed(traces);
    traces.types();
    traces.trace_count();
    traces.event_count();
}
