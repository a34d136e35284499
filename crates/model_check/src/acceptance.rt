//! The words of a log. Each must be the word of a path of the model's graph.
ghost use Rattle.std.specs.Prelude.{◌≡◌, MatchOption};
ghost use Rattle.std.specs.List.{AllByRecursion};
ghost use Rattle.limits.specs.declared.TheConstants.{INITIAL};
ghost use Rattle.models.specs.Checks.{IsFirstFailure};
ghost use Rattle.model_check.specs.Rows.{shown};
ghost use Rattle.model_check.specs.Verdicts.{inner_words_of, HasPathFor};

use crate::graph::ModelGraph;
use traces::TraceSet;

/// The number of the first trace whose word is not the word of a path; `None` if each is. The graph keeps its value.
pub fn first_refused(graph: &mut ModelGraph, traces: &TraceSet) -> Option<u32>
    requires { (shown graph.old).typ INITIAL ≡ INITIAL }
    ensures first { MatchOption result
        (AllByRecursion (HasPathFor (shown graph.old)) (inner_words_of traces.now))
        (IsFirstFailure (HasPathFor (shown graph.old)) (inner_words_of traces.now)) }
    ensures stays { shown graph.new ≡ shown graph.old }
{
    // No log has more types than there are rows for.
    let _types = traces.types();
    for t in 0..traces.trace_count() {
        if !graph.accepts(traces.events(t)) {
            return Some(t);
        }
    }
    None
}
