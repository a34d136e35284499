//! What inference needs beside a graph and invariants.
ghost use Rattle.std.specs.Prelude.{◌≡◌, ◌≤◌, ℕ, [], IfOk, Ok, Some, length, slice_get};
ghost use Rattle.limits.specs.declared.TheConstants.{LAST_TYPE, MAX_INVARIANTS, MAX_PAIRS, MAX_PATH_NUMBERS, MAX_STEPS};
ghost use Rattle.partition_model.specs.Assignments.{events};

use cell_pool::{RunLog, Spans};
use invariants::Invariant;
use labelling::Planes;
use limits::{MAX_PAIRS, MAX_PATH_NUMBERS, MAX_STEPS};
use partition_graph::PartGraph;
use path_finder::Finder;
use splitter::Stitcher;
use std::alloc::{AllocError, Global};

/// Both values, or `AllocError` if either is an error. A value that was made beside an error is dropped here, once for
/// all callers.
pub fn both<A: Drop, B: Drop>(
    first: Result<A, AllocError>,
    second: Result<B, AllocError>,
) -> Result<(A, B), AllocError>
    ensures first { IfOk result (λ pair. first ≡ Ok pair.0) }
    ensures second { IfOk result (λ pair. second ≡ Ok pair.1) }
{
    match (first, second) {
        (Ok(first), Ok(second)) => Ok((first, second)),
        _ => Err(AllocError),
    }
}

/// What finds paths, follows traces and keeps labels, and what a run writes to.
#[derive(Drop)]
pub struct Tools {
    pub finder: Finder,
    pub stitcher: Stitcher,
    pub planes: Planes,
    /// The paths of splits and blocks.
    pub spans: Spans,
    /// The splits, merges and blocks.
    pub run_log: RunLog,
}

impl Tools {
    /// The tools for this graph and these invariants, with room for all that inference can write. `AllocError` is
    /// returned if there is not enough memory.
    pub fn make(alloc: Global, graph: &PartGraph, invs: &[Invariant]) -> Result<Tools, AllocError>
        requires few { length invs.now ≤ MAX_INVARIANTS }
        requires named { (k : ℕ) (inv : Invariant) → slice_get invs.now k ≡ Some inv
            → (inv.a ≤ LAST_TYPE) × (inv.b ≤ LAST_TYPE) }

        // What the tools are made for.
        ensures stitcher { IfOk result
            (λ tools. tools.stitcher ≡ length (events (graph.now).traces)) }
        ensures planes { IfOk result (λ tools. tools.planes.invs ≡ invs.now) }

        // Nothing is written yet, and there is room for all that may be.
        ensures spans { IfOk result
            (λ tools. tools.spans ≡ record { numbers = []; room = MAX_PATH_NUMBERS }) }
        ensures run_log { IfOk result (λ tools. tools.run_log ≡ record {
          splits = [];
          merges = [];
          blocks = [];
          split_room = MAX_STEPS;
          merge_room = MAX_STEPS;
          block_room = MAX_PAIRS;
        }) }
    {
        let finds = both(Finder::make(alloc), Stitcher::make(alloc, graph));
        let spans = Spans::make(alloc, MAX_PATH_NUMBERS);
        let run_log = RunLog::make(alloc, MAX_STEPS, MAX_STEPS, MAX_PAIRS);
        let writes = both(spans, run_log);
        let keeps = both(Planes::make(alloc, invs), writes);
        let ((finder, stitcher), (planes, (spans, run_log))) = both(finds, keeps)?;
        Ok(Tools {
            finder,
            stitcher,
            planes,
            spans,
            run_log,
        })
    }
}
