//! The splits, merges and blocks of a run's log, as the records of a model. Each split and each block has a copy of its
//! path.
#![tactic(auto)]

ghost use Rattle.std.specs.Prelude.{◌≡◌, IfOk};
ghost use Rattle.run_history.specs.Records.{path_of, splits_of, merges_of, blocks_of, IsWithin, HoldsPaths};

use cell_pool::{RunLog, Span, Spans};
use invariants::{Block, Ids, Merge, Seq, Split};
use std::alloc::{AllocError, Global};

/// A copy of the numbers of the span. The span must lie within the numbers that were pushed.
fn copy_of(alloc: Global, spans: &Spans, span: Span) -> Result<Ids, AllocError>
    requires { IsWithin (spans.now).numbers span }
    ensures { IfOk result (λ path. path ≡ path_of (spans.now).numbers span) }
{
    let path = spans.get(span).to_vec(alloc)?;
    Ok(Ids::from_vec(path))
}

/// The splits of the run's log, in their order, each with its path. `spans` must hold the log's paths. `AllocError` is
/// returned if there is not enough memory for the list and the paths.
pub fn splits(alloc: Global, run_log: &RunLog, spans: &Spans) -> Result<Seq<Split>, AllocError>
    requires { HoldsPaths run_log.now spans.now }
    ensures { IfOk result (λ list. list ≡ splits_of run_log.now spans.now) }
{
    let entries = run_log.splits();
    let mut list = Vec::with_capacity(alloc, entries.len())?;
    for split in entries {
        list.push_reserved(Split {
            inv: split.inv,
            place: split.place,
            path: copy_of(alloc, spans, split.path)?,
        });
    }
    Ok(Seq::from_vec(list))
}

/// The merges of the run's log, in their order. `AllocError` is returned if there is not enough memory for the list.
pub fn merges(alloc: Global, run_log: &RunLog) -> Result<Seq<Merge>, AllocError>
    ensures { IfOk result (λ list. list ≡ merges_of run_log.now) }
{
    let entries = run_log.merges();
    let mut list = Vec::with_capacity(alloc, entries.len())?;
    for merge in entries {
        list.push_reserved(Merge {
            p: merge.p,
            q: merge.q,
        });
    }
    Ok(Seq::from_vec(list))
}

/// The blocks of the run's log, in their order, each with its path. `spans` must hold the log's paths. `AllocError` is
/// returned if there is not enough memory for the list and the paths.
pub fn blocks(alloc: Global, run_log: &RunLog, spans: &Spans) -> Result<Seq<Block>, AllocError>
    requires { HoldsPaths run_log.now spans.now }
    ensures { IfOk result (λ list. list ≡ blocks_of run_log.now spans.now) }
{
    let entries = run_log.blocks();
    let mut list = Vec::with_capacity(alloc, entries.len())?;
    for block in entries {
        list.push_reserved(Block {
            p: block.p,
            q: block.q,
            inv: block.inv,
            path: copy_of(alloc, spans, block.path)?,
        });
    }
    Ok(Seq::from_vec(list))
}
