//! The invariants that hold of every trace, mined a second way: by sets of the types that occur later and earlier, not
//! by counts.
//!
//! A candidate stands until a trace breaks it. Each trace is read once from its end, with the set of the types that
//! occur later, and once from its start, with the set of those that occurred earlier. Each event strikes out the
//! candidates of its type that the current set rules out. A set has one bit for each type, in half a word for up to 64
//! types, in one word for up to 128, and in two words for more, so each event takes a few steps. Every 128 events, the
//! miner tests whether the remaining events of the trace can still strike out anything. If not, it stops reading the
//! trace from that side.
//!
//! If InterruptedBy is asked for, each trace is read once more from its end, with the place of the next event of each
//! type. Each event whose type occurs again strikes out of the row of that type the types that do not occur before its
//! next event, many types at once. When all traces are read, each candidate is tested once.
#![tactic(auto)]

ghost use Rattle.std.specs.Prelude.{◌≡◌, ◌≤◌, length, IfOk};
ghost use Rattle.closure_miner.specs.declared.type_sets.TheConstants.{MAX_SET_TYPES};
ghost use Rattle.invariants.specs.Mined.{mined_for};
ghost use Rattle.traces.specs.Words.{words_of};
ghost use Rattle.closure_miner.specs.Standing.{Stands};

mod between;
mod standing;
mod striking;
mod type_sets;

use invariants::{Invariant, Kinds, Seq};
use standing::Standing;
use std::alloc::{AllocError, Global};
use traces::TraceSet;
use type_sets::{HALF_TYPES, MAX_SET_TYPES, TypeSet, WORD_TYPES, Wide};

/// The candidates that stand when all traces are read.
fn standing_after<S: TypeSet>(
    alloc: Global,
    kinds: Kinds,
    traces: &TraceSet,
    types: usize,
) -> Result<Standing<S>, AllocError>
    requires types { types ≡ length (traces.now).types }
    requires few { types ≤ MAX_SET_TYPES }
    requires room { types ≤ S.room }
    ensures kinds { IfOk result (λ standing. standing.kinds ≡ kinds) }
    ensures types { IfOk result (λ standing. standing.types ≡ types) }
    ensures stands { IfOk result (λ standing. Stands S.has standing (words_of traces.now)) }
{
    // No trace has more events than all of them.
    let _event_count = traces.event_count();
    let mut standing = Standing::make(alloc, kinds, types)?;
    for t in 0..traces.trace_count() {
        standing.read(traces.events(t));
    }
    Ok(standing)
}

/// The invariants of these kinds that hold of every trace, by sets that have room for all types.
fn mine_by<S: TypeSet>(
    alloc: Global,
    kinds: Kinds,
    traces: &TraceSet,
    types: usize,
) -> Result<Seq<Invariant>, AllocError>
    requires types { types ≡ length (traces.now).types }
    requires few { types ≤ MAX_SET_TYPES }
    requires room { types ≤ S.room }
    ensures { IfOk result (λ list. list ≡ mined_for kinds (length (traces.now).types) (words_of traces.now)) }
{
    let standing: Standing<S> = standing_after(alloc, kinds, traces, types)?;
    let mut mined = Vec::new(alloc);
    let pushed = standing.push_all(&mut mined);
    drop(standing);
    pushed?;
    Ok(Seq::from_vec(mined))
}

/// The invariants of these kinds that hold of every trace, in the order of the candidates. `AllocError` is returned if
/// there is not enough memory for them or for the sets.
pub fn mine_again(
    alloc: Global,
    kinds: Kinds,
    traces: &TraceSet,
) -> Result<Seq<Invariant>, AllocError>
    ensures { IfOk result (λ list. list ≡ mined_for kinds (length (traces.now).types) (words_of traces.now)) }
{
    let types = traces.types().len();
    if types <= HALF_TYPES {
        mine_by::<u64>(alloc, kinds, traces, types)
    } else if types <= WORD_TYPES {
        mine_by::<u128>(alloc, kinds, traces, types)
    } else {
        mine_by::<Wide>(alloc, kinds, traces, types)
    }
}
