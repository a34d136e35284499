//! The paths that traces take, each once and counted.
ghost use Rattle.std.specs.Prelude.{◌≡◌, ◌+◌, ◌-◌, ◌^◌, ◌<◌, OnOk, IfOk, length, map};
ghost use Rattle.traces.specs.Words.{event_count_of};
ghost use Rattle.reports.specs.Paths.{paths_of, shown, taken, total, trace_path, with_path, AreIdsOf};

use crate::lists::IdLists;
use std::alloc::{AllocError, Global};
use traces::TraceSet;

/// A path that traces take.
#[derive(Clone, Copy)]
pub struct TakenPath<'a> {
    /// The types of its events, as numbers, in the first trace that takes it.
    pub types: &'a [u16],
    /// The ids of their partitions.
    pub ids: &'a [u32],
    /// How many traces take it.
    pub count: u32,
}

/// Counts one more trace that takes a path: with those of the same ids, or else as the first of a new path at the end.
/// The lists of ids of the paths stand in `lists`, in the same order.
fn note<'a>(
    lists: &mut IdLists<'a>,
    paths: &mut Vec<TakenPath<'a>>,
    types: &'a [u16],
    ids: &'a [u32],
) -> Result<(), AllocError>
    requires lists { AreIdsOf lists.old paths.old.items }
    requires few { length lists.old < 2 ^ 32 - 1 }
    requires count { total (map shown paths.old.items) + 1 < 2 ^ 32 }
    ensures lists { OnOk result (AreIdsOf lists.new paths.new.items) }
    ensures noted { OnOk result (map shown paths.new.items
        ≡ with_path (map shown paths.old.items) (trace_path types.now ids.now)) }
{
    let place = lists.place_or_put(ids)?;
    if place == paths.len() {
        paths.push(TakenPath {
            types,
            ids,
            count: 1,
        })?;
        return Ok(());
    }
    paths[place].count += 1;
    Ok(())
}

/// The paths that the traces take, in the order first met, where `parts` has the ids of all events, trace after trace.
pub fn taken_paths<'a>(
    alloc: Global,
    traces: &'a TraceSet,
    parts: &'a [u32],
) -> Result<Vec<TakenPath<'a>>, AllocError>
    requires { length parts.now ≡ event_count_of (traces.now).traces }
    ensures { IfOk result (λ paths. map shown paths.items
        ≡ taken (paths_of (traces.now).traces parts.now)) }
{
    let mut lists = IdLists::for_count(alloc, traces.trace_count())?;
    let mut paths = Vec::new(alloc);
    let mut rest = parts;
    for t in 0..traces.trace_count() {
        let types = traces.events(t);
        let (ids, others) = rest.split_at(types.len());
        note(&mut lists, &mut paths, types, ids)?;
        rest = others;
    }
    Ok(paths)
}
