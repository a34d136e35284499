//! Whether the paths of all blocks are known to fit, without a search for any of them.
ghost use Rattle.std.specs.Prelude.{◌≡◌, ◌≤◌, ◌+◌, ◌*◌, List, true};
ghost use Rattle.std.specs.Bool.{OnTrue};
ghost use Rattle.limits.specs.declared.TheConstants.{MAX_PATH_NUMBERS};
ghost use Rattle.invariants.specs.declared.Invariant.{Invariant};
ghost use Rattle.invariants.specs.declared.records.Block.{Block};
ghost use Rattle.partition_bounds.specs.Pairs.{longest_path, pair_of};
ghost use Rattle.model_shape.specs.Numbers.{block_numbers};
ghost use Rattle.coarsener.specs.Blocking.{pair_count, EndsWithoutRoom};
ghost use Rattle.coarsener.specs.Fitting.{most_ids, most_in_all};
ghost use Rattle.coarsener.specs.Pairs.{HasIds};

use crate::pairs::{Pair, next_pair};
use crate::ranks::{falls_of, number_at, rank_all};
use limits::{MAX_PARTITIONS, MAX_PATH_NUMBERS, TERMINAL};
use partition_graph::PartGraph;

/// The most ids that a path of a block has in any graph.
const LONGEST_PATH: usize = 3 * MAX_PARTITIONS as usize - 5;

/// What is known of a graph.
#[derive(Clone, Copy)]
enum Known<'a> {
    /// Nothing.
    Nothing,
    /// A rank for each id, and how much has to be added to the ranks in total so that each edge leads to a higher number.
    Ranks(&'a [u32], usize),
}

/// How many ids the path of the block of a pair has at most.
fn most_ids(known: Known<'_>, pair: Pair) -> usize
    ensures { result ≡ most_ids known.entry (pair_of pair.p pair.q) }
{
    let Known::Ranks(ranks, falls) = known else {
        return LONGEST_PATH;
    };
    let p = number_at(ranks, pair.p) as usize;
    let q = number_at(ranks, pair.q) as usize;
    let end = number_at(ranks, TERMINAL) as usize;
    let falls = falls.min(LONGEST_PATH) + (p.max(q) - p.min(q));
    LONGEST_PATH.min(end + 1 + 3 * falls)
}

/// How many ids the paths of the blocks of all pairs have together at most.
fn most_in_all(graph: &PartGraph, known: Known<'_>) -> usize
    ensures value { result ≡ most_in_all known.entry graph.now }
    ensures ids { HasIds graph.now }
{
    let mut most = 0;
    let mut at = Pair::start();
    while let Some(pair) = next_pair(graph, at) {
        most += most_ids(known, pair);
        at = pair;
    }
    most
}

/// Whether the paths of the blocks of this graph are known to fit beside `held` ids: then the first blocks, with the
/// paths of `held` ids before them, never have more than `MAX_PATH_NUMBERS` ids in total. It is true at least where this
/// limit allows each path to be as long as any graph can make it. `false` says nothing. It searches for no path, counts
/// no step and allocates nothing.
pub fn blocks_fit(graph: &PartGraph, held: usize) -> bool
    ensures fit { OnTrue result ((invs : List Invariant) (blocks : List Block)
        → EndsWithoutRoom invs graph.now blocks (held + block_numbers blocks) → ⊥) }
    ensures few { held + pair_count graph.now * longest_path ≤ MAX_PATH_NUMBERS → result ≡ true }
{
    if held > MAX_PATH_NUMBERS as usize {
        return false;
    }
    let room = MAX_PATH_NUMBERS as usize - held;
    if most_in_all(graph, Known::Nothing) <= room {
        return true;
    }
    let ranks = rank_all(graph);
    let falls = falls_of(graph, &ranks);
    most_in_all(graph, Known::Ranks(&ranks, falls)) <= room
}
