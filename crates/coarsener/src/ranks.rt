//! Ranks of the ids of a graph: numbers that rise along most edges, and how far they fall along the others.
ghost use Rattle.std.specs.Prelude.{◌≡◌, ◌≤◌, ◌^◌, slice_index};
ghost use Rattle.partition_model.specs.Assignments.{G};
ghost use Rattle.coarsener.specs.Fitting.{fall_to, falls_of};

use limits::{FIRST_TYPE, MAX_PARTITIONS};
use partition_graph::{PartGraph, View};

/// How many ranks there are: one for each id.
const IDS: usize = MAX_PARTITIONS as usize;

/// What stands for the count of missing sources of an id that has its rank.
const RANKED: u32 = u32::MAX;

/// The ranks that are found so far. An id without sources has rank 0. Another id gets its rank once all its sources have theirs:
/// one more than the greatest of these. If only ids on cycles and behind them are left, one of them gets its rank earlier, from
/// the sources that have theirs.
#[derive(Drop)]
struct Ranking {
    /// The rank of each id, as far as its sources have theirs.
    ranks: [u32; IDS],
    /// How many sources of each id do not have their rank yet, or `RANKED`.
    missing: [u32; IDS],
    /// The ids that have their rank, in the order in which they got it.
    ranked: [u32; IDS],
    /// How many ids have their rank.
    count: u32,
}

/// The number for p in a list; 0 if it has none.
pub(crate) fn number_at(numbers: &[u32], p: u32) -> u32
    ensures { result ≡ slice_index numbers.now p }
{
    match numbers.get(p as usize) {
        Some(number) => *number,
        None => 0,
    }
}

/// Writes the number for p; nothing if the list has no place for it.
fn put(numbers: &mut [u32], p: u32, number: u32) {
    if let Some(place) = numbers.get_mut(p as usize) {
        *place = number;
    }
}

impl Ranking {
    /// Nothing is found yet, and no source is counted.
    fn new() -> Ranking {
        Ranking {
            ranks: [0; IDS],
            missing: [0; IDS],
            ranked: [0; IDS],
            count: 0,
        }
    }

    /// Counts p as a source of the ids to which it has an edge.
    fn count_source(&mut self, graph: &PartGraph, p: u32) {
        let mut reached = 0;
        while let Some(to) = View::Plain(graph).next_target(p, reached) {
            let missing = number_at(&self.missing, to).saturating_add(1);
            put(&mut self.missing, to, missing);
            reached = to + 1;
        }
    }

    /// Notes that p has its rank.
    fn note(&mut self, p: u32) {
        put(&mut self.missing, p, RANKED);
        put(&mut self.ranked, self.count, p);
        self.count = self.count.saturating_add(1);
    }

    /// Counts all sources, and notes the ids that have none.
    fn begin(&mut self, graph: &PartGraph) {
        for p in 0..graph.ids_used() {
            self.count_source(graph, p);
        }
        for p in 0..graph.ids_used() {
            if number_at(&self.missing, p) == 0 {
                self.note(p);
            }
        }
    }

    /// Raises p to at least this rank, for a source of it that has its rank, and notes p if that was the last one. Nothing
    /// changes if p has its rank.
    fn raise(&mut self, p: u32, rank: u32) {
        let missing = number_at(&self.missing, p);
        if missing == RANKED {
            return;
        }
        let rank = rank.max(number_at(&self.ranks, p));
        put(&mut self.ranks, p, rank);
        put(&mut self.missing, p, missing.saturating_sub(1));
        if missing <= 1 {
            self.note(p);
        }
    }

    /// Raises the ids to which p has an edge. p has its rank.
    fn pass_on(&mut self, graph: &PartGraph, p: u32) {
        let next = number_at(&self.ranks, p).saturating_add(1);
        let mut reached = 0;
        while let Some(to) = View::Plain(graph).next_target(p, reached) {
            self.raise(to, next);
            reached = to + 1;
        }
    }

    /// Notes the first id, other than TERMINAL, that has no rank yet, but a source that has one. Such an id is on a cycle or behind
    /// one.
    fn open_cycle(&mut self, used: u32) {
        for p in FIRST_TYPE..used {
            if number_at(&self.missing, p) < RANKED && number_at(&self.ranks, p) > 0 {
                self.note(p);
                return;
            }
        }
    }
}

/// A rank for each id. If the graph has no cycle, it is the most edges that lead to the id, one after another, and so it rises
/// along each edge. Each edge is followed twice at most.
pub(crate) fn rank_all(graph: &PartGraph) -> [u32; IDS] {
    let used = graph.ids_used();
    let mut ranking = Ranking::new();
    ranking.begin(graph);
    for place in 0..used {
        if place >= ranking.count {
            ranking.open_cycle(used);
        }
        if place < ranking.count {
            let p = number_at(&ranking.ranked, place);
            ranking.pass_on(graph, p);
        }
    }
    ranking.ranks
}

/// How much has to be added to the rank of p so that each edge to p leads to a higher number.
fn fall_to(graph: &PartGraph, ranks: &[u32], p: u32) -> usize
    ensures value { result ≡ fall_to ranks.now (G (graph.now).traces) p (graph.now).used }
    ensures within { result ≤ 2 ^ 32 }
{
    let own = number_at(ranks, p) as usize;
    let mut fall = 0usize;
    let mut reached = 0;
    while let Some(from) = View::Plain(graph).next_source(p, reached) {
        let rank = number_at(ranks, from) as usize;
        fall = fall.max((rank + 1).saturating_sub(own));
        reached = from + 1;
    }
    fall
}

/// How much has to be added to the ranks of all ids, in total, so that each edge leads to a higher number. It is 0 exactly if
/// the ranks rise along each edge.
pub(crate) fn falls_of(graph: &PartGraph, ranks: &[u32]) -> usize
    ensures { result ≡ falls_of ranks.now graph.now }
{
    let mut falls = 0;
    for p in 0..graph.ids_used() {
        falls += fall_to(graph, ranks, p);
    }
    falls
}
