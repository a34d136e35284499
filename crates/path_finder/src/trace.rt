//! The path forwards: from the start along the least ids to TERMINAL.
ghost use Rattle.std.specs.Prelude.{◌≡◌, ℕ, ◌≤◌, ◌<◌, ◌+◌, ◌⊎◌, length, slice_get, IfSome, Some, true, vec_capacity};
ghost use Rattle.partition_graph.specs.declared.id_rows.TheConstants.{ID_WORDS};
ghost use Rattle.path_finder.specs.declared.pair.Pair.{Pair};
ghost use Rattle.path_finder.specs.declared.table.Entry.{Entry};
ghost use Rattle.path_finder.specs.Asking.{asked, looks_at};
ghost use Rattle.path_finder.specs.PairSets.{IsAmong};
ghost use Rattle.path_finder.specs.Walks.{state_at, IsLeastOf, IsPairOf, Leads};
ghost use Rattle.path_finder.specs.Tables.{at, part_of, IsKnown, IsListed, IsMeasured};
ghost use Rattle.path_finder.specs.Tables.{IsNextPair, IsOnlyPair, IsSplitAt};

use crate::pair::Pair;
use crate::question::Question;
use crate::table::{Entry, MAX_ENTRIES, OPEN, Table};
use crate::words::{next_in_word, without_lowest};
use limits::INITIAL;
use partition_graph::WORD_BITS;

/// The first of the pairs of the entry to which `pair` leads, in the order of their ids; or `other`, if that has no
/// greater id or `pair` leads to none of them.
fn nearest(question: &Question<'_, '_>, pair: Pair, entry: Entry, other: Pair) -> Pair
    requires looked { looks_at question.now pair.id ≡ true }
    requires pair { pair.state < 3 }
    requires place { entry.place < ID_WORDS }
    ensures found { (result ≡ other) ⊎ (IsAmong (part_of entry) result × Leads (asked question.now) pair result) }
    ensures lower { result.id ≤ other.id }
    ensures least { (r : Pair) → IsAmong (part_of entry) r → Leads (asked question.now) pair r
        → result.id ≤ r.id }
{
    let place = entry.place as usize;
    let from = place * WORD_BITS;
    let mut rest = question.target_word(pair.id, place) & entry.word;
    while let Some(at) = next_in_word(rest, from) {
        let id = at as u32;
        if id >= other.id {
            return other;
        }
        if question.state_at(pair.state, id) == entry.state {
            return Pair {
                id,
                state: entry.state,
            };
        }
        rest = without_lowest(rest);
    }
    other
}

/// The pair of the entries from `first` to `end`, if they have no more than one.
#[inline]
fn only_pair(table: &Table, first: usize, end: usize) -> Option<Pair>
    requires listed { IsListed table.now }
    requires first { first ≤ length (table.now).parts }
    requires end { end ≤ length (table.now).parts }
    ensures { IfSome result (IsOnlyPair first end table.now) }
{
    if first + 1 != end {
        return None;
    }
    let entry = table.entry(first);
    let Some(id) = next_in_word(entry.word, entry.place as usize * WORD_BITS) else {
        return None;
    };
    if without_lowest(entry.word) != 0 {
        return None;
    }
    Some(Pair {
        id: id as u32,
        state: entry.state,
    })
}

/// The pair of the least id to which `pair` leads among the entries from `first` to `end`. These are the entries of one
/// distance, one less than that of `pair`.
fn next_pair(
    question: &Question<'_, '_>,
    table: &Table,
    pair: Pair,
    distance: u16,
    first: usize,
    end: usize,
) -> Pair
    requires known { IsKnown (asked question.now) (distance + 1) table.now }
    requires listed { IsListed table.now }
    requires first { IsSplitAt distance first table.now }
    requires end { IsSplitAt (distance + 1) end table.now }
    requires pair { IsPairOf (asked question.now) pair }
    requires entry { at table.now pair ≡ distance + 1 }
    requires stands { distance + 1 < OPEN }
    ensures pair { IsPairOf (asked question.now) result }
    ensures next { IsNextPair (asked question.now) table.now pair distance result }
{
    if let Some(only) = only_pair(table, first, end) {
        return only;
    }
    let mut next = Pair {
        id: question.ids(),
        state: 0,
    };
    for i in first..end {
        next = nearest(question, pair, table.entry(i), next);
    }
    next
}

/// The place of the first entry with this distance or a greater one. All entries from `end` on have.
fn first_at(table: &Table, distance: u16, end: usize) -> usize
    requires listed { IsListed table.now }
    requires within { end ≤ length (table.now).parts }
    requires after { (i : ℕ) (x : Entry) → end ≤ i → slice_get (table.now).parts i ≡ Some x
        → distance ≤ x.distance }
    ensures { IsSplitAt distance result table.now }
{
    let mut first = end;
    while first > 0 {
        if table.entry(first - 1).distance < distance {
            return first;
        }
        first -= 1;
    }
    first
}

/// Writes the ids of the least violation to `path`, which has the capacity for them. `distance` is the distance of the
/// start.
pub(crate) fn trace(
    question: &Question<'_, '_>,
    table: &Table,
    start: Pair,
    distance: u16,
    path: &mut Vec<u32>,
)
    requires measured { IsMeasured (asked question.now) start table.now }
    requires pair { IsPairOf (asked question.now) start }
    requires id { start.id ≡ INITIAL }
    requires state { start.state ≡ state_at (asked question.now) 0 INITIAL }
    requires entered { at table.now start ≡ distance }
    requires closes { distance < OPEN }
    requires room { MAX_ENTRIES < vec_capacity path.old }

    // What the path is; the memory for the next one stays.
    ensures least { IsLeastOf (asked question.now) path.new.items }
    ensures short { length path.new.items ≤ MAX_ENTRIES + 1 }
    ensures room { MAX_ENTRIES < vec_capacity path.new }
{
    path.clear();
    path.push_reserved(start.id);
    let mut pair = start;
    let mut left = distance;
    let mut end = first_at(table, distance, table.len());
    while left > 0 {
        left -= 1;
        let first = first_at(table, left, end);
        pair = next_pair(question, table, pair, left, first, end);
        end = first;
        path.push_reserved(pair.id);
    }
}
