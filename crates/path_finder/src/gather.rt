//! The pairs that lead to those of a level.
ghost use Rattle.std.specs.Prelude.{◌≡◌, ℕ, ◌<◌, true};
ghost use Rattle.partition_graph.specs.NeighbourWords.{ArePlaces};
ghost use Rattle.partition_graph.specs.declared.id_rows.TheConstants.{ID_WORDS};
ghost use Rattle.path_finder.specs.Asking.{asked, looks_at};
ghost use Rattle.path_finder.specs.Gathering.{HasSourcesIn, HasSourcesOf};
ghost use Rattle.path_finder.specs.Merges.{IsUnmergedAt};
ghost use Rattle.path_finder.specs.PairSets.{IsAmong, IsEmptySet, IsMarked};
ghost use Rattle.path_finder.specs.Tables.{part_of, IsListed, IsListedFrom};
ghost use Rattle.path_finder.specs.Walks.{state_at};

use crate::pair::Pair;
use crate::pair_set::{PairSet, Part};
use crate::question::{Question, Sources};
use crate::table::{Entry, Table};
use crate::words::{next_in_word, without_bit, without_lowest};
use partition_graph::{ID_WORDS, WORD_BITS};

/// Adds the pairs with this state whose ids have an edge to the id of the pair. `sources` says where these ids are.
#[inline(always)]
fn gather_sources(
    question: &Question<'_, '_>,
    found: &mut PairSet,
    pair: Pair,
    sources: Sources,
    state: u8,
)
    requires step { state_at (asked question.now) state pair.id ≡ pair.state }
    requires looked { looks_at question.now pair.id ≡ true }
    requires places { ArePlaces (λ id. (asked question.now).graph.edge id pair.id) sources.places }
    requires unmerged { sources.unmerged ≡ true → IsUnmergedAt (question.now).sight.now.view pair.id }
    requires state { state < 3 }
    requires marked { IsMarked found.old }

    // What leads to the pair in this state was added, and nothing that does not lead to it.
    ensures marked { IsMarked found.new }
    ensures gathered { HasSourcesIn (asked question.now) (λ s. s ≡ state) pair found.old found.new }
{
    let q = pair.id;
    let mut rest = sources.places;
    while let Some(place) = next_in_word(rest, 0) {
        if place >= ID_WORDS {
            return;
        }
        let word = question.source_word(q, place, sources.unmerged);
        found.add(Part { state, place, word });
        rest = without_bit(rest, place as u32);
    }
}

/// Adds the pairs with this state that lead to the pair. `typ` is the type of its id, and `sources` says where the ids
/// are that have an edge to its id.
fn gather_state(
    question: &Question<'_, '_>,
    found: &mut PairSet,
    pair: Pair,
    typ: u16,
    sources: Sources,
    state: u8,
)
    requires typ { typ ≡ (asked question.now).graph.typ pair.id }
    requires looked { looks_at question.now pair.id ≡ true }
    requires places { ArePlaces (λ id. (asked question.now).graph.edge id pair.id) sources.places }
    requires unmerged { sources.unmerged ≡ true → IsUnmergedAt (question.now).sight.now.view pair.id }
    requires state { state < 3 }
    requires marked { IsMarked found.old }

    // What leads to the pair in this state was added, and nothing that does not lead to it.
    ensures marked { IsMarked found.new }
    ensures gathered { HasSourcesIn (asked question.now) (λ s. s ≡ state) pair found.old found.new }
{
    if question.state_after(state, typ) != pair.state {
        return;
    }
    gather_sources(question, found, pair, sources, state);
}

/// Adds the pairs that lead to the pair. `typ` is the type of its id, and `sources` says where the ids are that have
/// an edge to its id.
#[inline(never)]
fn gather_states(
    question: &Question<'_, '_>,
    found: &mut PairSet,
    pair: Pair,
    typ: u16,
    sources: Sources,
)
    requires typ { typ ≡ (asked question.now).graph.typ pair.id }
    requires looked { looks_at question.now pair.id ≡ true }
    requires places { ArePlaces (λ id. (asked question.now).graph.edge id pair.id) sources.places }
    requires unmerged { sources.unmerged ≡ true → IsUnmergedAt (question.now).sight.now.view pair.id }
    requires marked { IsMarked found.old }

    // What leads to the pair was added, and nothing that does not lead to it.
    ensures marked { IsMarked found.new }
    ensures gathered { HasSourcesIn (asked question.now) (λ s. s < 3) pair found.old found.new }
{
    for state in 0..3 {
        gather_state(question, found, pair, typ, sources, state);
    }
}

/// Adds the pairs that lead to the pair. Most types are none of the two that the invariant names, and only one state
/// leads to the pair then.
#[inline]
fn gather_pair(question: &Question<'_, '_>, found: &mut PairSet, pair: Pair)
    requires looked { looks_at question.now pair.id ≡ true }
    requires state { pair.state < 3 }
    requires marked { IsMarked found.old }

    // What leads to the pair was added, and nothing that does not lead to it.
    ensures marked { IsMarked found.new }
    ensures gathered { HasSourcesIn (asked question.now) (λ s. s < 3) pair found.old found.new }
{
    let typ = question.type_of(pair.id);
    let sources = question.sources(pair.id);
    if question.passes_over(typ) {
        gather_sources(question, found, pair, sources, pair.state);
        return;
    }
    gather_states(question, found, pair, typ, sources);
}

/// Adds the pairs that lead to those of an entry.
fn gather_entry(question: &Question<'_, '_>, found: &mut PairSet, entry: Entry)
    requires state { entry.state < 3 }
    requires place { entry.place < ID_WORDS }
    requires marked { IsMarked found.old }

    // What leads to a pair of the entry was added, and nothing that leads to none of them.
    ensures marked { IsMarked found.new }
    ensures gathered { HasSourcesOf (asked question.now) (IsAmong (part_of entry)) found.old found.new }
{
    let place = entry.place as usize;
    if place >= ID_WORDS {
        // It never is. The compiler learns from this that no id is out of range, and tests none of them.
        return;
    }
    let from = place * WORD_BITS;
    let mut rest = entry.word & question.near_word(place);
    while let Some(id) = next_in_word(rest, from) {
        let pair = Pair {
            id: id as u32,
            state: entry.state,
        };
        gather_pair(question, found, pair);
        rest = without_lowest(rest);
    }
}

/// Gathers the pairs that lead to those of the entries from this place of the table on.
pub(crate) fn gather(question: &Question<'_, '_>, table: &Table, first: usize, found: &mut PairSet)
    requires { IsEmptySet found.old }
    ensures listed { IsListed table.now }
    ensures marked { IsMarked found.new }
    ensures gathered { HasSourcesOf (asked question.now) (IsListedFrom first table.now) found.old found.new }
{
    for i in first..table.len() {
        gather_entry(question, found, table.entry(i));
    }
}
