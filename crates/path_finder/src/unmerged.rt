//! Views without their merge: most edges are the same in both, and are found sooner without it.
ghost use Rattle.std.specs.Prelude.{◌≡◌, ◌≢◌, ℕ, Bool, true, false};
ghost use Rattle.partition_graph.specs.NeighbourWords.{ArePlaces};
ghost use Rattle.partition_graph.specs.Seen.{seen};
ghost use Rattle.path_finder.specs.Merges.{unmerged, IsUnmergedAt};

use crate::words::has_bit;
use limits::MAX_PARTITIONS;
use partition_graph::{View, WORD_BITS};

/// The view of the same graph without a merge.
#[inline]
pub(crate) fn unmerged<'a>(view: &View<'a>) -> View<'a>
    ensures { result ≡ unmerged view.now }
{
    match view {
        View::Plain(graph) | View::Merged(graph, _, _) => View::Plain(graph),
    }
}

/// Whether the edges to the id are certainly the same without the merge. `places` are the places of the ids that have an edge to
/// it without the merge.
#[inline]
pub(crate) fn is_unmerged_at(view: &View<'_>, id: u32, places: u64) -> bool
    requires { ArePlaces (λ p. (seen (unmerged view.now)).edge p id) places }
    ensures { result ≡ true → IsUnmergedAt view.now id }
{
    match view {
        View::Plain(_) => true,
        View::Merged(_, kept, gone) => is_apart(*kept, *gone, id, places),
    }
}

/// Whether the id is neither of the two that are merged, and the one that is merged away is in none of the places.
#[inline]
fn is_apart(kept: u32, gone: u32, id: u32, places: u64) -> bool
    ensures kept { result ≡ true → id ≢ kept }
    ensures gone { result ≡ true → id ≢ gone }
    ensures lacks { result ≡ true → (has : ℕ → Bool) → ArePlaces has places → has gone ≡ false }
{
    if id == kept {
        return false;
    }
    if id == gone {
        return false;
    }
    if gone >= MAX_PARTITIONS {
        return false;
    }
    !has_bit(places, gone / WORD_BITS as u32)
}
