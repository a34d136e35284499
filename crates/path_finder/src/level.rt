//! A level of the search: the pairs at one distance.
ghost use Rattle.std.specs.Prelude.{◌≡◌, ℕ, ◌<◌, ◌≤◌, ◌+◌, ◌*◌, true, false, length, MatchOption};
ghost use Rattle.partition_graph.specs.declared.id_rows.TheConstants.{ID_WORDS};
ghost use Rattle.path_finder.specs.declared.pair.Pair.{Pair};
ghost use Rattle.path_finder.specs.declared.pair.TheConstants.{STATES};
ghost use Rattle.path_finder.specs.declared.table.TheConstants.{OPEN};
ghost use Rattle.path_finder.specs.Asking.{asked};
ghost use Rattle.path_finder.specs.Levels.{AreOpened, ArePassed, HasEntered, IsDue, IsReached};
ghost use Rattle.path_finder.specs.PairSets.{IsAmong, IsEmptySet};
ghost use Rattle.path_finder.specs.Tables.{at, open_count, AreWithin, IsSplitAt};
ghost use Rattle.path_finder.specs.Walks.{IsPairOf};

use crate::pair_set::{PairSet, Part};
use crate::question::Question;
use crate::table::{Entry, OPEN, Table};

/// Enters the open pairs of the part with this distance, and returns whether there are any. `entered` has the pairs
/// that are entered. None of them is farther.
fn enter_open(
    question: &Question<'_, '_>,
    table: &mut Table,
    entered: &mut PairSet,
    part: Part,
    distance: u16,
) -> bool
    requires state { part.state < 3 }
    requires place { part.place < ID_WORDS }
    requires closes { distance < OPEN }
    requires pairs { (r : Pair) → IsAmong part r → IsPairOf (asked question.now) r }
    requires size { length (table.old).distances ≡ (asked question.now).ids * STATES }
    requires low { AreWithin (asked question.now) distance table.old }
    requires entered { HasEntered (asked question.now) table.old entered.old }

    // All pairs of the part are entered now.
    ensures entered { HasEntered (asked question.now) table.new entered.new }
    ensures opened { AreOpened (asked question.now) part distance table.old table.new }
    ensures some { result ≡ true → open_count table.new < open_count table.old }
    ensures none { result ≡ false → table.new ≡ table.old }
{
    let word = part.word & !entered.put(part);
    if word == 0 {
        return false;
    }
    table.enter(Entry {
        word,
        distance,
        state: part.state,
        place: part.place as u8,
    });
    true
}

/// Takes all pairs out of `found`, and enters those that are open with this distance. Returns at which place of the
/// table their entries begin; `None` if there are none. `entered` has the pairs that are entered.
pub(crate) fn enter_level(
    question: &Question<'_, '_>,
    table: &mut Table,
    entered: &mut PairSet,
    found: &mut PairSet,
    distance: u16,
) -> Option<usize>
    requires due { IsDue (asked question.now) distance table.old found.old }
    requires entered { HasEntered (asked question.now) table.old entered.old }
    ensures reached { IsReached (asked question.now) distance table.new }
    ensures entered { HasEntered (asked question.now) table.new entered.new }
    ensures emptied { IsEmptySet found.new }
    ensures passed { ArePassed (asked question.now) distance table.old table.new }

    // Whether there are any, and where they begin.
    ensures level { MatchOption result
        ((r : Pair) → IsPairOf (asked question.now) r → at table.new r ≡ distance → ⊥)
        (λ first. IsSplitAt distance first table.new
        × (distance + 1 + open_count table.new ≤ (asked question.now).ids * STATES)) }
{
    let first = table.len();
    let mut any = false;
    while let Some(part) = found.take() {
        any = any | enter_open(question, table, entered, part, distance);
    }
    if !any {
        return None;
    }
    Some(first)
}
