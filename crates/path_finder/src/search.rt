//! The search backwards: the distances of pairs, starting from TERMINAL in the bad state.
ghost use Rattle.std.specs.Prelude.{◌≡◌, ◌<◌, ◌+◌, MatchOption};
ghost use Rattle.path_finder.specs.declared.table.TheConstants.{OPEN};
ghost use Rattle.path_finder.specs.Asking.{asked};
ghost use Rattle.path_finder.specs.Levels.{HasEndsBelow};
ghost use Rattle.path_finder.specs.Tables.{at, IsMeasured};
ghost use Rattle.path_finder.specs.Walks.{IsPairOf};

use crate::gather::gather;
use crate::level::enter_level;
use crate::pair::{Pair, STATES};
use crate::pair_set::{PairSet, Part};
use crate::question::Question;
use crate::table::Table;
use limits::TERMINAL;
use partition_graph::WORD_BITS;

/// The place of the word that has the bit of TERMINAL, and the bit.
const END_PLACE: usize = TERMINAL as usize / WORD_BITS;

const END_WORD: u64 = 1 << (TERMINAL as usize % WORD_BITS);

/// Adds TERMINAL in the state, if that is the bad one.
fn add_end(question: &Question<'_, '_>, found: &mut PairSet, state: u8)
    requires state { state < 3 }
    requires ends { HasEndsBelow (asked question.now) state found.old }
    ensures { HasEndsBelow (asked question.now) (state + 1) found.new }
{
    if question.is_bad(state) {
        found.add(Part {
            state,
            place: END_PLACE,
            word: END_WORD,
        });
    }
}

/// TERMINAL in the bad state.
fn ends(question: &Question<'_, '_>) -> PairSet
    ensures { HasEndsBelow (asked question.now) 3 result }
{
    let mut found = PairSet::none();
    for state in 0..3 {
        add_end(question, &mut found, state);
    }
    found
}

/// Finds the distances of pairs, in the order of their distances, until that of the start is found. Returns that; `None` if no
/// walk from the start ends badly.
///
/// The search goes level by level: a level is the set of the pairs at one distance. The pairs that lead to those of a level are
/// gathered, and those of them that are open are the next level.
pub(crate) fn measure(question: &Question<'_, '_>, table: &mut Table, start: Pair) -> Option<u16>
    requires { IsPairOf (asked question.now) start }
    ensures measured { IsMeasured (asked question.now) start table.new }
    ensures distance { MatchOption result
        (at table.new start ≡ OPEN)
        (λ distance. (at table.new start ≡ distance) × (distance < OPEN)) }
{
    table.clear(question.ids() as usize * STATES);
    let mut entered = PairSet::none();
    let mut found = ends(question);
    let mut distance = 0;
    'levels: while let Some(first) = enter_level(
        question,
        table,
        &mut entered,
        &mut found,
        distance,
    ) {
        if entered.has(start) {
            return Some(distance);
        }
        gather(question, table, first, &mut found);
        distance += 1;
    }
    None
}
