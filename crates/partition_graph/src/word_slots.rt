//! Slots in which an earlier trace with the same word is found.
ghost use Rattle.std.specs.Prelude.{◌≡◌, ◌≤◌, ◌<◌, ◌^◌, IfOk, length};
ghost use Rattle.limits.specs.declared.TheConstants.{MAX_EVENTS};
ghost use Rattle.partition_graph.specs.Parts.{inner_words_of};
ghost use Rattle.partition_graph.specs.Slots.{AreSlots, IsLook};

use std::alloc::{AllocError, Global};
use traces::TraceSet;

/// How many slots are looked at for a word.
const LOOKS: usize = 8;

/// How many homes there are at least.
const MIN_HOMES: usize = 64;

/// An odd number with bits in no pattern. A hash is multiplied by it for each number of a word.
const FACTOR: u64 = 0x9e37_79b9_7f4a_7c15;

/// Slots for the traces of a log. Each is empty or has the number of a trace.
///
/// A word is looked for in `LOOKS` slots, from its home on. If all of them have traces with other words, the word is not
/// kept, and no later trace finds it. A log can be written so that many words have one home. Each of its traces may then
/// count as one with a new word, after a comparison with each of `LOOKS` words. Apart from these comparisons, such a log
/// costs no more than one of whose words only two are equal.
#[derive(Drop)]
pub struct WordSlots {
    /// One more than the number of a trace, or 0 if the slot is empty.
    slots: Vec<u32>,
}

impl WordSlots {
    /// Empty slots for so many traces, with at least two homes for each.
    pub fn open(alloc: Global, traces: u32) -> Result<WordSlots, AllocError>
        requires few { traces ≤ MAX_EVENTS }
        ensures { IfOk result (λ new. AreSlots 0 new.slots.items) }
    {
        let homes = (2 * traces as usize).max(MIN_HOMES);
        let slots = vec![in alloc; 0; homes + LOOKS]?;
        Ok(WordSlots { slots })
    }

    /// An earlier trace with the word of trace t, if one is found. Otherwise t is put into the first empty slot of those
    /// that were looked at, if there is one.
    pub fn earlier_with(&mut self, traces: &TraceSet, t: u32) -> Option<u32>
        requires there { t < length (traces.now).traces }
        requires few { t < MAX_EVENTS }
        requires slots { AreSlots t self.old.slots.items }
        ensures { IsLook (inner_words_of traces.now) t result self.old.slots.items self.new.slots.items }
    {
        let word = traces.events(t);
        let home = home_of(word, self.slots.len() - LOOKS);
        for place in home..home + LOOKS {
            let Some(earlier) = self.slots[place].checked_sub(1) else {
                self.slots[place] = t + 1;
                return None;
            };
            if traces.events(earlier) == word {
                return Some(earlier);
            }
        }
        None
    }
}

/// The home of a word, if there are so many homes: a number below theirs, made of the hash of the word.
fn home_of(word: &[u16], homes: usize) -> usize
    requires some { 0 < homes }
    requires few { homes < 2 ^ 32 }
    ensures { result < homes }
{
    let mut hash: u64 = 0;
    for number in word {
        hash = (hash ^ u64::from(*number)).wrapping_mul(FACTOR);
    }
    // The upper half of the hash, on which all numbers have a bearing, scaled to the number of homes.
    (((hash >> 32) * homes as u64) >> 32) as usize
}
