//! The ids of the words of a log, and those of all traces. A word is seldom kept twice, however many traces have it.
ghost use Rattle.std.specs.Prelude.{◌≡◌, ◌+◌, ◌-◌, ◌<◌, ◌≤◌, ◌^◌, ℕ, [], drop, length, take, slice_index, slice_index_or, All, IfOk, OnOk};
ghost use Rattle.limits.specs.declared.TheConstants.{FIRST_TYPE};
ghost use Rattle.traces.specs.Kept.{IsTypeNumber};
ghost use Rattle.partition_model.specs.Assignments.{by_type};
ghost use Rattle.replay_check.specs.declared.words.TheConstants.{SLOTS};
ghost use Rattle.replay_check.specs.Laid.{inner_words_of, HaveIdsBelow};
ghost use Rattle.replay_check.specs.Sharing.{gathered, AreIdsOf, IsNoted};

use crate::listing::same_numbers;
use limits::{INITIAL, TERMINAL};
use std::alloc::{AllocError, Global};
use traces::TraceSet;

/// The number of slots. Each keeps the number of a trace.
const SLOTS: usize = 65_536;

/// The slot of a word.
fn slot_of(word: &[u16]) -> usize
    ensures { result < SLOTS }
{
    let mut hash: u64 = 0;
    for number in word {
        hash = (hash ^ u64::from(*number)).wrapping_mul(0x9e37_79b9_7f4a_7c15);
    }
    (hash >> 32) as usize % SLOTS
}

/// Appends the ids of the word of trace `t` with their place, and keeps `t` in the slot of the word. If the trace in the slot
/// has the same word, `t` shares its place instead. A slot that was never used has the number of the first trace.
fn note(
    traces: &TraceSet,
    t: u32,
    kept: &mut [u32],
    places: &mut Vec<usize>,
    ids: &mut Vec<u16>,
) -> Result<(), AllocError>
    requires there { t < length (traces.now).traces }
    requires size { length kept.old ≡ SLOTS }
    requires low { (s : ℕ) → slice_index kept.old s ≤ t - 1 }
    requires count { length places.old.items ≡ t }
    ensures noted { OnOk result (IsNoted (inner_words_of traces.now) t kept.old kept.new
        places.old.items places.new.items ids.old.items ids.new.items) }
    ensures numbers { OnOk result (All (IsTypeNumber (length (traces.now).types))
        (slice_index_or (inner_words_of traces.now) t [])) }
    ensures size { length kept.new ≡ length kept.old }
{
    let word = traces.events(t);
    let slot = slot_of(word);
    if t > 0 && same_numbers(word, traces.events(kept[slot])) {
        let place = places[kept[slot] as usize];
        places.push(place)?;
        return Ok(());
    }
    kept[slot] = t;
    places.push(ids.len())?;
    ids.push(INITIAL as u16)?;
    ids.extend_from_slice(word)?;
    ids.push(TERMINAL as u16)?;
    Ok(())
}

/// The ids of the first assignment, for traces that have all words of the log and no others, and for each trace the place where
/// the ids of its word begin.
pub fn lay_words(
    alloc: Global,
    traces: &TraceSet,
    places: &mut Vec<usize>,
) -> Result<Vec<u16>, AllocError>
    requires { places.old.items ≡ [] }
    ensures laid { IfOk result (λ ids.
        AreIdsOf (inner_words_of traces.now) ids.items places.new.items) }

    // What holds of the first assignment of the log.
    ensures below { IfOk result (λ ids.
        HaveIdsBelow (length (traces.now).types + FIRST_TYPE) (by_type (inner_words_of traces.now))) }
{
    let mut kept = vec![in alloc; 0; SLOTS]?;
    let mut ids = Vec::new(alloc);
    for t in 0..traces.trace_count() {
        note(traces, t, kept.as_mut_slice(), places, &mut ids)?;
    }
    Ok(ids)
}

/// This many of the ids, from this place on.
fn part(ids: &[u16], from: usize, count: usize) -> &[u16]
    requires { from + count ≤ length ids.now }
    ensures { result.now ≡ take count (drop from ids.now) }
{
    &ids[from..from + count]
}

/// The ids of all traces, trace after trace: those of each word with its ends, from its place on.
pub fn gather(
    alloc: Global,
    traces: &TraceSet,
    ids: &[u16],
    places: &[usize],
) -> Result<Vec<u16>, AllocError>
    requires count { length places.now ≡ length (traces.now).traces }
    requires inside { (t : ℕ) → t < length (traces.now).traces
        → slice_index places.now t + (length (slice_index_or (inner_words_of traces.now) t []) + 2)
        ≤ length ids.now }
    ensures gathered { IfOk result (λ all.
        all.items ≡ gathered ids.now places.now (inner_words_of traces.now)) }
    ensures few { IfOk result (λ all. length all.items < 2 ^ 31) }
{
    // Called only for its contract, which bounds the number of events: so the ids are few.
    let _events = traces.event_count();
    let mut all = Vec::new(alloc);
    for t in 0..traces.trace_count() {
        let place = places[t as usize];
        let count = traces.events(t).len() + 2;
        all.extend_from_slice(part(ids, place, count))?;
    }
    Ok(all)
}
