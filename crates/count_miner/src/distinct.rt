//! Counts of one trace for each distinct word.
ghost use Rattle.std.specs.Prelude.{◌≡◌, ◌≤◌, IfOk, length, true};
ghost use Rattle.limits.specs.declared.TheConstants.{MAX_TYPES};
ghost use Rattle.count_miner.specs.Distinct.{NoneHolds, NumberWords, Suffice};

use crate::counts::Counts;
use invariants::{Kinds, candidate, candidate_count};
use std::alloc::{AllocError, Global};
use traces::TraceSet;

/// After this many traces it is tested, once, whether any candidate still holds.
const FIRST_LOOK: u32 = 1024;

/// Whether no candidate holds of all traces that were counted.
fn none_holds(kinds: Kinds, types: u32, counts: &Counts) -> bool
    requires kinds { (counts.now).kinds ≡ kinds }
    requires types { (counts.now).types ≡ types }
    requires few { types ≤ MAX_TYPES }
    ensures { result ≡ true → NoneHolds counts.now }
{
    for index in 0..candidate_count(kinds, types) {
        if let Some(inv) = candidate(kinds, types, index) {
            if counts.holds(inv) {
                return false;
            }
        }
    }
    true
}

/// Counts that suffice for the traces. Each trace has the number of its word. A trace is passed over if its number is
/// known to be that of an earlier trace. If the first traces break every candidate, no more of them are counted.
pub fn counts_of_words(
    alloc: Global,
    kinds: Kinds,
    traces: &TraceSet,
    numbers: &[u32],
) -> Result<Counts, AllocError>
    requires beside { length numbers.now ≡ length (traces.now).traces }
    requires words { NumberWords numbers.now (traces.now).traces }
    ensures kinds { IfOk result (λ counts. counts.kinds ≡ kinds) }
    ensures types { IfOk result (λ counts. counts.types ≡ length (traces.now).types) }
    ensures counts { IfOk result (λ counts. Suffice counts (traces.now).traces) }
{
    // Each count is at most this, so that it fits.
    let _event_count = traces.event_count();
    let mut counts = Counts::make(alloc, kinds, traces.types().len())?;
    // Every smaller number is that of a trace before `t`.
    let mut next = 0;
    for t in 0..traces.trace_count() {
        if t == FIRST_LOOK && none_holds(kinds, traces.types().len() as u32, &counts) {
            return Ok(counts);
        }
        let number = numbers[t as usize];
        if number >= next {
            next += u32::from(number == next);
            counts.add_trace(traces.events(t));
        }
    }
    Ok(counts)
}
