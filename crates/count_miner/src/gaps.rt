//! The gaps of one trace, from an event to the next of its type, added to a table.
ghost use Rattle.std.specs.Prelude.{ℕ, ◌≡◌, ◌≤◌, ◌<◌, ◌+◌, ◌*◌, ◌^◌, ◌==◌, ◌&&◌, All, length, slice_index, nat_lt, if◌then◌else◌};
ghost use Rattle.limits.specs.declared.TheConstants.{FIRST_TYPE};
ghost use Rattle.invariants.specs.declared.Kinds.TheVariants.{Four};
ghost use Rattle.traces.specs.Kept.{IsTypeNumber};
ghost use Rattle.count_miner.specs.Counts.{cell, interrupted_count};

use invariants::Kinds;
use limits::FIRST_TYPE;

/// Adds one to the count of each type whose next event is more than `limit` events from the end, and so occurs sooner.
fn add_sooner(row: &mut [u32], next: &[u32], limit: u32)
    requires within { length row.old ≤ length next.now }
    requires room { (k : ℕ) → k < length row.old → slice_index row.old k + 1 < 2 ^ 32 }
    ensures { (k : ℕ) → k < length row.old → slice_index row.new k
        ≡ slice_index row.old k + (if nat_lt limit (slice_index next.now k) then 1 else 0) }
{
    for i in 0..row.len() {
        row[i] += u32::from(next[i] > limit);
    }
}

/// Counts the gap that an event of the type at place `at` begins: if the type occurs again, each type that occurs
/// sooner is counted in the row of this type.
fn add_gap(table: &mut [u32], next: &[u32], at: usize)
    requires square { length table.old ≡ length next.now * length next.now }
    requires number { at < length next.now }
    requires room { (a b : ℕ) → a < length next.now → b < length next.now
        → cell table.old (length next.now) a b + 1 < 2 ^ 32 }
    ensures { (a b : ℕ) → a < length next.now → b < length next.now
        → cell table.new (length next.now) a b ≡ cell table.old (length next.now) a b
        + (if a == at && (nat_lt 0 (slice_index next.now a)
        && nat_lt (slice_index next.now a) (slice_index next.now b)) then 1 else 0) }
{
    let types = next.len();
    let limit = next[at];
    if limit > 0 {
        add_sooner(&mut table[at * types..(at + 1) * types], next, limit);
    }
}

/// Counts, in the row of each type, how many of its gaps in a trace contain each type. The trace is read from its end.
/// `next` is overwritten: while the trace is read, it has for each type how many events there are from its next event
/// to the end.
fn count_interrupted(table: &mut [u32], next: &mut [u32], events: &[u16])
    requires square { length table.old ≡ length next.old * length next.old }
    requires numbers { All (IsTypeNumber (length next.old)) events.now }
    requires few { length events.now < 2 ^ 32 }
    // No count outgrows its 32 bits.
    requires room { (a b : ℕ) → a < length next.old → b < length next.old
        → cell table.old (length next.old) a b + length events.now < 2 ^ 32 }
    ensures { (a b : ℕ) → a < length next.old → b < length next.old
        → cell table.new (length next.old) a b ≡ cell table.old (length next.old) a b
        + interrupted_count (a + FIRST_TYPE) (b + FIRST_TYPE) events.now }
{
    next.fill(0);
    let mut others = events.len();
    while others > 0 {
        others -= 1;
        let at = (events[others] - FIRST_TYPE as u16) as usize;
        add_gap(table, next, at);
        next[at] = (events.len() - others) as u32;
    }
}

/// If four kinds are asked for, counts in the row of each type how many of its gaps in a trace contain each type.
/// `next` is then overwritten.
pub fn count_gaps(kinds: Kinds, table: &mut [u32], next: &mut [u32], events: &[u16])
    requires square { kinds ≡ Four → length table.old ≡ length next.old * length next.old }
    requires numbers { All (IsTypeNumber (length next.old)) events.now }
    requires few { length events.now < 2 ^ 32 }
    requires room { kinds ≡ Four → (a b : ℕ) → a < length next.old → b < length next.old
        → cell table.old (length next.old) a b + length events.now < 2 ^ 32 }
    ensures { kinds ≡ Four → (a b : ℕ) → a < length next.old → b < length next.old
        → cell table.new (length next.old) a b ≡ cell table.old (length next.old) a b
        + interrupted_count (a + FIRST_TYPE) (b + FIRST_TYPE) events.now }
{
    match kinds {
        Kinds::Three => {}
        Kinds::Four => count_interrupted(table, next, events),
    }
}
