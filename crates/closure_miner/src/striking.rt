//! What a trace strikes out of the sets of types.
ghost use Rattle.std.specs.Prelude.{ℕ, ◌≡◌, ◌≤◌, ◌<◌, ◌+◌, ◌^◌, ◌==◌, ◌&&◌, ◌||◌, ◌↔◌, not, true, length, All};
ghost use Rattle.limits.specs.declared.TheConstants.{FIRST_TYPE};
ghost use Rattle.invariants.specs.declared.Kinds.TheVariants.{Four};
ghost use Rattle.invariants.specs.Holds.{occurs, always_followed, never_followed, always_preceded, interrupted};
ghost use Rattle.traces.specs.Kept.{IsTypeNumber};
ghost use Rattle.closure_miner.specs.Rows.{in_row};
ghost use Rattle.closure_miner.specs.Sets.{has_at, HasAll};

use crate::between::Between;
use crate::type_sets::{STRIDE, TypeSet, place_of};
use invariants::Kinds;

/// Whether each of the sets is this one.
fn are_all<S: TypeSet>(sets: &[S], all: S) -> bool
    ensures { (result ≡ true) ↔ All (λ set. set ≡ all) sets.now }
{
    for set in sets {
        if !set.is(all) {
            return false;
        }
    }
    true
}

/// Strikes out what an event breaks that stands before events of the types in `later`. Returns these types and its own.
#[inline]
fn strike_earlier<S: TypeSet>(followed: &mut [S], met: &mut [S], later: S, x: u16) -> S
    requires few { length followed.old ≤ S.room }
    requires same { length met.old ≡ length followed.old }
    requires number { IsTypeNumber (length followed.old) x }

    // The type of the event is among those that come later than the next one.
    ensures later { (b : ℕ) → S.has result b ≡ (x == b + FIRST_TYPE || S.has later b) }

    // Which pairs of a type and what follows it, always or never, still stand.
    ensures followed { (a b : ℕ) → has_at S.has followed.new a b ≡ (has_at S.has followed.old a b
        && (not (x == a + FIRST_TYPE) || S.has later b)) }
    ensures never { (a b : ℕ) → not (has_at S.has met.new a b) ≡ (not (has_at S.has met.old a b)
        && not (x == a + FIRST_TYPE && S.has later b)) }
{
    let place = place_of(x);
    followed[place] = followed[place].both(later);
    met[place] = met[place].either(later);
    later.with(place)
}

/// Strikes out what an event breaks that stands after events of the types in `earlier`. Returns these types and its
/// own.
#[inline]
fn strike_later<S: TypeSet>(preceded: &mut [S], earlier: S, x: u16) -> S
    requires few { length preceded.old ≤ S.room }
    requires number { IsTypeNumber (length preceded.old) x }

    // The type of the event is among those that come earlier than the next one.
    ensures earlier { (a : ℕ) → S.has result a ≡ (x == a + FIRST_TYPE || S.has earlier a) }

    // Which pairs of a type and what precedes it still stand.
    ensures preceded { (a b : ℕ) → has_at S.has preceded.new b a ≡ (has_at S.has preceded.old b a
        && (not (x == b + FIRST_TYPE) || S.has earlier a)) }
{
    let place = place_of(x);
    preceded[place] = preceded[place].both(earlier);
    earlier.with(place)
}

/// Strikes out what a trace breaks of what follows what, and returns the types that the trace has. The trace is read
/// from its end. Reading can stop early, once nothing is left that the trace could break.
pub fn read_from_end<S: TypeSet>(followed: &mut [S], met: &mut [S], all: S, events: &[u16]) -> S
    requires few { length followed.old ≤ S.room }
    requires same { length met.old ≡ length followed.old }
    requires all { HasAll S.has (length followed.old) all }
    requires numbers { All (IsTypeNumber (length followed.old)) events.now }

    // The types are those of the events.
    ensures seen { (b : ℕ) → b < length followed.old → S.has result b ≡ occurs (b + FIRST_TYPE) events.now }

    // Which pairs of a type and what follows it, always or never, still stand.
    ensures followed { (a b : ℕ) → a < length followed.old → b < length followed.old
        → has_at S.has followed.new a b ≡ (has_at S.has followed.old a b
        && always_followed (a + FIRST_TYPE) (b + FIRST_TYPE) events.now) }
    ensures never { (a b : ℕ) → a < length followed.old → b < length followed.old
        → not (has_at S.has met.new a b) ≡ (not (has_at S.has met.old a b)
        && never_followed (a + FIRST_TYPE) (b + FIRST_TYPE) events.now) }
{
    let mut later = S::none();
    let mut left = events.len();
    while left > 0 {
        if left % STRIDE == 0 && later.is(all) && are_all(met, all) {
            return later;
        }
        left -= 1;
        later = strike_earlier(followed, met, later, events[left]);
    }
    later
}

/// Strikes out what a trace breaks of what precedes what. The trace is read from its start. Reading can stop early,
/// once every type has occurred.
pub fn read_from_start<S: TypeSet>(preceded: &mut [S], all: S, events: &[u16])
    requires few { length preceded.old ≤ S.room }
    requires all { HasAll S.has (length preceded.old) all }
    requires numbers { All (IsTypeNumber (length preceded.old)) events.now }

    // Which pairs of a type and what precedes it still stand.
    ensures preceded { (a b : ℕ) → a < length preceded.old → b < length preceded.old
        → has_at S.has preceded.new b a ≡ (has_at S.has preceded.old b a
        && always_preceded (a + FIRST_TYPE) (b + FIRST_TYPE) events.now) }
{
    let mut earlier = S::none();
    for (i, x) in events.iter().enumerate() {
        if i % STRIDE == 0 && earlier.is(all) {
            return;
        }
        earlier = strike_later(preceded, earlier, *x);
    }
}

/// If InterruptedBy is asked for, strikes out what a trace breaks of what interrupts what.
pub fn read_between(kinds: Kinds, between: &mut Between, events: &[u16])
    requires numbers { kinds ≡ Four → All (IsTypeNumber (length between.old.next.items)) events.now }
    requires few { length events.now < 2 ^ 32 }
    ensures types { length between.new.next.items ≡ length between.old.next.items }
    ensures left { kinds ≡ Four → (a b : ℕ)
        → a < length between.old.next.items → b < length between.old.next.items
        → has_at in_row between.new.rows.items a b ≡ (has_at in_row between.old.rows.items a b
        && interrupted (a + FIRST_TYPE) (b + FIRST_TYPE) events.now) }
{
    match kinds {
        Kinds::Three => {}
        Kinds::Four => between.read(events),
    }
}
