//! Steps from one set of ids to the next, as in a lazy automaton. Each set that is met gets a number. The number of the next
//! set is kept for each set and type, so the same step costs one look-up the next time.
//!
//! The number of a set of one id is this id. The number of any other set is that of its row. There are rows for 256 sets
//! (`ROOM`). When they are full, further sets share one row (`LOOSE`), each until the next one is needed. After many such sets
//! all are forgotten.
ghost use Rattle.std.specs.Prelude.{◌≡◌, ◌≢◌, ◌↔◌, ◌<◌, ◌+◌, ℕ, true};
ghost use Rattle.model_check.specs.Rows.{bit};
ghost use Rattle.model_check.specs.Successors.{in_set, AreSuccessors, IsEnteredFrom, IsSet};

use crate::rows::IdRows;
use crate::sets::{IDS, LOOSE, NEXT, ROOM, TYPES, advance, only_one};
use crate::successors::{SLOTS, Successors, slot_of};

/// Forgets all sets, keeps the next set as the first, and returns its number.
fn begin_again(rows: &mut IdRows, successors: &mut Successors, slot: usize) -> usize
    requires slot { slot < SLOTS }

    // The graph stays, and the known steps are right.
    ensures graph { (r k : ℕ) → r < NEXT → bit rows.new r k ≡ bit rows.old r k }
    ensures successors { AreSuccessors rows.new (successors.new).numbers.items (successors.new).kept }
    ensures number { IsSet (successors.new).kept result }
    ensures set { (q : ℕ) → (in_set rows.new result q ≡ true) ↔ (bit rows.old NEXT q ≡ true) }
{
    successors.forget();
    successors.keep(rows, slot)
}

/// Keeps the next set, to which the type leads from this one, and returns its number.
fn number_next(rows: &mut IdRows, successors: &mut Successors, set: usize, typ: usize) -> usize
    requires set { IsSet (ROOM + 1) set }
    requires kept { set ≢ LOOSE → IsSet (successors.old).kept set }
    requires typ { typ < TYPES }
    requires successors { AreSuccessors rows.old (successors.old).numbers.items (successors.old).kept }
    requires next { (q : ℕ) → (bit rows.old NEXT q ≡ true) ↔ IsEnteredFrom (in_set rows.old set) rows.old typ q }

    // The graph stays, and the known steps are right.
    ensures graph { (r k : ℕ) → r < NEXT → bit rows.new r k ≡ bit rows.old r k }
    ensures successors { AreSuccessors rows.new (successors.new).numbers.items (successors.new).kept }

    // The next set.
    ensures kept { IsSet (successors.new).kept result }
    ensures set { (q : ℕ) → (in_set rows.new result q ≡ true) ↔ (bit rows.old NEXT q ≡ true) }
{
    let slot = slot_of(rows);
    if let Some(next) = successors.find(rows, slot) {
        successors.put(set, typ, next);
        return next;
    }
    if successors.is_full() {
        return begin_again(rows, successors, slot);
    }
    let next = successors.keep(rows, slot);
    successors.put(set, typ, next);
    next
}

/// The same as `step`, if the next set is not known. It stays a call, so that the path of a known step is short.
#[inline(never)]
fn step_anew(rows: &mut IdRows, successors: &mut Successors, set: usize, typ: usize) -> usize
    requires set { IsSet (ROOM + 1) set }
    requires kept { set ≢ LOOSE → IsSet (successors.old).kept set }
    requires typ { typ < TYPES }
    requires successors { AreSuccessors rows.old (successors.old).numbers.items (successors.old).kept }

    // The graph stays, and the known steps are right.
    ensures graph { (r k : ℕ) → r < NEXT → bit rows.new r k ≡ bit rows.old r k }
    ensures successors { AreSuccessors rows.new (successors.new).numbers.items (successors.new).kept }

    // The next set.
    ensures number { IsSet (ROOM + 1) result }
    ensures kept { result ≢ LOOSE → IsSet (successors.new).kept result }
    ensures set { (q : ℕ) → (in_set rows.new result q ≡ true)
        ↔ IsEnteredFrom (in_set rows.old set) rows.old typ q }
{
    advance(rows, set, typ);
    if let Some(p) = only_one(rows) {
        successors.put(set, typ, p);
        return p;
    }
    if successors.goes_on_without() {
        rows.copy(LOOSE, NEXT);
        return LOOSE;
    }
    number_next(rows, successors, set, typ)
}

/// The number of the next set: the ids of the type that edges enter from the set with number `set`.
#[inline(always)]
pub fn step(rows: &mut IdRows, successors: &mut Successors, set: usize, typ: usize) -> usize
    requires set { IsSet (ROOM + 1) set }
    requires kept { set ≢ LOOSE → IsSet (successors.old).kept set }
    requires typ { typ < TYPES }
    requires successors { AreSuccessors rows.old (successors.old).numbers.items (successors.old).kept }

    // The graph stays, and the known steps are right.
    ensures graph { (r k : ℕ) → r < NEXT → bit rows.new r k ≡ bit rows.old r k }
    ensures successors { AreSuccessors rows.new (successors.new).numbers.items (successors.new).kept }

    // The next set.
    ensures number { IsSet (ROOM + 1) result }
    ensures kept { result ≢ LOOSE → IsSet (successors.new).kept result }
    ensures set { (q : ℕ) → (in_set rows.new result q ≡ true)
        ↔ IsEnteredFrom (in_set rows.old set) rows.old typ q }
{
    let next = successors.get(set, typ);
    if next != 0 {
        return next;
    }
    step_anew(rows, successors, set, typ)
}

/// Whether the id is in the set with this number.
pub fn is_in_set(rows: &IdRows, set: usize, q: usize) -> bool
    requires { IsSet (ROOM + 1) set }
    ensures { result ≡ in_set rows.now set q }
{
    if set < IDS {
        return q == set;
    }
    rows.has(set, q)
}
