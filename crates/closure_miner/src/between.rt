//! What stands between the events of one type: the candidates of InterruptedBy, struck out trace by trace.
ghost use Rattle.std.specs.Prelude.{ℕ, ◌≡◌, ◌≤◌, ◌<◌, ◌+◌, ◌^◌, ◌==◌, ◌&&◌, ◌||◌, not, false, true, nat_lt, length, slice_index, get_or, All, IfOk};
ghost use Rattle.limits.specs.declared.TheConstants.{FIRST_TYPE};
ghost use Rattle.invariants.specs.Holds.{interrupted};
ghost use Rattle.traces.specs.Kept.{IsTypeNumber};
ghost use Rattle.closure_miner.specs.Sets.{has_at};
ghost use Rattle.closure_miner.specs.Rows.{in_row};

use crate::type_sets::{STRIDE, place_of};
use std::alloc::{AllocError, Global};

/// For each two types, whether the second stands between any two events of the first in every trace that was read.
///
/// Reading a trace takes a few steps for each event. An event whose type occurs again also takes one pass over its row,
/// many types at once. A row in which nothing stands any more is emptied, and costs nothing from then on.
#[derive(Drop)]
pub struct Between {
    /// In the row of each type, whether each type stands between any two events of it.
    rows: Vec<Vec<bool>>,
    /// While a trace is read from its end: for each type, how many events there are from its next event to the end, or
    /// 0 if it does not occur.
    next: Vec<u32>,
    ghost square: { length rows.items ≡ length next.items },
    ghost narrow: { All (λ row. length row.items ≤ length next.items) rows.items },
}

/// Strikes out of a row each type whose number in `next` is at most `limit`: it does not occur sooner. Returns false
/// only if nothing is left in the row.
fn strike_row(row: &mut [bool], next: &[u32], limit: u32) -> bool
    requires within { length row.old ≤ length next.now }
    ensures left { (b : ℕ) → get_or row.new b false
        ≡ (get_or row.old b false && nat_lt limit (slice_index next.now b)) }
    ensures none { result ≡ false → (b : ℕ) → get_or row.new b false ≡ false }
{
    let mut left = false;
    for b in 0..row.len() {
        row[b] = row[b] & (next[b] > limit);
        left = left | row[b];
    }
    left
}

/// Strikes out of the row of a type what does not occur before its next event. There are `limit` events from that event
/// to the end.
fn strike_gap(row: &mut Vec<bool>, next: &[u32], limit: u32)
    requires within { length row.old.items ≤ length next.now }
    ensures within { length row.new.items ≤ length next.now }
    ensures left { (b : ℕ) → in_row row.new b ≡ (in_row row.old b && nat_lt limit (slice_index next.now b)) }
{
    if !strike_row(row, next, limit) {
        row.clear();
    }
}

/// If the type of an event occurs again, strikes out of its row the types that do not occur before its next event.
fn strike_event(rows: &mut [Vec<bool>], next: &[u32], x: u16)
    requires square { length rows.old ≡ length next.now }
    requires narrow { All (λ row. length row.items ≤ length next.now) rows.old }
    requires number { IsTypeNumber (length next.now) x }
    ensures narrow { All (λ row. length row.items ≤ length next.now) rows.new }
    ensures left { (a b : ℕ) → has_at in_row rows.new a b ≡ (has_at in_row rows.old a b
        && (not (x == a + FIRST_TYPE) || (slice_index next.now a == 0
        || nat_lt (slice_index next.now a) (slice_index next.now b)))) }
{
    let place = place_of(x);
    let limit = next[place];
    if limit > 0 {
        strike_gap(&mut rows[place], next, limit);
    }
}

/// Whether nothing stands any more.
fn are_empty(rows: &[Vec<bool>]) -> bool
    ensures { result ≡ true → (a b : ℕ) → has_at in_row rows.now a b ≡ false }
{
    for row in rows {
        if !row.is_empty() {
            return false;
        }
    }
    true
}

/// Strikes out what a trace breaks. The trace is read from its end. Reading can stop early, once nothing stands any
/// more. `next` is overwritten.
fn strike_trace(rows: &mut [Vec<bool>], next: &mut [u32], events: &[u16])
    requires square { length rows.old ≡ length next.old }
    requires narrow { All (λ row. length row.items ≤ length next.old) rows.old }
    requires numbers { All (IsTypeNumber (length next.old)) events.now }
    requires few { length events.now < 2 ^ 32 }
    ensures narrow { All (λ row. length row.items ≤ length next.old) rows.new }
    ensures left { (a b : ℕ) → a < length next.old → b < length next.old
        → has_at in_row rows.new a b ≡ (has_at in_row rows.old a b
        && interrupted (a + FIRST_TYPE) (b + FIRST_TYPE) events.now) }
{
    next.fill(0);
    let mut others = events.len();
    while others > 0 {
        if (events.len() - others) % STRIDE == 0 && are_empty(rows) {
            return;
        }
        others -= 1;
        let x = events[others];
        strike_event(rows, next, x);
        next[place_of(x)] = (events.len() - others) as u32;
    }
}

impl Between {
    /// The state before any trace is read: each of `types` types stands between any two events of each.
    pub fn make(alloc: Global, types: usize) -> Result<Between, AllocError>
        ensures types { IfOk result (λ between. length between.next.items ≡ types) }
        ensures all { IfOk result (λ between. (a b : ℕ) → a < types → b < types
            → has_at in_row between.rows.items a b ≡ true) }
    {
        let mut rows = Vec::new(alloc);
        for _i in 0..types {
            rows.push(vec![in alloc; true; types]?)?;
        }
        Ok(Between {
            rows,
            next: vec![in alloc; 0; types]?,
        })
    }

    /// Strikes out what a trace breaks.
    pub fn read(&mut self, events: &[u16])
        requires numbers { All (IsTypeNumber (length (self.old).next.items)) events.now }
        requires few { length events.now < 2 ^ 32 }
        ensures types { length (self.new).next.items ≡ length (self.old).next.items }
        ensures left { (a b : ℕ) → a < length (self.old).next.items → b < length (self.old).next.items
            → has_at in_row (self.new).rows.items a b ≡ (has_at in_row (self.old).rows.items a b
            && interrupted (a + FIRST_TYPE) (b + FIRST_TYPE) events.now) }
    {
        strike_trace(&mut self.rows, &mut self.next, events);
    }

    /// Whether the type at place `b` stands between any two events of the type at place `a`, in every trace that was
    /// read.
    pub fn has(&self, a: usize, b: usize) -> bool
        requires { a < length (self.now).next.items }
        ensures { result ≡ has_at in_row (self.now).rows.items a b }
    {
        match self.rows[a].get(b) {
            Some(stands) => *stands,
            None => false,
        }
    }
}
