//! Which ids are immediately followed by which ids.
ghost use Rattle.std.specs.Prelude.{◌≡◌, ◌==◌, ◌<◌, ◌||◌, ◌&&◌, ℕ, nat_lt, false, All, IfOk};
ghost use Rattle.limits.specs.declared.TheConstants.{MAX_PARTITIONS};
ghost use Rattle.bit_rows.specs.Tables.{HasShape};
ghost use Rattle.replay_check.specs.Laid.{edges_along, step_count};
ghost use Rattle.replay_check.specs.Shown.{has_edge, AreBlank};

use crate::ids::IDS;
use bit_rows::Rows;
use limits::{INITIAL, TERMINAL};
use std::alloc::{AllocError, Global};

/// Up to this many ids, unmarking along the ids is faster than clearing all rows.
const FEW_IDS: usize = 8_192;

/// A row for each id, with a bit for each id that may follow it: 128 KiB.
#[derive(Drop)]
pub struct EdgeRows {
    rows: Rows,
    ghost shape: { HasShape rows MAX_PARTITIONS MAX_PARTITIONS },
}

/// Marks that `before` is followed by `id`, unless a trace begins with `id`.
fn mark_step(rows: &mut Rows, before: usize, id: usize)
    requires shape { HasShape rows.old MAX_PARTITIONS MAX_PARTITIONS }
    requires from { before < MAX_PARTITIONS }
    requires to { id < MAX_PARTITIONS }
    ensures shape { HasShape rows.new MAX_PARTITIONS MAX_PARTITIONS }
    ensures marks { (p q : ℕ) → has_edge rows.new p q
        ≡ (has_edge rows.old p q || nat_lt 0 (step_count before id p q)) }
{
    if id == INITIAL as usize {
        return;
    }
    rows.put(before, id, true);
}

/// Removes the mark that `before` is followed by `id`, unless a trace begins with `id`.
fn unmark_step(rows: &mut Rows, before: usize, id: usize)
    requires shape { HasShape rows.old MAX_PARTITIONS MAX_PARTITIONS }
    requires from { before < MAX_PARTITIONS }
    requires to { id < MAX_PARTITIONS }
    ensures shape { HasShape rows.new MAX_PARTITIONS MAX_PARTITIONS }
    ensures marks { (p q : ℕ) → has_edge rows.new p q
        ≡ (has_edge rows.old p q && (step_count before id p q == 0)) }
{
    if id == INITIAL as usize {
        return;
    }
    rows.put(before, id, false);
}

/// Removes all marks.
fn clear_all(rows: &mut Rows)
    requires { HasShape rows.old MAX_PARTITIONS MAX_PARTITIONS }
    ensures shape { HasShape rows.new MAX_PARTITIONS MAX_PARTITIONS }
    ensures marks { (p q : ℕ) → p < MAX_PARTITIONS → has_edge rows.new p q ≡ false }
{
    for p in 0..IDS {
        rows.clear(p);
    }
}

/// Marks the edges along these ids, which begin with a trace.
fn mark_along(rows: &mut Rows, ids: &[u16])
    requires shape { HasShape rows.old MAX_PARTITIONS MAX_PARTITIONS }
    requires blank { AreBlank rows.old }
    requires within { All (λ p. p < MAX_PARTITIONS) ids.now }
    ensures shape { HasShape rows.new MAX_PARTITIONS MAX_PARTITIONS }
    ensures marks { (p q : ℕ) → p < MAX_PARTITIONS
        → has_edge rows.new p q ≡ nat_lt 0 (edges_along p q ids.now) }
{
    let mut before = TERMINAL as usize;
    for id in ids {
        mark_step(rows, before, usize::from(*id));
        before = usize::from(*id);
    }
}

/// Removes the marks of the edges along these ids, which begin with a trace. No others are marked before the call.
fn unmark_along(rows: &mut Rows, ids: &[u16])
    requires shape { HasShape rows.old MAX_PARTITIONS MAX_PARTITIONS }
    requires marks { (p q : ℕ) → p < MAX_PARTITIONS
        → has_edge rows.old p q ≡ nat_lt 0 (edges_along p q ids.now) }
    requires within { All (λ p. p < MAX_PARTITIONS) ids.now }
    ensures shape { HasShape rows.new MAX_PARTITIONS MAX_PARTITIONS }
    ensures blank { AreBlank rows.new }
{
    let mut before = TERMINAL as usize;
    for id in ids {
        unmark_step(rows, before, usize::from(*id));
        before = usize::from(*id);
    }
}

/// Removes all marks, which are those of the edges along these ids: along the ids if they are few, otherwise row by row. The
/// ids begin with a trace.
fn unmark_all(rows: &mut Rows, ids: &[u16])
    requires shape { HasShape rows.old MAX_PARTITIONS MAX_PARTITIONS }
    requires marks { (p q : ℕ) → p < MAX_PARTITIONS
        → has_edge rows.old p q ≡ nat_lt 0 (edges_along p q ids.now) }
    requires within { All (λ p. p < MAX_PARTITIONS) ids.now }
    ensures shape { HasShape rows.new MAX_PARTITIONS MAX_PARTITIONS }
    ensures blank { AreBlank rows.new }
{
    if ids.len() > FEW_IDS {
        return clear_all(rows);
    }
    unmark_along(rows, ids)
}

impl EdgeRows {
    /// Rows without marks.
    pub fn make(alloc: Global) -> Result<EdgeRows, AllocError>
        ensures { IfOk result (λ made. AreBlank made.rows) }
    {
        let rows = Rows::make(alloc, IDS, IDS)?;
        Ok(EdgeRows { rows })
    }

    /// Whether `p` is followed at once by `q`.
    pub fn has(&self, p: usize, q: usize) -> bool
        requires from { p < MAX_PARTITIONS }
        requires to { q < MAX_PARTITIONS }
        ensures { result ≡ has_edge (self.now).rows p q }
    {
        self.rows.get(p, q)
    }

    /// Marks the edges along these ids, which begin with a trace.
    pub fn mark(&mut self, ids: &[u16])
        requires blank { AreBlank (self.old).rows }
        requires within { All (λ p. p < MAX_PARTITIONS) ids.now }
        ensures { (p q : ℕ) → p < MAX_PARTITIONS
            → has_edge (self.new).rows p q ≡ nat_lt 0 (edges_along p q ids.now) }
    {
        mark_along(&mut self.rows, ids);
    }

    /// Removes the marks of the edges along these ids, which begin with a trace. No others are marked before the call.
    pub fn unmark(&mut self, ids: &[u16])
        requires marks { (p q : ℕ) → p < MAX_PARTITIONS
            → has_edge (self.old).rows p q ≡ nat_lt 0 (edges_along p q ids.now) }
        requires within { All (λ p. p < MAX_PARTITIONS) ids.now }
        ensures { AreBlank (self.new).rows }
    {
        unmark_all(&mut self.rows, ids);
    }
}
