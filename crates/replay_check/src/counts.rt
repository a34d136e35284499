//! How often events of one id are followed at once by events of another.
ghost use Rattle.std.specs.Prelude.{◌≡◌, ◌+◌, ◌*◌, ◌<◌, ◌≤◌, ◌^◌, ℕ, length, slice_index, IfOk, All};
ghost use Rattle.limits.specs.declared.TheConstants.{FIRST_TYPE, MAX_PARTITIONS};
ghost use Rattle.replay_check.specs.Laid.{edges_along, step_count};
ghost use Rattle.replay_check.specs.Shown.{count_at, HasRow};

use crate::ids::IDS;
use limits::{INITIAL, TERMINAL};
use std::alloc::{AllocError, Global};

/// A count for each pair of ids below a bound, row by row. A row has places for `MAX_PARTITIONS` ids.
#[derive(Drop)]
pub struct EdgeCounts {
    counts: Vec<u32>,
    /// The bound, which is the number of rows.
    bound: usize,
    ghost size: { length counts.items ≡ bound * MAX_PARTITIONS },
    ghost most: { bound ≤ MAX_PARTITIONS },
}

/// A list of `count` zeros.
fn zeros(alloc: Global, count: usize) -> Result<Vec<u32>, AllocError>
    ensures size { IfOk result (λ zeros. length zeros.items ≡ count) }
    ensures zeros { IfOk result (λ zeros. (k : ℕ) → slice_index zeros.items k ≡ 0) }
{
    Vec::from_elem(alloc, 0, count)
}

/// Counts that `before` is followed by `id`, unless a trace begins with `id`.
fn count_step(counts: &mut [u32], before: usize, id: usize)
    requires from { HasRow counts.old before }
    requires to { id < MAX_PARTITIONS }
    requires few { count_at counts.old before id + 1 < 2 ^ 32 }
    ensures size { length counts.new ≡ length counts.old }
    ensures counts { (p q : ℕ) → q < MAX_PARTITIONS
        → count_at counts.new p q ≡ step_count before id p q + count_at counts.old p q }
{
    if id == INITIAL as usize {
        return;
    }
    counts[before * IDS + id] += 1;
}

/// Counts the edges along these ids, which begin with a trace. The counts have to be zeros, with a row for each id.
fn count_along(counts: &mut [u32], ids: &[u16])
    requires zeros { (k : ℕ) → slice_index counts.old k ≡ 0 }
    requires ends { HasRow counts.old TERMINAL }
    requires rows { All (HasRow counts.old) ids.now }
    requires within { All (λ p. p < MAX_PARTITIONS) ids.now }
    requires few { length ids.now < 2 ^ 31 }
    ensures size { length counts.new ≡ length counts.old }
    ensures counts { (p q : ℕ) → q < MAX_PARTITIONS
        → count_at counts.new p q ≡ edges_along p q ids.now }
{
    let mut before = TERMINAL as usize;
    for id in ids {
        count_step(counts, before, usize::from(*id));
        before = usize::from(*id);
    }
}

impl EdgeCounts {
    /// The counts of the edges along these ids, which begin with a trace. The ids are below the bound.
    pub fn of(alloc: Global, ids: &[u16], bound: usize) -> Result<EdgeCounts, AllocError>
        requires within { All (λ p. p < bound) ids.now }
        requires ends { FIRST_TYPE ≤ bound }
        requires most { bound ≤ MAX_PARTITIONS }
        requires few { length ids.now < 2 ^ 31 }
        ensures bound { IfOk result (λ made. made.bound ≡ bound) }
        ensures counts { IfOk result (λ made. (p q : ℕ) → q < MAX_PARTITIONS
            → count_at made.counts.items p q ≡ edges_along p q ids.now) }
    {
        let mut counts = zeros(alloc, bound * IDS)?;
        count_along(counts.as_mut_slice(), ids);
        Ok(EdgeCounts { counts, bound })
    }

    /// How often `p` is followed at once by `q`.
    pub fn get(&self, p: usize, q: usize) -> u32
        requires from { p < (self.now).bound }
        requires to { q < MAX_PARTITIONS }
        ensures { result ≡ count_at (self.now).counts.items p q }
    {
        self.counts[p * IDS + q]
    }
}
