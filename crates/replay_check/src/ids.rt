//! The ids of all events, trace after trace, each trace between INITIAL and TERMINAL.
ghost use Rattle.std.specs.Prelude.{◌≡◌, ◌==◌, ◌&&◌, ◌<◌, ℕ, if◌then◌else◌, length, map, slice_index, IfOk, All};
ghost use Rattle.limits.specs.declared.TheConstants.{MAX_PARTITIONS};
ghost use Rattle.partition_model.specs.Coarsening.{onto};
ghost use Rattle.replay_check.specs.Laid.{moved};
ghost use Rattle.replay_check.specs.Shown.{AreOwnPlaces};

use limits::MAX_PARTITIONS;
use std::alloc::{AllocError, Global};

/// The maximum number of ids.
pub(crate) const IDS: usize = MAX_PARTITIONS as usize;

/// The numbers below `MAX_PARTITIONS`, each at its own place.
pub fn own_places(alloc: Global) -> Result<Vec<u16>, AllocError>
    ensures size { IfOk result (λ places. length places.items ≡ MAX_PARTITIONS) }
    ensures places { IfOk result (λ places. AreOwnPlaces places.items) }
    ensures within { IfOk result (λ places. All (λ p. p < MAX_PARTITIONS) places.items) }
{
    let mut places = vec![in alloc; 0; IDS]?;
    for place in 0..IDS {
        places[place] = place as u16;
    }
    Ok(places)
}

/// The new id of an event: `n` if its id is `p` and the next id is `q`, otherwise `id`.
fn moved_id(p: u16, q: u16, n: u16, id: u16, next: u16) -> u16
    ensures { result ≡ (if id == p && next == q then n else id) }
{
    if id == p && next == q { n } else { id }
}

/// Gives the id `n` to the events of `p` that are followed at once by `q`.
pub fn move_events(ids: &mut [u16], p: u16, q: u16, n: u16)
    ensures { ids.new ≡ moved p q n ids.old }
{
    for k in 1..ids.len() {
        ids[k - 1] = moved_id(p, q, n, ids[k - 1], ids[k]);
    }
}

/// The id; `p` instead of `q`.
fn onto(p: u16, q: u16, id: u16) -> u16
    ensures { result ≡ onto p q id }
{
    if id == q { p } else { id }
}

/// Replaces each `q` by `p`.
pub fn replace(numbers: &mut [u16], p: u16, q: u16)
    ensures { numbers.new ≡ map (onto p q) numbers.old }
{
    for k in 0..numbers.len() {
        numbers[k] = onto(p, q, numbers[k]);
    }
}

/// Gives each event the new name of its id.
pub fn rename(ids: &mut [u16], names: &[u16])
    requires size { length names.now ≡ MAX_PARTITIONS }
    requires within { All (λ p. p < MAX_PARTITIONS) ids.old }
    requires names { All (λ p. p < MAX_PARTITIONS) names.now }
    ensures ids { ids.new ≡ map (λ p. slice_index names.now p) ids.old }
    ensures within { All (λ p. p < MAX_PARTITIONS) ids.new }
{
    for k in 0..ids.len() {
        ids[k] = names[usize::from(ids[k])];
    }
}
