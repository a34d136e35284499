//! Where a path leaves the traces.
ghost use Rattle.std.specs.Prelude.{◌≡◌, ◌≤◌, drop, length};
ghost use Rattle.replay_check.specs.Laid.{common_in_trace, longest};

use limits::{INITIAL, TERMINAL};

/// The length of the common prefix of the path and the ids from `from` on, up to the end of the trace that begins there.
fn common_from(ids: &[u16], from: usize, path: &[u32]) -> usize
    requires { from ≤ length ids.now }
    ensures { result ≡ common_in_trace path.now (drop from ids.now) }
{
    for (k, id) in path.iter().enumerate() {
        if k >= ids.len() - from {
            return k;
        }
        if u32::from(ids[from + k]) != *id {
            return k;
        }
        if *id == TERMINAL {
            return k + 1;
        }
    }
    path.len()
}

/// The length of the longest prefix of the path that some trace begins with.
pub fn followed(ids: &[u16], path: &[u32]) -> usize
    ensures { result ≡ longest path.now ids.now }
{
    let mut most = 0;
    for (k, id) in ids.iter().enumerate() {
        if u32::from(*id) == INITIAL {
            most = common_from(ids, k, path).max(most);
        }
    }
    most
}
