//! The types and the list of invariants of a model, compared with those of a log.
ghost use Rattle.std.specs.Prelude.{◌≡◌, ◌↔◌, ◌<◌, ◌^◌, length, map, IsTrue, MatchOption};
ghost use Rattle.models.specs.Checks.{DiffersAt};
ghost use Rattle.model_check.specs.Verdicts.{inv_of};

use invariants::{Invariant, Listed, Text};

/// Whether two lists of texts are the same.
pub fn are_same(these: &[Text], those: &[Text]) -> bool
    ensures { IsTrue result ↔ (these.now ≡ those.now) }
{
    if these.len() != those.len() {
        return false;
    }
    for (i, text) in these.iter().enumerate() {
        if text.as_str() != those[i].as_str() {
            return false;
        }
    }
    true
}

/// The first place at which the listed invariants differ from the mined ones, or the length of the shorter list; `None` if they
/// are the same.
pub fn first_difference(listed: &[Listed], mined: &[Invariant]) -> Option<u32>
    requires { length mined.now < 2 ^ 32 }
    ensures { MatchOption result
        (map inv_of listed.now ≡ mined.now)
        (DiffersAt (map inv_of listed.now) mined.now) }
{
    for (i, inv) in mined.iter().enumerate() {
        if i >= listed.len() || listed[i].inv != *inv {
            return Some(i as u32);
        }
    }
    if listed.len() > mined.len() {
        return Some(mined.len() as u32);
    }
    None
}
