//! Which invariants are labelled for a model.
//!
//! InterruptedBy of a type that no walk has twice has the labels of AlwaysFollowedBy of the same types: both have state 1
//! from the type up to the next event of the other one. So if both are listed, only one of them is labelled.
ghost use Rattle.std.specs.Prelude.{◌≡◌, ◌≢◌, ◌≤◌, IfOk, IfSome, Some, true, length, slice_get};
ghost use Rattle.invariants.specs.Candidates.{invariant};
ghost use Rattle.invariants.specs.declared.Kind.TheVariants.{AF};
ghost use Rattle.infer_core.specs.Portions.{AreNamed};
ghost use Rattle.infer_core.specs.Vacuous.{is_vacuous, Covers};

use crate::flags::is_vacuous;
use crate::labels::{NEAR, TOGETHER};
use invariants::{Invariant, Kind};
use std::alloc::{AllocError, Global};

/// The number of AlwaysFollowedBy of the same types, if the invariant is vacuous, and that one is among the last of those that
/// are asked for, and its labels are read together with the last ones. `once` has a flag for each type, or for those before
/// some bound.
fn partner(once: &[bool], asked: &[Invariant], inv: Invariant) -> Option<usize>
    ensures at { IfSome result
        (λ number. slice_get asked.now number ≡ Some (invariant AF inv.a inv.b)) }
    ensures vacuous { IfSome result (λ number. is_vacuous once.now inv ≡ true) }
    ensures two { IfSome result (λ number. inv.a ≢ inv.b) }
{
    if !is_vacuous(once, inv) || inv.a == inv.b {
        return None;
    }
    let count = asked.len();
    let together = count.saturating_sub(1) / TOGETHER * TOGETHER;
    for number in together.max(count.saturating_sub(NEAR))..count {
        let other = asked[number];
        if other.kind == Kind::AF && other.a == inv.a && other.b == inv.b {
            return Some(number);
        }
    }
    None
}

/// The invariants that are labelled, in their order, and for each of the given ones the number of one among them that has its
/// labels. `AllocError` is returned if there is not enough memory.
pub(crate) fn asked_for(
    alloc: Global,
    once: &[bool],
    invs: &[Invariant],
) -> Result<(Vec<Invariant>, Vec<usize>), AllocError>
    ensures few { IfOk result (λ made. length made.0.items ≤ length invs.now) }
    ensures named { IfOk result (λ made. AreNamed invs.now → AreNamed made.0.items) }
    ensures count { IfOk result (λ made. length made.1.items ≡ length invs.now) }
    ensures covers { IfOk result (λ made. Covers once.now invs.now made.0.items made.1.items) }
{
    let mut asked = Vec::with_capacity(alloc, invs.len())?;
    let mut numbers = Vec::with_capacity(alloc, invs.len())?;
    for k in 0..invs.len() {
        let inv = invs[k];
        if let Some(number) = partner(once, asked.as_slice(), inv) {
            numbers.push(number)?;
        } else {
            numbers.push(asked.len())?;
            asked.push(inv)?;
        }
    }
    Ok((asked, numbers))
}
