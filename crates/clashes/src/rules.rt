//! What a type does to the monitor of an invariant.
ghost use Rattle.std.specs.Prelude.{◌≡◌};
ghost use Rattle.merge_law.specs.Critical.{calm_of, critical_of};
ghost use Rattle.clashes.specs.Rules.{enters, stays, falls, starts, is_bad_itself};

use invariants::{Invariant, Kind, Monitor};
use limits::INITIAL;

/// The state that is farthest from the bad end.
fn calm(kind: Kind) -> u8
    ensures { result ≡ calm_of kind }
{
    match kind {
        Kind::AF | Kind::NF | Kind::IB => 0,
        Kind::AP => 1,
    }
}

/// The state from which the bad end is still to come.
fn critical(kind: Kind) -> u8
    ensures { result ≡ critical_of kind }
{
    match kind {
        Kind::AF | Kind::NF | Kind::IB => 1,
        Kind::AP => 0,
    }
}

/// Whether the type brings the monitor from its calm state into its critical one.
pub(crate) fn enters(inv: Invariant, x: u16) -> bool
    ensures { result ≡ enters inv x }
{
    Monitor::step(inv, calm(inv.kind), x) == critical(inv.kind)
}

/// Whether the type leaves the monitor in its critical state.
pub(crate) fn stays(inv: Invariant, x: u16) -> bool
    ensures { result ≡ stays inv x }
{
    Monitor::step(inv, critical(inv.kind), x) == critical(inv.kind)
}

/// Whether the type brings the monitor from its critical state into the bad one, and the two are different states.
pub(crate) fn falls(inv: Invariant, x: u16) -> bool
    ensures { result ≡ falls inv x }
{
    let state = Monitor::step(inv, critical(inv.kind), x);
    Monitor::bad(inv, state) && !is_bad_itself(inv)
}

/// Whether INITIAL brings the monitor into its critical state.
pub(crate) fn starts(inv: Invariant) -> bool
    ensures { result ≡ starts inv }
{
    Monitor::step(inv, Monitor::start(), INITIAL as u16) == critical(inv.kind)
}

/// Whether the critical state is the bad one.
pub(crate) fn is_bad_itself(inv: Invariant) -> bool
    ensures { result ≡ is_bad_itself inv }
{
    Monitor::bad(inv, critical(inv.kind))
}
