//! Phases: the states of a monitor, numbered by how near its bad end is.
ghost use Rattle.std.specs.Prelude.{◌≡◌, ◌<◌};
ghost use Rattle.labelling.specs.declared.layout.TheConstants.{STATES};
ghost use Rattle.labelling.specs.Phases.{first_phase, phase_of, turn};

use crate::layout::STATES;
use invariants::{Invariant, Kind, Monitor};
use limits::INITIAL;

/// The phase of a state, and also the state of a phase. No monitor goes from phase 0 directly to phase 2.
pub(crate) fn phase_of(kind: Kind, state: u8) -> u8
    requires { state < STATES }
    ensures value { result ≡ phase_of kind state }
    ensures bound { result < STATES }
{
    match kind {
        Kind::AF | Kind::NF | Kind::IB => state,
        Kind::AP if state == 0 => 1,
        Kind::AP if state == 1 => 0,
        Kind::AP => state,
    }
}

/// The phase after the type is read in a phase.
pub(crate) fn turn(inv: Invariant, phase: u8, typ: u16) -> u8
    requires { phase < STATES }
    ensures { result ≡ turn inv phase typ }
{
    phase_of(inv.kind, Monitor::step(inv, phase_of(inv.kind, phase), typ))
}

/// The phase in which the monitor is at INITIAL.
pub(crate) fn first_phase(inv: Invariant) -> u8
    ensures value { result ≡ first_phase inv }
    ensures bound { result < STATES }
{
    phase_of(
        inv.kind,
        Monitor::step(inv, Monitor::start(), INITIAL as u16),
    )
}
