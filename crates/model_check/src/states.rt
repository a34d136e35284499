//! Sets of the three states of a monitor, and how they change along edges.
ghost use Rattle.std.specs.Prelude.{◌≡◌, ◌↔◌, ◌<◌, ◌==◌, ◌||◌, ℕ, true, IsTrue};
ghost use Rattle.invariants.specs.Monitors.{step};
ghost use Rattle.invariants.specs.Labels.{IsLabel};
ghost use Rattle.models.specs.Models.{has_state};
ghost use Rattle.model_check.specs.States.{IsSource, AreSources};

use invariants::{Invariant, Monitor};
use std::marker::Model;

/// The number of states of a monitor.
pub(crate) const STATES: u8 = 3;

/// The number of sets of states.
const SETS: usize = 8;

/// A set of states. Contracts see it as a label: a number from 0 to 7.
#[derive(Clone, Copy)]
pub struct StateSet(u8);

impl Model for StateSet {
    ghost Value = { ℕ };

    ghost view = { λ set. set.0 };

    ghost invariant = { λ set. IsLabel set.0 };

    ghost inverse = { λ number. record { 0 = number } };
}

impl StateSet {
    /// No state.
    pub fn none() -> StateSet
        ensures { result ≡ 0 }
    {
        StateSet(0)
    }

    /// The states in a label.
    pub fn of(label: u8) -> StateSet
        requires { IsLabel label }
        ensures { result ≡ label }
    {
        StateSet(label)
    }

    /// The set of one state, 0, 1 or 2.
    fn alone(state: u8) -> StateSet
        requires { state < STATES }
        ensures { (s : ℕ) → has_state result s ≡ (state == s) }
    {
        match state {
            0 => StateSet(1),
            1 => StateSet(2),
            _ => StateSet(4),
        }
    }

    /// The states of both sets.
    fn either(self, other: StateSet) -> StateSet
        ensures { (s : ℕ) → has_state result s ≡ (has_state self s || has_state other s) }
    {
        StateSet(self.0 | other.0)
    }

    /// Whether the state, 0, 1 or 2, is in the set.
    pub fn has(self, state: u8) -> bool
        requires { state < STATES }
        ensures { result ≡ has_state self state }
    {
        match state {
            0 => self.0 % 2 == 1,
            1 => self.0 / 2 % 2 == 1,
            _ => self.0 / 4 % 2 == 1,
        }
    }

    /// Whether each state of the set is in the other.
    pub fn is_within(self, other: StateSet) -> bool
        ensures { IsTrue result ↔ ((s : ℕ) → has_state self s ≡ true → has_state other s ≡ true) }
    {
        self.0 & other.0 == self.0
    }
}

/// The states from which the type leads a monitor into the set.
fn source(inv: Invariant, set: StateSet, typ: u16) -> StateSet
    ensures { IsSource inv typ set result }
{
    let mut source = StateSet::none();
    for state in 0..STATES {
        if set.has(Monitor::step(inv, state, typ)) {
            source = source.either(StateSet::alone(state));
        }
    }
    source
}

/// The sources of all sets.
fn source_of_each(inv: Invariant, typ: u16) -> [StateSet; SETS]
    ensures { AreSources inv typ result }
{
    let mut sources = [StateSet::none(); SETS];
    for set in 0..SETS {
        sources[set] = source(inv, StateSet::of(set as u8), typ);
    }
    sources
}

/// The states from which types lead an invariant's monitor into each set. A type that the invariant does not name leaves the
/// states as they are.
#[derive(Drop)]
pub struct Sources {
    inv: Invariant,
    by_a: [StateSet; SETS],
    by_b: [StateSet; SETS],
    ghost first: { AreSources inv inv.a by_a },
    ghost second: { AreSources inv inv.b by_b },
}

impl Sources {
    /// The sources of the invariant's monitor.
    pub fn of(inv: Invariant) -> Sources
        ensures { result.inv ≡ inv }
    {
        Sources {
            inv,
            by_a: source_of_each(inv, inv.a),
            by_b: source_of_each(inv, inv.b),
        }
    }

    /// The states from which the type leads into the set.
    pub fn leading_into(&self, set: StateSet, typ: u16) -> StateSet
        ensures { IsSource (self.now).inv typ set result }
    {
        if typ == self.inv.a {
            return self.by_a[set.0 as usize];
        }
        if typ == self.inv.b {
            return self.by_b[set.0 as usize];
        }
        set
    }
}
