//! Temporal invariants between event types: what they are, which of them a log is asked for, and how a monitor checks one on a
//! word.
//!
//! AlwaysFollowedBy, NeverFollowedBy and AlwaysPrecedes are those of Beschastnikh, Brun, Schneider, Sloan and Ernst (ESEC/FSE
//! 2011).
//! A trace is read as a word of type numbers: 0 is INITIAL, 1 is TERMINAL, and the T types of a log have the numbers 2 to T + 1.
//! The crate `limits` names 0, 1 and 2.
//! `Seq`, `Text`, `Labels` and `Ids` are the lists and the texts of public data, and the records are the data of a model. Only
//! the calls that make `Labels` may take memory.
#![tactic(auto)]

ghost use Rattle.std.specs.Prelude.{◌≡◌, ◌≤◌, length};
ghost use Rattle.invariants.specs.Candidates.{candidates_for, candidate_total};

use limits::MAX_TYPES;

mod ids;
mod labels;
mod seq;

pub use ids::Ids;
pub use labels::Labels;
pub use seq::{Seq, Text};

/// How a type `a` and a type `b` are related in a word. Earlier and later are strict: a place is not before itself.
#[derive(Clone, Copy, Debug, PartialEq, Eq)]
pub enum Kind {
    /// AlwaysFollowedBy: each `a` has a later `b`.
    AF,
    /// NeverFollowedBy: no `a` has a later `b`.
    NF,
    /// AlwaysPrecedes: each `b` has an earlier `a`.
    AP,
    /// InterruptedBy: between any two `a` there is a `b`.
    IB,
}

/// Which kinds of invariants a log is asked for.
#[derive(Clone, Copy, Debug, PartialEq, Eq)]
pub enum Kinds {
    /// AlwaysFollowedBy, NeverFollowedBy and AlwaysPrecedes.
    Three,
    /// These and InterruptedBy.
    Four,
}

/// An invariant of a kind between two types, which may be the same type.
#[derive(Clone, Copy, Debug, PartialEq, Eq)]
pub struct Invariant {
    /// How the two types are related.
    pub kind: Kind,
    /// The number of the first type.
    pub a: u16,
    /// The number of the second type.
    pub b: u16,
}

/// How many candidates of these kinds a log with `types` types has. `types` is at most `MAX_TYPES`. There is one candidate for
/// each type, and one of each kind for each ordered pair of types. The two types of a pair may be the same, except for
/// InterruptedBy.
pub fn candidate_count(kinds: Kinds, types: u32) -> u32
    requires { types ≤ MAX_TYPES }
    ensures count { result ≡ candidate_total kinds types }
    ensures listed { result ≡ length (candidates_for kinds types) }
{
    match kinds {
        Kinds::Three => types + 3 * (types * types),
        Kinds::Four => 4 * (types * types),
    }
}

mod law;
mod monitor;
mod numbered;
mod records;

pub use law::{
    candidates_differ, candidates_tell, ends_say_nothing, holds_by_places, mined_keeps_order,
    mined_tells, monitor_agrees, monitors_tell,
};
pub use monitor::Monitor;
pub use numbered::{candidate, index_of};
pub use records::{Block, Edge, Listed, Merge, Model, Partition, Split};
