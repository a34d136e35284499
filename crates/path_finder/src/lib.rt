//! Least violations: for an invariant and a graph, the shortest path that breaks the invariant (the first in
//! lexicographic order among those of equal length).
//!
//! The search runs backwards over pairs of an id and a state of the invariant's monitor, starting from TERMINAL in the
//! bad state. Then the path is followed forwards from INITIAL by least ids.
//!
//! A search visits only ids around the key ids: those that walks from a key id reach, and those from which walks reach a
//! key id. The key ids are those of the invariant's key type. If the question is about a merge and an invariant that
//! the graph satisfies, the only key id is the merged one. If nearly all ids are around a key type, some searches visit
//! all ids, and do not find out which are around it.
#![tactic(auto)]

mod breadth;
mod finder;
mod gather;
mod id_set;
mod level;
mod pair;
mod pair_set;
mod question;
mod reach;
mod search;
mod sight;
mod survey;
mod table;
mod trace;
mod unmerged;
mod words;

pub use finder::Finder;
