//! The data of a model: its types, partitions, edges and invariants, and the steps that led to it.
use crate::{Ids, Invariant, Kinds, Labels, Seq, Text};

/// A partition of events.
#[derive(Clone, Copy, Debug, PartialEq, Eq)]
pub struct Partition {
    /// Its id: 0 is INITIAL, 1 is TERMINAL, and all others are at least 2.
    pub id: u32,
    /// The number of its type.
    pub typ: u16,
    /// For a partition of events, how many events it has. For INITIAL and TERMINAL, how many traces the log has.
    pub count: u32,
}

/// An edge between two partitions.
#[derive(Clone, Copy, Debug, PartialEq, Eq)]
pub struct Edge {
    /// The id that it leaves.
    pub from: u32,
    /// The id that it enters.
    pub to: u32,
    /// At how many places of the traces `from` is directly followed by `to`. Each trace goes from INITIAL through the partitions
    /// of its events to TERMINAL.
    pub count: u32,
}

/// An invariant of a model, with a set of states of its monitor for each partition.
#[derive(Drop)]
pub struct Listed {
    /// The invariant.
    pub inv: Invariant,
    /// For each partition of the model, in their order, the set of states as a number from 0 to 7: 1 for the state 0, plus 2 for
    /// the state 1, plus 4 for the state 2. It is the number itself, not the byte of its digit.
    pub labels: Labels,
}

/// A step of refinement: a partition is divided at the place where a path that breaks an invariant leaves the traces.
#[derive(Drop)]
pub struct Split {
    /// Which invariant the path breaks: its place, counted from 0, in the list that refinement satisfies. In a model that list is
    /// `Model::invariants`.
    pub inv: u32,
    /// Which partition is divided: the place of its id in `path`, counted from 0.
    pub place: u32,
    /// The ids of the path that breaks the invariant.
    pub path: Ids,
}

/// A step of coarsening: the events of `q` go to `p`.
#[derive(Clone, Copy, Debug, PartialEq, Eq)]
pub struct Merge {
    /// The id that stays.
    pub p: u32,
    /// The id that goes.
    pub q: u32,
}

/// Why two partitions of one type stay apart: a path of the graph in which they are merged breaks an invariant.
#[derive(Drop)]
pub struct Block {
    /// The lower id.
    pub p: u32,
    /// The higher id.
    pub q: u32,
    /// Which invariant the path breaks: its place, counted from 0, in the list that coarsening keeps. In a model that list is
    /// `Model::invariants`.
    pub inv: u32,
    /// The ids of the path in the merged graph.
    pub path: Ids,
}

/// The content of a model file.
#[derive(Drop)]
pub struct Model {
    /// The texts of the types, in the order of their numbers. The first has the number 2.
    pub types: Seq<Text>,
    /// Which kinds of invariants were asked for.
    pub kinds: Kinds,
    /// The partitions, ascending by their ids.
    pub partitions: Seq<Partition>,
    /// The edges, ascending by the ids that they leave and then by those that they enter.
    pub edges: Seq<Edge>,
    /// The invariants, in the order of the candidates of these kinds.
    pub invariants: Seq<Listed>,
    /// The steps of refinement, in their order.
    pub splits: Seq<Split>,
    /// The steps of coarsening, in their order.
    pub merges: Seq<Merge>,
    /// Why two partitions of one type stay apart, ascending by `p` and then by `q`.
    pub blocks: Seq<Block>,
}
