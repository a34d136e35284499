//! The labels of all invariants at once: which states their monitors reach at each partition of a graph.
//!
//! A phase of a monitor at a partition is a row of bits, with one bit for each invariant. So a scan of the edges of the
//! graph labels all invariants at once. A phase is a state, numbered by how near the bad end is, so that what a type
//! does takes four rows. The marks of crate `clashes`, which show what a merge loses, are kept beside the labels.
#![tactic(auto)]

mod carrying;
mod graph_labels;
mod layout;
mod marks;
mod phase_rows;
mod phases;
mod planes;
mod propagation;

pub use graph_labels::GraphLabels;
pub use planes::Planes;
