//! The reports of the program: the texts of invariants, of graphs and of the paths of traces.
#![tactic(auto)]

mod graph;
mod invariant;
mod law;
mod lists;
mod name;
mod number;
mod partitions;
mod path;
mod slots;
mod steps;
mod taken;

pub use graph::graph_report;
pub use invariant::invariant_report;
pub use law::paths_tell;
pub use name::Names;
pub use number::push_number;
pub use path::path_report;
