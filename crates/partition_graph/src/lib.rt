//! The partitions of a log's events, and the graph that they give.
#![tactic(auto)]

mod cells;
mod edge_counts;
mod events;
mod graph;
mod id_rows;
mod law;
mod links;
mod lists;
mod merged;
mod merged_words;
mod tables;
mod view;
mod word_slots;

pub use graph::PartGraph;
pub use id_rows::{ID_WORDS, WORD_BITS};
pub use law::{set_is_typed, starts_are_typed};
pub use links::{Link, Links};
pub use lists::start_lists;
pub use view::View;
