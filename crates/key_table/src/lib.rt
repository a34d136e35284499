//! The keys of traces in the order first met, each once, with a table that finds the place of a key.
#![tactic(auto)]

mod law;
mod slots;
mod table;

pub use law::{known_keys_are_found, new_keys_are_put};
pub use table::KeyTable;
