//! Gathers events into types and traces, each in the order first met.
#![tactic(auto)]

mod builder;
mod columns;
mod layout;
mod placing;
mod slots;
mod sorting;
mod trace_table;
mod type_table;

pub use builder::{AddError, Builder};
pub use placing::Placed;
pub use trace_keys::PackedText;
