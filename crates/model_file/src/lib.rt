//! The model file: the text of a model, and the model of a text or the first refusal.
//!
//! Files are written in version 2: one JSON object without blanks, with the keys `blocks`, `edges`, `invariants`, `kinds`,
//! `merges`, `partitions`, `splits`, `types` and `version` in this order. Reading accepts such an object with any order of keys
//! and any blanks, if the model in it is well shaped.
//!
//! Files of version 1 are read by `read_version_1` and no longer written. They have the same keys without `kinds`, and lower
//! limits on types and bytes. Their models ask for three kinds of invariants.
#![tactic(auto)]

mod caps;
mod entries;
mod found;
mod history;
mod keys;
mod labels;
mod law;
mod lists;
mod parts;
mod reading;
mod refusal;
mod room;
mod shape;
mod stream;
mod table;
mod version;
mod writing;

pub use law::{
    read_is_tree, read_is_well_shaped, rules_tell, texts_are_short, trees_are_read,
    version_1_is_read_again, version_1_is_tree, version_1_names_no_kinds, version_1_trees_are_read,
    written_reads_back,
};
pub use reading::{read_model, read_version_1};
pub use refusal::{Field, FileError};
pub use shape::is_well_shaped;
pub use version::Version;
pub use writing::write_model;
