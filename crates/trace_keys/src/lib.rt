//! The keys of traces: a file, a section and a text; their fingerprints; lists of keys, each at its place.
#![tactic(auto)]

mod fingerprint;
mod hashed_key;
mod key;
mod key_list;
mod packed_text;

pub use fingerprint::{Fingerprint, MAX_TOLD};
pub use hashed_key::HashedKey;
pub use key::{KeyParts, ShownKey};
pub use key_list::KeyList;
pub use packed_text::PackedText;
