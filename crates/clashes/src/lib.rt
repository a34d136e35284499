//! Which invariant a merge of two partitions loses, decided by two rows of bits without a search of the merged graph.
//!
//! Each monitor has a critical state, from which the bad end is still to come. A merge of two ids loses an invariant
//! exactly if the critical state meets one of the two and the bad end is ahead of the other (crate `merge_law`). So
//! this crate keeps, for each id, a row of what is met and a row of what is ahead, with a bit for each invariant.
#![tactic(auto)]

mod clashes;
mod growing;
mod law;
mod mark_rows;
mod masks;
mod places;
mod rules;

pub use clashes::Clashes;
pub use growing::link_after;
pub use law::clashes_tell;
