//! Coarsening: partitions of one type are merged if this loses no invariant. For each pair that stays apart, a block
//! records why.
//!
//! One pass over the pairs in their order makes all merges, since a pair whose merge loses an invariant loses it after
//! further merges too. A pair is decided by rows of bits, without a search of the merged graph. The finder is used only
//! for blocks, each of which has a path as its evidence. Often it is known without a search that these paths fit. No call
//! allocates.
#![tactic(auto)]

mod blocking;
mod fitting;
mod merging;
mod pairs;
mod ranks;
mod telling;

pub use blocking::{Coarsened, EvidenceLimit, blocks, blocks_marked};
pub use fitting::blocks_fit;
pub use merging::coarsen;
