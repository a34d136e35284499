//! Refinement: the partitions of a log are divided, one after another, until no path of their graph breaks an invariant
//! that holds of every trace.
//!
//! Each step takes the first invariant that the graph does not satisfy, and its least violation. Some trace follows
//! that path up to the place of its stitch, and none follows it further. The events at that place that go on as the
//! path does get a new id.
#![tactic(auto)]

mod law;
mod refining;
mod stitcher;

pub use law::{mined_hold, start_is_opened};
pub use refining::{Basis, PartitionLimit, refine, refine_skipping};
pub use stitcher::Stitcher;
