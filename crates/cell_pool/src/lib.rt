//! Stores whose memory is allocated once, when they are made: cells in lists, spans of numbers, and the log of a run.
#![tactic(auto)]

mod cells;
mod run_log;
mod spans;

pub use cells::{Cells, CellsRoom};
pub use run_log::{BlockEntry, MergeEntry, RunLog, SplitEntry};
pub use spans::{Span, Spans};
